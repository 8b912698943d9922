// The words of maintenance mode, as document 002 has them and document 01 completes them. There is no code here: what a
// setting and a message are, which values are legal, what a frame says, what the monitor says back, and what is promised
// of all that.
//
//     setting  the six settings
//     message  what a frame says to the monitor
#![tactic(auto)]

pub mod message;
pub mod setting;

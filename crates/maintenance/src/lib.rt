// The words of maintenance mode at work, by the definitions of `maintenance_pages`.
//
//     setting  which values are legal and which settings power-on accepts; one setting of the six
//     message  what a frame says to the monitor, the challenge and its answer, and what the monitor says back
#![tactic(auto)]

pub mod message;
pub mod setting;

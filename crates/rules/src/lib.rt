// The rules of the bench monitor, as document 002 has them and document 01 completes them, and what the history says of them. There is no code
// here: what a monitor holds, the rules one by one, the reading that looks back over the events, and demand 3.
//
//     unit  what a monitor holds, and what an event leaves
#![tactic(auto)]

pub mod unit;

// Which row of document 01's report table a frame is read by, and what is refused on the way: for reading and building.
//
//     limits  refusals 1 and 2
//     rows    the row of a multiplexer and of a frame, refusal 3
//     status  the status bytes that no SIM100 sends, for refusals 5 and 6
#![tactic(auto)]

pub mod limits;
pub mod rows;
pub mod status;

// SIM100 and SIM101 frames, as documents 001 and 000 have them and document 01 completes them. There is no code here:
// what a frame, a report and a request are, the report table, what is read and built, when it is refused, and what
// is promised of all that.
//
//     frame    what a frame is
//     rows     document 01's report table: the device kinds and its rows
//     report   what a report says
//     request  what a request asks
#![tactic(auto)]

pub mod frame;
pub mod report;
pub mod request;
pub mod rows;

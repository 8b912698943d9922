// Frames read as reports and as requests. Any frame is read or refused.
//
//     parts    the parts of a report in the bytes of a frame
//     report   what a report says
//     request  what a request asks
//     reading  a frame read as either
#![tactic(auto)]

mod parts;
pub mod reading;
mod report;
mod request;

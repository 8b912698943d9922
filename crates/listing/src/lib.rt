// The listing of a log: a line for each reply, then the stored line. What the monitor replies and stores is taken from its promise.
//
//     line     the lines of a listing
//     records  the records of a log met by a monitor, and their lines
//     listing  a log replayed into a lent buffer
//     output   what the program writes, in parts
#![tactic(auto)]

pub mod line;
pub mod listing;
pub mod output;
mod records;

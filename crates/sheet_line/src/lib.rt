// One line of an order sheet: the name of a setting, one space, its value, a line feed.
//
//     line     the line written, and the values that it may hold
//     number   the number that figures stand for
//     reading  the line looked for in bytes
#![tactic(auto)]

pub mod line;
mod number;
pub mod reading;

// Order sheets: six lines of text for the six settings, read and written. A sheet is read when its bytes are exactly the text of settings that a sheet may hold.
//
//     reading  a sheet read, or the first line that is wrong
//     writing  settings written into a lent buffer
//     output   what the program writes: the sheet, or what was wrong
#![tactic(auto)]

pub mod output;
pub mod reading;
pub mod writing;

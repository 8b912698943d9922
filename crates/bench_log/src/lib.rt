// Closed bench logs, as document 01 has them: notes, a block, records and a trailer. Any bytes are answered or refused.
//
//     layout  the trailer, and the parts
//     block   what power-on is given
//     record  one event
//     check   the refusals of a log, in order, and an accepted log
//     view    the lent bytes and the place of the next record
#![tactic(auto)]

pub mod block;
pub mod check;
pub mod layout;
pub mod record;
pub mod view;

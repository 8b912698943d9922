// The bench monitor: a model of the SIM101 and its maintenance mode, by the rules of the crate below.
//
//     turn     what an event may leave
//     outside  a frame heard outside a session
//     session  a frame heard in a session
//     unit     the monitor itself: given events that are within the limits and in order, it refuses nothing
//     bench    the monitor with the last accepted stamp: power-on, events and the uptime question, and their refusals.
//              From outside there is no other way in: the bench judges first, and only it asks the unit
#![tactic(auto)]

pub mod bench;
mod outside;
mod session;
mod turn;
mod unit;

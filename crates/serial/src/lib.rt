//! The serial line: the form of a character, the rate, the transmitter and the receiver.

#![tactic(auto)]

pub mod form;
pub mod rate;
pub mod receiver;
pub mod stage;
pub mod transmitter;

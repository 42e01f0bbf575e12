// The registers as the host sees them: addresses, words, ports and pins.

#![tactic(auto)]

pub mod held;
pub mod latch;
pub mod pins;
pub mod register;
pub mod words;

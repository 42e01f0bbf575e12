// The stand-in: what stands in the socket of an 8256 multifunction UART.

#![tactic(auto)]

pub mod clock;
pub mod firing;
pub mod look;
pub mod pin_call;
pub mod pulse;
pub mod read;
pub mod serial_side;
pub mod state;
pub mod write;

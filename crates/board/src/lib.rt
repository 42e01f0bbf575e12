// The board: the stand-in beside a line partner, and every call that is made of it.

#![tactic(auto)]

mod board;

pub use board::Board;

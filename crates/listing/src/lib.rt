// Writes the lines of a listing: one line of fixed columns for each operation.

#![tactic(auto)]

mod lines;
mod number;

pub use lines::{Line, write_line};

// Reads the lines of a script: one operation a line, in fixed columns that count from 1.

#![tactic(auto)]

mod codes;
mod fields;
mod items;
mod line_buffer;
mod lines;

pub use items::{Fault, Item, Operation};
pub use line_buffer::LineBuffer;
pub use lines::parse;

// The clock's arithmetic: what many single steps come to, in one jump.

#![tactic(auto)]

mod accumulator;

pub use accumulator::{Accumulator, Ratio};

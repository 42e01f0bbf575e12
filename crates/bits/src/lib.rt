// The eight places of a byte, the bits that stand at them, and eight flags as a byte.

#![tactic(auto)]

mod bytes;
mod flags;
mod place;

pub use bytes::{bit, weight};
pub use flags::{byte_of, flags_of};
pub use place::Place;

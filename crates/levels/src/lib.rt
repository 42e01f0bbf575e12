// The eight interrupt levels: which request, which are in service, and which one is ready. Sets of levels are plain arrays: a
// type is no plainer, since nothing always holds of a set but its length.

#![tactic(auto)]

mod closing;
mod masks;
mod pending;
mod priority;

pub use closing::{close_all, end};
pub use masks::{clear, difference, disable, enable, request};
pub use pending::Pending;
pub use priority::{ready, requesting};

/// A level is one of the eight places of a set, so its number is below 8.
pub use bits::Place as Level;

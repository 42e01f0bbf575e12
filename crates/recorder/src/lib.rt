// A list of marks in room that the host lends: the first that fit are kept, and all are counted.

#![tactic(auto)]

mod recorder;

pub use recorder::Recorder;

// The bench: script lines run against a board with a loopback plug.

#![tactic(auto)]

mod bench;
mod operations;
mod runner;
mod scripts;

pub use bench::Bench;

// The programs' work on their streams.

#![tactic(auto)]

mod lister;
mod marks_printer;
mod receiving;

pub use lister::{list, list_script};
pub use marks_printer::{print_marks, print_script_marks};
pub use receiving::print_received;

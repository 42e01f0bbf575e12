// What a board's two recorders take: changes of lines, and what happens in service. Shown, a mark is a line of text.

#![tactic(auto)]

mod recorders;
mod services;
mod wires;

pub use recorders::Recorders;
pub use services::{ServiceMark, mark_closed, mark_taken};
pub use wires::{Line, Lines, WireMark, mark_changes};

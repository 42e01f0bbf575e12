// The five timers: counts that each step lowers, alone or joined in pairs.

#![tactic(auto)]

mod count;
mod duo;
mod modes;
mod timer;
mod timers;

pub use count::{FAR, until_zero};
pub use duo::Duo;
pub use modes::{DuoModes, Fired, Number, Side, TimerModes};
pub use timer::Timer;
pub use timers::{Timers, Trigger};

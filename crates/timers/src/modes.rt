// How the timers are joined and driven, and how they are told apart.
ghost use Rattle.std.specs.Prelude.{◌≡◌};
ghost use Rattle.timers.specs.Stepping.{by_clock, by_edge, reported, even_watch, odd_watch};

use crate::duo::{Drive, Units};

// What the mode word says of the timers.
#[derive(Clone, Copy)]
pub struct TimerModes {
    // Timers 2 and 4: T24 and CT2.
    pub even: DuoModes,
    // Timers 3 and 5: T35 and CT3.
    pub odd: DuoModes,
    // T5C: P15 loads timer 5 or its pair, which rests from the write that sets this until P15 falls.
    pub t5c: bool,
}

// How a duo is joined and driven.
#[derive(Clone, Copy)]
pub struct DuoModes {
    // The two timers are one counter of 16 bits.
    pub joined: bool,
    // The low timer, or the pair, counts edges.
    pub counts_edges: bool,
}

// Which duo: timers 2 and 4, or timers 3 and 5.
#[derive(Clone, Copy)]
pub enum Side {
    Even,
    Odd,
}

// A set of timers: those that went from 1 to 0, or those watched. A pair stands in it as the timer whose level it has.
#[derive(Clone, Copy)]
pub struct Fired {
    pub one: bool,
    pub two: bool,
    pub three: bool,
    pub four: bool,
    pub five: bool,
}

// A timer by its number.
#[derive(Clone, Copy)]
pub enum Number {
    One,
    Two,
    Three,
    Four,
    Five,
}

impl DuoModes {
    pub(crate) fn clock(self, resting: bool) -> Drive
        ensures { result ≡ by_clock self resting }
    {
        Drive::new(self.joined, !self.counts_edges, !resting)
    }

    pub(crate) fn edge(self, resting: bool) -> Drive
        ensures { result ≡ by_edge self resting }
    {
        Drive::new(self.joined, self.counts_edges, self.joined && !resting)
    }
}

impl Fired {
    pub(crate) fn new(one: bool, even: Units, odd: Units) -> Fired
        ensures { result ≡ reported one even odd }
    {
        Fired {
            one,
            two: even.low,
            three: odd.low || odd.pair,
            four: even.high || even.pair,
            five: odd.high,
        }
    }

    // Two functions, since one over `Side` would only match on it: the pair 2 and 4 requests on timer 4's level, the pair 3 and 5 on
    // timer 3's.
    pub(crate) fn even_units(self) -> Units
        ensures { result ≡ even_watch self }
    {
        Units {
            low: self.two,
            high: self.four,
            pair: self.four,
        }
    }

    pub(crate) fn odd_units(self) -> Units
        ensures { result ≡ odd_watch self }
    {
        Units {
            low: self.three,
            high: self.five,
            pair: self.three,
        }
    }
}

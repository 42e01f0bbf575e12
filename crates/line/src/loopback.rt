ghost use Rattle.line.specs.LastHeard.{last_heard, plug};
ghost use Rattle.line.specs.Meaning.{Steady};
ghost use Rattle.std.specs.Prelude.{◌≡◌, true};

use crate::partner::{Partner, QUIET_MOST};

/// A loopback plug: it shows what it last heard, and 1 at first.
#[derive(Clone, Copy)]
pub struct Loopback {
    heard: bool,
}

impl Loopback {
    pub fn new() -> Loopback
        ensures { plug result ≡ last_heard true }
    {
        Loopback { heard: true }
    }
}

impl Partner for Loopback {
    ghost meaning = { plug };

    fn level(&self) -> bool {
        self.heard
    }

    fn quiet(&self) -> u64
        ensures steady { Steady result (plug self.now) }
        ensures clocks { result ≡ 16777216 }
    {
        QUIET_MOST
    }

    #[tactic(auto, using(crate::proofs::Elapsing::last_heard_stays))]
    fn advance(&mut self, _clocks: u64) {}

    fn hear(&mut self, level: bool) {
        self.heard = level;
    }
}

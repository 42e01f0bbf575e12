ghost use Rattle.line.specs.Meaning.{Steady};
ghost use Rattle.line.specs.Plays.{quiet_for, tape, waiting};
ghost use Rattle.std.specs.Prelude.{◌≡◌};

use super::Recorded;
use crate::partner::{Partner, QUIET_MOST};

impl Partner for Recorded {
    ghost meaning = { tape };

    fn level(&self) -> bool {
        self.level
    }

    fn quiet(&self) -> u64
        ensures steady { Steady result (tape self.now) }
        ensures clocks { result ≡ quiet_for (waiting self.now) }
    {
        self.left
            .map_or(QUIET_MOST, |left| u64::from(left.max(1)).min(QUIET_MOST))
    }

    #[tactic(auto, using(crate::proofs::Playing::tape_ends))]
    fn advance(&mut self, mut clocks: u64) {
        while let Some(left) = self.left {
            let wait = u64::from(left.max(1));
            if clocks < wait {
                self.left = Some(left - clocks as u32);
                return;
            }
            clocks -= wait;
            self.left = self.waits.next();
            self.level = !self.level;
        }
    }

    fn hear(&mut self, _level: bool) {}
}

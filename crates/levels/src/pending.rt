// What a read of a register may disturb: the recorded requests and the levels in service.
ghost use Rattle.std.specs.Prelude.{◌≡◌, true, false, replicate};
ghost use Rattle.levels.specs.Levels.{due, taken, Opened};

use crate::Level;
use crate::priority::{ready, requesting};

#[derive(Clone, Copy, Default)]
pub struct Pending {
    pub requests: [bool; 8],
    pub service: [bool; 8],
}

impl Pending {
    pub fn new() -> Pending
        ensures { result ≡ record { requests = replicate 8 false; service = replicate 8 false } }
    {
        Pending::default()
    }

    // The level that taking picks. A struct of mask, pin and nesting, here and in `requesting`, is no plainer: the stand-in has them
    // in three places.
    pub fn due(&self, mask: &[bool; 8], extint: bool, nesting: bool) -> Option<Level>
        ensures { result ≡ due self.now mask.now extint nesting }
    {
        ready(
            &requesting(&self.requests, mask, extint),
            &self.service,
            nesting,
        )
    }

    // Taking picks the ready level, drops its recorded request and, with nesting on, puts it in service.
    pub fn take(&mut self, mask: &[bool; 8], extint: bool, nesting: bool) -> Option<Level>
        ensures picks { result ≡ due self.old mask.now extint nesting }
        ensures after { self.new ≡ taken result self.old nesting }
        ensures opens { nesting ≡ true → Opened result self.old.service }
    {
        let level = self.due(mask, extint, nesting)?;
        let place = level.index();
        self.requests[place] = false;
        if nesting {
            self.service[place] = true;
        }
        Some(level)
    }
}

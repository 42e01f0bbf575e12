// What the timers that step from 1 to 0 do to the levels.
ghost use Rattle.std.specs.Prelude.{◌≡◌, true};
ghost use Rattle.muart.specs.Firing.{modes_of, biti_of, asks as asked, fired_mask, recorded, heeded as is_heeded, watched as timers_watched};
ghost use Rattle.muart.specs.State.{with_mask};

use crate::state::StandIn;
use bits::bit;
use levels::Level;
use timers::{DuoModes, Fired, TimerModes};

impl StandIn {
    pub fn timer_modes(&self) -> TimerModes
        ensures { result ≡ modes_of self.now.rest.registers }
    {
        let mode = self.rest.registers.mode;
        TimerModes {
            even: DuoModes {
                joined: bit(mode, 6),
                counts_edges: bit(mode, 3),
            },
            odd: DuoModes {
                joined: bit(mode, 7),
                counts_edges: bit(mode, 4),
            },
            t5c: bit(mode, 5),
        }
    }

    // With BITI level 1 is a rise of P17, and not timer 2.
    pub(crate) fn biti(&self) -> bool
        ensures { result ≡ biti_of self.now.rest.registers }
    {
        bit(self.rest.registers.command1, 2)
    }

    // The level requests, if it is enabled.
    pub(crate) fn request(&mut self, level: Level)
        ensures { self.new ≡ asked true level self.old }
    {
        levels::request(&mut self.sensitive.levels.requests, &self.rest.mask, level);
    }

    // Each timer that fired requests its level. Under T5C the request of timer 5, or of its pair, disables its own level.
    pub fn record_fired(&mut self, fired: Fired)
        ensures { self.new ≡ recorded fired self.old }
    {
        if fired.one {
            self.request(Level::new(0));
        }
        if fired.two && !self.biti() {
            self.request(Level::new(1));
        }
        if fired.three {
            self.request(Level::new(3));
        }
        if fired.four {
            self.request(Level::new(6));
        }
        if fired.five {
            self.request(Level::new(7));
        }
        self.disable_own(fired);
    }

    // The level of timer 5, or of its pair, under T5C.
    fn disable_own(&mut self, fired: Fired)
        ensures { self.new ≡ with_mask (fired_mask self.old.rest.registers fired self.old.rest.mask) self.old }
    {
        let modes = self.timer_modes();
        let (level, fires) = if modes.odd.joined {
            (3, fired.three)
        } else {
            (7, fired.five)
        };
        if modes.t5c && fires {
            levels::clear(&mut self.rest.mask, Level::new(level));
        }
    }

    // Whether the level's request would be new, or would disable the level.
    fn heeded(&self, level: Level, disabling: bool) -> bool
        ensures { result ≡ is_heeded disabling level self.now.rest.mask self.now.sensitive.levels.requests }
    {
        self.rest.mask[level.index()]
            && (disabling || !self.sensitive.levels.requests[level.index()])
    }

    // The timers whose firing would change the requests or the mask.
    pub fn watched(&self) -> Fired
        ensures { result ≡ timers_watched self.now.rest.registers self.now.rest.mask self.now.sensitive.levels.requests }
    {
        let modes = self.timer_modes();
        let biti = self.biti();
        Fired {
            one: self.heeded(Level::new(0), false),
            two: !biti && self.heeded(Level::new(1), false),
            three: self.heeded(Level::new(3), modes.t5c && modes.odd.joined),
            four: self.heeded(Level::new(6), false),
            five: self.heeded(Level::new(7), modes.t5c && !modes.odd.joined),
        }
    }
}

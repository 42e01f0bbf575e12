// The five timers of the part.
ghost use Rattle.std.specs.Prelude.{◌≡◌, ℕ, ◌<◌, true, false};
ghost use Rattle.timing.specs.Run.{times};
ghost use Rattle.timers.specs.Counts.{far};
ghost use Rattle.timers.specs.Stepping.{stepped, firing, all_lapsed, quiet_for, Quiet, heard, modes_at, edge_counted, edge_firing, no_timer};
ghost use Rattle.timers.specs.Access.{cleared_timers, count_of, written, triggered, selected, counts_of};

use crate::count::Count;
use crate::duo::{Duo, Units};
use crate::modes::{Fired, Number, Side, TimerModes};
use crate::timer::Timer;

#[derive(Clone, Copy, Default)]
pub struct Timers {
    pub one: Timer,
    // Timers 2 and 4.
    pub even: Duo,
    // Timers 3 and 5.
    pub odd: Duo,
    pub trigger: Trigger,
}

// What the trigger mode keeps: the byte that timer 5 starts from, and whether it still rests.
#[derive(Clone, Copy, Default)]
pub struct Trigger {
    pub save: u8,
    pub resting: bool,
}

impl Timers {
    pub fn new() -> Timers
        ensures { result ≡ cleared_timers }
    {
        Timers::default()
    }

    // One step of the timer clock; the timers that go from 1 to 0.
    pub fn step(&mut self, modes: TimerModes) -> Fired
        ensures tells { result ≡ firing modes self.old }
        ensures state { self.new ≡ stepped modes self.old }
    {
        let drive = modes.odd.clock(self.trigger.resting);
        let one = self.one.count.step();
        let even = self.even.step(modes.even.clock(false));
        let odd = self.odd.step(drive);
        Fired::new(one, even, odd)
    }

    // n steps of the timer clock at once.
    #[tactic(auto, using(crate::proofs::Steps::times_stepped))]
    pub fn skip(&mut self, n: u64, modes: TimerModes)
        ensures state { self.new ≡ times n (stepped modes) self.old }
        ensures modulo { self.new ≡ all_lapsed modes n self.old }
    {
        let drive = modes.odd.clock(self.trigger.resting);
        self.one.count.skip(n);
        self.even.skip(n, modes.even.clock(false));
        self.odd.skip(n, drive);
    }

    // The steps before the one in which a watched timer requests, or `FAR` where none does.
    pub fn horizon(&self, modes: TimerModes, watched: Fired) -> u64
        ensures value { result ≡ quiet_for modes watched self.now }
        ensures quiet { (k : ℕ) → k < result → Quiet (firing modes (times k (stepped modes) self.now)) watched }
        ensures ends { result < far → heard (firing modes (times result (stepped modes) self.now)) watched ≡ true }
    {
        let one = self.one.count.wait(true, watched.one);
        let even = self
            .even
            .wait(modes.even.clock(false), watched.even_units());
        let drive = modes.odd.clock(self.trigger.resting);
        let odd = self.odd.wait(drive, watched.odd_units());
        one.min(even.min(odd))
    }

    // A rise of P12 (timer 2) or P13 (timer 3). Under CT2 or CT3 it steps that timer or, if joined, its pair, unless the pair rests.
    // Tells the timers that go from 1 to 0.
    pub fn count_edge(&mut self, side: Side, modes: TimerModes) -> Fired
        ensures tells { result ≡ edge_firing side modes self.old }
        ensures state { self.new ≡ edge_counted side modes self.old }
        ensures idle { (modes_at side modes).counts_edges ≡ false → (self.new ≡ self.old) × (result ≡ no_timer) }
    {
        match side {
            Side::Even => {
                let even = self.even.step(modes.even.edge(false));
                Fired::new(false, even, Units::default())
            }
            Side::Odd => {
                let odd = self.odd.step(modes.odd.edge(self.trigger.resting));
                Fired::new(false, Units::default(), odd)
            }
        }
    }

    // A fall of P15. Under T5C timer 5 takes the saved byte, its pair's low timer 255, and the rest ends. A load is no step: nothing
    // requests.
    pub fn trigger(&mut self, modes: TimerModes)
        ensures { self.new ≡ triggered modes self.old }
    {
        if modes.t5c {
            if modes.odd.joined {
                self.odd.low.count = 255;
            }
            self.odd.high.count = self.trigger.save;
            self.trigger.resting = false;
        }
    }

    // A byte written to a timer. Under T5C a byte for timer 5 is saved for the trigger.
    pub fn write(&mut self, which: Number, byte: u8, t5c: bool)
        ensures { self.new ≡ written which byte t5c self.old }
    {
        match which {
            Number::One => self.one.count = byte,
            Number::Two => self.even.low.count = byte,
            Number::Three => self.odd.low.count = byte,
            Number::Four => self.even.high.count = byte,
            Number::Five if t5c => self.trigger.save = byte,
            Number::Five => self.odd.high.count = byte,
        }
    }

    // Matches like `write`, and is no plainer joined to it: a place lent to write in would not serve a read, and under T5C timer 5 has two.
    pub fn read(&self, which: Number) -> u8
        ensures { result ≡ count_of which self.now }
    {
        match which {
            Number::One => self.one.count,
            Number::Two => self.even.low.count,
            Number::Three => self.odd.low.count,
            Number::Four => self.even.high.count,
            Number::Five => self.odd.high.count,
        }
    }

    // A write of the mode, with T5C before and after it: turned on it starts the rest, left on it keeps it, off it ends it.
    pub fn select(&mut self, before: bool, after: bool)
        ensures { self.new ≡ selected before after self.old }
    {
        self.trigger.resting = after && (!before || self.trigger.resting);
    }

    // The counts of the timers 1 to 5.
    pub fn snapshot(&self) -> [u8; 5]
        ensures { result ≡ counts_of self.now }
    {
        [
            self.read(Number::One),
            self.read(Number::Two),
            self.read(Number::Three),
            self.read(Number::Four),
            self.read(Number::Five),
        ]
    }
}

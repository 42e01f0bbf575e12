// Two timers that may be joined into one of 16 bits.
ghost use Rattle.std.specs.Prelude.{◌≡◌, ℕ, ◌<◌, true, ◌&&◌};
ghost use Rattle.timing.specs.Run.{times, when};
ghost use Rattle.timers.specs.Counts.{far, fires};
ghost use Rattle.timers.specs.Duos.{driven, value_of, parted, pair_ticked, pair_lapsed, duo_stepped, duo_lapsed, duo_fired, duo_wait, DuoQuiet, duo_heard};

use crate::count::Count;
use crate::timer::Timer;

#[derive(Clone, Copy, Default)]
pub struct Duo {
    pub low: Timer,
    pub high: Timer,
}

// What a step does to a duo: each timer steps or not on its own, or the two as one counter.
#[derive(Clone, Copy)]
pub(crate) enum Drive {
    Apart { low: bool, high: bool },
    Joined { on: bool },
}

// A set of a duo's units: each timer alone, and the two as a pair.
#[derive(Clone, Copy, Default)]
pub(crate) struct Units {
    pub low: bool,
    pub high: bool,
    pub pair: bool,
}

impl Drive {
    pub(crate) fn new(joined: bool, low: bool, high: bool) -> Drive
        ensures { result ≡ driven joined low high }
    {
        if joined {
            Drive::Joined { on: low && high }
        } else {
            Drive::Apart { low, high }
        }
    }
}

impl Duo {
    // The joined count. Casts, as `u16::from` and `from_be_bytes` leave the proof without the fact that each byte is below 256.
    fn value(&self) -> u16
        ensures joined { result ≡ value_of self.now }
        ensures bytes { (self.now.low.count < 256) × (self.now.high.count < 256) }
    {
        self.high.count as u16 * 256 + self.low.count as u16
    }

    // Its inverse. No `From`, which is no plainer: only this file joins and parts.
    fn parted(value: u16) -> Duo
        ensures { result ≡ parted value }
    {
        Duo {
            low: Timer {
                count: (value % 256) as u8,
            },
            high: Timer {
                count: (value / 256) as u8,
            },
        }
    }

    // One step; the units that go from 1 to 0.
    pub(crate) fn step(&mut self, drive: Drive) -> Units
        ensures tells { result ≡ duo_fired drive self.old }
        ensures state { self.new ≡ duo_stepped drive self.old }
    {
        match drive {
            Drive::Apart { low, high } => Units {
                low: low && self.low.count.step(),
                high: high && self.high.count.step(),
                pair: false,
            },
            Drive::Joined { on } => {
                let mut value = self.value();
                let pair = on && value.step();
                *self = Duo::parted(value);
                Units {
                    pair,
                    ..Units::default()
                }
            }
        }
    }

    // n steps at once.
    #[tactic(auto, using(crate::proofs::Laps::apart_at_once, crate::proofs::Laps::joined_on, crate::proofs::Laps::joined_off))]
    pub(crate) fn skip(&mut self, n: u64, drive: Drive)
        ensures state { self.new ≡ times n (duo_stepped drive) self.old }
        ensures modulo { self.new ≡ duo_lapsed drive n self.old }
    {
        match drive {
            Drive::Apart { low, high } => {
                if low {
                    self.low.count.skip(n);
                }
                if high {
                    self.high.count.skip(n);
                }
            }
            Drive::Joined { on: true } => {
                let mut value = self.value();
                value.skip(n);
                *self = Duo::parted(value);
            }
            Drive::Joined { on: false } => {}
        }
    }

    // The steps before the one in which a watched unit requests, or `FAR` where none does.
    pub(crate) fn wait(&self, drive: Drive, watched: Units) -> u64
        ensures value { result ≡ duo_wait drive watched self.now }
        ensures quiet { (k : ℕ) → k < result → DuoQuiet (duo_fired drive (times k (duo_stepped drive) self.now)) watched }
        ensures ends { result < far → duo_heard (duo_fired drive (times result (duo_stepped drive) self.now)) watched ≡ true }
    {
        match drive {
            Drive::Apart { low, high } => {
                let first = self.low.count.wait(low, watched.low);
                first.min(self.high.count.wait(high, watched.high))
            }
            Drive::Joined { on } => self.value().wait(on, watched.pair),
        }
    }
}

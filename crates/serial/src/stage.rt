//! The stages of a frame, one enum for what is sent and what is received.
ghost use Rattle.std.specs.Prelude.{◌≡◌, ℕ, ◌-◌};
ghost use Rattle.serial.specs.Stages.{quiet_in, lessened_in};

use crate::rate::FAR;

/// A frame in one of its stages, which lasts so many ticks more.
pub(crate) trait Lasting: Copy {
    ghost ticks_left: { Self → ℕ };

    ghost with_left: { ℕ → Self → Self };

    fn left(self) -> u32
        ensures { result ≡ ticks_left self };

    fn lasting(self, left: u32) -> Self
        ensures { result ≡ with_left left self };

    fn less(self, ticks: u32) -> Self
        ensures { result ≡ with_left (ticks_left self - ticks) self }
    {
        self.lasting(self.left().saturating_sub(ticks))
    }

    ghost left_is_set: { (n : ℕ) (f : Self) → ticks_left (with_left n f) ≡ n };
}

/// Which part of its frame a transmitter or a receiver is in.
#[derive(Clone, Copy, Default)]
pub enum Stage<F> {
    #[default]
    Idle,
    Start(F),
    /// The data bit at this place, the lowest at 0.
    Data(F, u8),
    Parity(F),
    Stop(F),
}

impl<F: Lasting> Stage<F> {
    /// How many ticks pass with nothing but counting: all of a stage's but its last, and `FAR` where nothing is under way.
    pub(crate) fn horizon(&self) -> u64
        ensures { result ≡ quiet_in F.ticks_left self.now }
    {
        match *self {
            Stage::Idle => FAR,
            Stage::Start(frame)
            | Stage::Data(frame, _)
            | Stage::Parity(frame)
            | Stage::Stop(frame) => u64::from(frame.left().saturating_sub(1)),
        }
    }

    /// The stage after as many ticks, of which none is its last.
    pub(crate) fn lessened(self, ticks: u32) -> Stage<F>
        ensures { result ≡ lessened_in F.ticks_left F.with_left ticks self }
    {
        match self {
            Stage::Idle => Stage::Idle,
            Stage::Start(frame) => Stage::Start(frame.less(ticks)),
            Stage::Data(frame, place) => Stage::Data(frame.less(ticks), place),
            Stage::Parity(frame) => Stage::Parity(frame.less(ticks)),
            Stage::Stop(frame) => Stage::Stop(frame.less(ticks)),
        }
    }
}

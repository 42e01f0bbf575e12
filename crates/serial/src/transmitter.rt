//! The transmitter: a buffer of one character, and the phase of the frame on the line.
ghost use Rattle.std.specs.Prelude.{◌≡◌, ℕ, ◌-◌, ◌<◌, ◌≤◌, Bool, not, ◌&&◌, is_some, refl};
ghost use Rattle.serial.specs.Forms.{SoundForm};
ghost use Rattle.serial.specs.Laws.{Sends};
ghost use Rattle.timing.specs.Run.{times};
ghost use Rattle.serial.specs.Sending.{SoundSending, SoundPhase, SoundTransmitter, begun, ending, fresh, idle, lasting, level, offered, passed, past_bit, past_data, quiet_ticks, released, stopping, ticked, written};

use crate::form::Form;
use crate::stage::{Lasting, Stage};
use bits::bit;
use std::marker::Model;

/// A frame under way: the form it began with, its character, and the ticks left in its phase.
#[derive(Clone, Copy)]
pub struct Sending {
    pub form: Form,
    pub character: u8,
    pub left: u32,
}

#[derive(Clone, Copy, Default)]
pub struct Transmitter {
    pub buffer: Option<u8>,
    pub phase: Stage<Sending>,
}

impl Model for Transmitter {
    ghost use Rattle.serial.specs.TransmitterViews.{TransmitterView};

    ghost Value = { TransmitterView };

    ghost use Rattle.serial.specs.Sending.{SoundTransmitter};

    ghost view = { λ t. record { buffer = t.buffer; phase = t.phase } };

    ghost invariant = { λ t. SoundTransmitter (record { buffer = t.buffer; phase = t.phase }) };

    ghost inverse = { λ v. record { buffer = v.buffer; phase = v.phase } };
}

impl Lasting for Sending {
    ghost ticks_left = { λ s. s.left };

    ghost with_left = { lasting };

    ghost left_is_set = { λ n s. refl };

    fn left(self) -> u32 {
        self.left
    }

    fn lasting(self, left: u32) -> Sending {
        Sending { left, ..self }
    }
}

// A struct of `form` and `cts`, which `write`, `tick` and `offer` take together, is no plainer: callers read the two from
// different places.
impl Transmitter {
    pub fn new() -> Transmitter
        ensures { result ≡ fresh }
    {
        Transmitter::default()
    }

    pub fn txd(&self) -> bool
        ensures { result ≡ level self.now.phase }
    {
        match self.phase {
            Stage::Idle | Stage::Stop(_) => true,
            Stage::Start(_) => false,
            Stage::Data(sending, place) => bit(sending.character, place),
            Stage::Parity(sending) => sending.form.parity_bit(sending.character),
        }
    }

    /// Transmit buffer empty.
    pub fn tbe(&self) -> bool
        ensures { result ≡ not (is_some self.now.buffer) }
    {
        self.buffer.is_none()
    }

    /// Transmit register empty: nothing is being sent.
    pub fn tre(&self) -> bool
        ensures { result ≡ idle self.now.phase }
    {
        matches!(self.phase, Stage::Idle)
    }

    /// Fills the buffer, and loads it if nothing is being sent and CTS is low. Tells whether level 5 is requested.
    pub fn write(&mut self, character: u8, form: Form, cts: bool) -> bool
        ensures value { result ≡ (idle self.old.phase && not cts) }
        ensures after { self.new ≡ written character form cts self.old }
    {
        self.buffer = Some(character);
        self.tre() && self.offer(form, cts)
    }

    /// CTS fell: loads what waits, if nothing is being sent. Tells whether level 5 is requested.
    pub fn release(&mut self, form: Form) -> bool
        ensures value { result ≡ (idle self.old.phase && is_some self.old.buffer) }
        ensures after { self.new ≡ released form self.old }
    {
        self.tre() && self.offer(form, false)
    }

    /// One rate tick; a character that loads at the frame's last tick takes `form`. Tells whether level 5 is requested.
    #[tactic(auto, using(crate::proofs::Sent::sends))]
    pub fn tick(&mut self, form: Form, cts: bool) -> bool
        ensures value { result ≡ ending self.old.phase }
        ensures after { self.new ≡ ticked form cts self.old }
        ensures sends { (f : Form) (c : ℕ) → SoundForm f → Sends f c }
    {
        let ends = self.phase.is_ending();
        if ends {
            self.offer(form, cts);
        } else {
            self.phase = self.phase.passed();
        }
        ends
    }

    /// Lets as many ticks pass at once, in which nothing but counting happens.
    #[tactic(auto, using(crate::proofs::Quiet::lessens))]
    pub fn skip(&mut self, ticks: u64)
        requires quiet { ticks ≤ quiet_ticks self.old.phase }
        ensures after { (form : Form) (cts : Bool) → self.new ≡ times ticks (ticked form cts) self.old }
    {
        self.phase = self.phase.lessened(ticks as u32);
    }

    /// How many ticks pass with nothing but counting; while nothing is being sent, the cap of every horizon.
    pub fn horizon(&self) -> u64
        ensures value { result ≡ quiet_ticks self.now.phase }
        ensures sound { SoundTransmitter self.now }
    {
        self.phase.horizon()
    }

    // At a frame's last tick, or with nothing being sent: a full buffer loads if CTS is low, else the transmitter is idle. Tells
    // whether it loaded.
    fn offer(&mut self, form: Form, cts: bool) -> bool
        ensures value { result ≡ (is_some self.old.buffer && not cts) }
        ensures after { self.new ≡ offered form cts self.old.buffer }
    {
        match self.buffer {
            Some(character) if !cts => {
                self.buffer = None;
                self.phase = Stage::begun(form, character);
                true
            }
            _ => {
                self.phase = Stage::Idle;
                false
            }
        }
    }
}

// These private functions ask for the bounds of a phase themselves; a `Transmitter` keeps them for its callers. A phase is an enum,
// which has no model. A model of the frame in it, `Sending`, would owe at least one tick left in each step that sets the ticks
// (`Lasting::lasting`, `less`). A struct round each stage is no plainer.
impl Stage<Sending> {
    fn begun(form: Form, character: u8) -> Stage<Sending>
        ensures value { result ≡ begun form character }
        ensures kept { SoundPhase result }
    {
        Stage::Start(Sending {
            form,
            character: form.masked(character),
            left: form.ticks(),
        })
    }

    // Whether the next tick is the frame's last.
    fn is_ending(self) -> bool
        ensures { result ≡ ending self }
    {
        matches!(self, Stage::Stop(sending) if sending.left <= 1)
    }

    // One tick that is not a frame's last.
    fn passed(self) -> Stage<Sending>
        requires { SoundPhase self }
        ensures value { result ≡ passed self }
        ensures kept { SoundPhase result }
    {
        if self.horizon() > 0 {
            return self.lessened(1);
        }
        match self {
            Stage::Start(sending) => Stage::Data(sending.bit_long(), 0),
            Stage::Data(sending, place) => sending.past_bit(place),
            Stage::Parity(sending) => sending.stopping(),
            Stage::Idle | Stage::Stop(_) => Stage::Idle,
        }
    }
}

impl Sending {
    // The place comes from a stage, which holds a number: a `Place` there is no plainer, since the character's length bounds it too.
    fn past_bit(self, place: u8) -> Stage<Sending>
        requires { place < 8 }
        ensures value { result ≡ past_bit self place }
        ensures kept { SoundPhase result }
    {
        if place + 1 < self.form.length() {
            Stage::Data(self.bit_long(), place + 1)
        } else {
            self.past_data()
        }
    }

    fn past_data(self) -> Stage<Sending>
        ensures value { result ≡ past_data self }
        ensures kept { SoundPhase result }
    {
        if self.form.has_parity() {
            Stage::Parity(self.bit_long())
        } else {
            self.stopping()
        }
    }

    fn stopping(self) -> Stage<Sending>
        ensures value { result ≡ stopping self }
        ensures kept { SoundPhase result }
    {
        Stage::Stop(self.lasting(self.form.stop_ticks()))
    }

    fn bit_long(self) -> Sending
        ensures value { result ≡ lasting self.form.ticks self }
        ensures kept { SoundSending result }
    {
        self.lasting(self.form.ticks())
    }
}

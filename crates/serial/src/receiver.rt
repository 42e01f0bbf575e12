//! The receiver: what it has gathered of a frame, and the ticks to its next sample.
ghost use Rattle.std.specs.Prelude.{◌≡◌, ℕ, ◌+◌, ◌-◌, ◌<◌, ◌≤◌, Bool, None as Nothing, refl};
ghost use Rattle.serial.specs.Forms.{SoundForm};
ghost use Rattle.serial.specs.Laws.{Carries, Receives, Returns};
ghost use Rattle.serial.specs.Lines.{after as after_ticks, tells};
ghost use Rattle.serial.specs.Receiving.{SoundReceiving, SoundReceiver, begun, lasting, with_bit, with_parity, past_bit, past_data, past_start, heard, received, outcome, quiet_ticks};

use crate::form::Form;
use crate::stage::{Lasting, Stage};
use bits::weight;
use std::marker::Model;

/// A frame being received: its form, the data bits gathered so far, the parity bit once sampled, and the ticks to the next sample.
#[derive(Clone, Copy)]
pub struct Receiving {
    pub form: Form,
    pub character: u8,
    pub parity: bool,
    pub left: u32,
}

/// The stage tells what the next sample will be.
#[derive(Clone, Copy, Default)]
pub struct Receiver {
    pub state: Stage<Receiving>,
}

impl Model for Receiver {
    ghost use Rattle.serial.specs.declared.stage.Stage.{Stage};
    ghost use Rattle.serial.specs.declared.receiver.Receiving.{Receiving};

    ghost Value = { Stage Receiving };

    ghost use Rattle.serial.specs.Receiving.{SoundReceiver};

    ghost view = { λ r. r.state };

    ghost invariant = { λ r. SoundReceiver r.state };

    ghost inverse = { λ s. record { state = s } };
}

/// What happens to a receiver.
#[derive(Clone, Copy)]
pub enum Event {
    /// RxD fell, with the form that commands give now.
    Fall(Form),
    /// A rate tick, with the level of RxD.
    Tick(bool),
}

/// What a frame came to.
#[derive(Clone, Copy)]
pub enum Reception {
    Break,
    Character {
        character: u8,
        parity_error: bool,
        framing_error: bool,
    },
}

// Like the impl for `Sending`: a `macro_rules!` of this repository may write no impl.
impl Lasting for Receiving {
    ghost ticks_left = { λ r. r.left };

    ghost with_left = { lasting };

    ghost left_is_set = { λ n r. refl };

    fn left(self) -> u32 {
        self.left
    }

    fn lasting(self, left: u32) -> Receiving {
        Receiving { left, ..self }
    }
}

impl Receiver {
    pub fn new() -> Receiver
        ensures { result ≡ Stage.Idle }
    {
        Receiver::default()
    }

    /// Takes an edge or a tick, and tells what was received with it.
    #[tactic(auto, using(crate::proofs::Carried::carries, crate::proofs::Received::receives, crate::proofs::Returned::returned))]
    pub fn on(&mut self, event: Event) -> Option<Reception>
        ensures value { result ≡ received event self.old }
        ensures after { self.new ≡ heard event self.old }
        ensures receives { (f : Form) (w : ℕ → Bool) → SoundForm f → Receives f w }
        ensures returns { (f : Form) (c : ℕ) → Returns f c }
        ensures carries { (f : Form) (c : ℕ) → SoundForm f → Carries f c }
    {
        let counts = self.state.horizon() > 0;
        match (self.state, event) {
            (Stage::Idle, Event::Fall(form)) => self.state = Stage::Start(Receiving::begun(form)),
            (Stage::Idle, Event::Tick(_)) | (_, Event::Fall(_)) => {}
            (state, Event::Tick(_)) if counts => self.state = state.lessened(1),
            (Stage::Start(receiving), Event::Tick(rxd)) => self.state = receiving.past_start(rxd),
            (Stage::Data(receiving, place), Event::Tick(rxd)) => {
                self.state = receiving.with_bit(place, rxd).past_bit(place);
            }
            (Stage::Parity(receiving), Event::Tick(rxd)) => {
                self.state = Stage::Stop(receiving.with_parity(rxd));
            }
            (Stage::Stop(receiving), Event::Tick(rxd)) => {
                self.state = Stage::Idle;
                return Some(receiving.outcome(rxd));
            }
        }
        None
    }

    /// The receiver is turned off: what it has gathered is lost.
    pub fn disable(&mut self)
        ensures { self.new ≡ Stage.Idle }
    {
        *self = Receiver::new();
    }

    /// Lets as many ticks pass at once, in which no sample falls.
    #[tactic(auto, using(crate::proofs::Heard::quiet_after, crate::proofs::Heard::quiet_silence))]
    pub fn skip(&mut self, ticks: u64)
        requires quiet { ticks ≤ quiet_ticks self.old }
        ensures after { (w : ℕ → Bool) → self.new ≡ after_ticks w ticks self.old }
        ensures silent { (w : ℕ → Bool) (k : ℕ) → k ≤ ticks → tells w k self.old ≡ Nothing }
    {
        self.state = self.state.lessened(ticks as u32);
    }

    /// How many ticks pass before the one that samples; while it is idle, the cap of every horizon.
    pub fn horizon(&self) -> u64
        ensures value { result ≡ quiet_ticks self.now }
        ensures sound { SoundReceiver self.now }
    {
        self.state.horizon()
    }
}

// How much is gathered depends on the stage. These private functions ask for it themselves; a `Receiver` keeps it for its callers.
// A stage is an enum, which has no model. A model of the frame in it, `Receiving`, would owe at least one tick left in each step
// that sets the ticks (`Lasting::lasting`, `less`). A struct round each stage is no plainer.
impl Receiving {
    fn begun(form: Form) -> Receiving
        ensures value { result ≡ begun form }
        ensures kept { SoundReceiving result 0 }
    {
        Receiving {
            form,
            character: 0,
            parity: false,
            left: form.ticks() / 2,
        }
    }

    fn past_start(self, rxd: bool) -> Stage<Receiving>
        requires { SoundReceiving self 0 }
        ensures value { result ≡ past_start self rxd }
        ensures kept { SoundReceiver result }
    {
        if rxd {
            Stage::Idle
        } else {
            Stage::Data(self.lasting(self.form.ticks()), 0)
        }
    }

    // The place, here and in `past_bit`, comes from a stage, which holds a number: a `Place` is no plainer, since the character's
    // length bounds it too.
    #[tactic(auto, using(crate::proofs::Gathered::one_more))]
    fn with_bit(self, place: u8, rxd: bool) -> Receiving
        requires sound { SoundReceiving self place }
        requires place { place < self.form.length }
        ensures value { result ≡ with_bit place rxd self }
        ensures kept { SoundReceiving result (place + 1) }
    {
        Receiving {
            character: self.character + weight(place, rxd),
            left: self.form.ticks(),
            ..self
        }
    }

    fn with_parity(self, rxd: bool) -> Receiving
        ensures { result ≡ with_parity rxd self }
    {
        Receiving {
            parity: rxd,
            left: self.form.ticks(),
            ..self
        }
    }

    // The place as in `with_bit`. One text with the sender's is no plainer: a sender sets its ticks at each of these steps, a receiver
    // keeps those of its sample.
    fn past_bit(self, place: u8) -> Stage<Receiving>
        requires sound { SoundReceiving self (place + 1) }
        requires place { place < self.form.length }
        ensures value { result ≡ past_bit self place }
        ensures kept { SoundReceiver result }
    {
        if place + 1 < self.form.length() {
            Stage::Data(self, place + 1)
        } else {
            self.past_data()
        }
    }

    fn past_data(self) -> Stage<Receiving>
        requires { SoundReceiving self self.form.length }
        ensures value { result ≡ past_data self }
        ensures kept { SoundReceiver result }
    {
        if self.form.has_parity() {
            Stage::Parity(self)
        } else {
            Stage::Stop(self)
        }
    }

    fn outcome(self, stop: bool) -> Reception
        ensures { result ≡ outcome self.form self.character self.parity stop }
    {
        if self.character == 0 && !self.parity && !stop {
            Reception::Break
        } else {
            Reception::Character {
                character: self.character,
                parity_error: self.parity != self.form.parity_bit(self.character),
                framing_error: !stop,
            }
        }
    }
}

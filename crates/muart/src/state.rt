// What the stand-in holds.
ghost use Rattle.muart.specs.Bounds.{Sound};

use levels::{Level, Pending};
use registers::held::{Pins, Registers};
use serial::receiver::Receiver;
use serial::transmitter::Transmitter;
use std::marker::Model;
use timers::Timers;
use timing::Accumulator;

// The prescaler counts system clocks, the step divider internal clocks; the remainder is what the baud rate left over.
#[derive(Clone, Copy, Default)]
pub struct Dividers {
    pub prescaler: Accumulator,
    pub steps: Accumulator,
    pub remainder: Accumulator,
}

// The serial side. `received` is the receive buffer; the level of RxD survives a reset.
#[derive(Clone, Copy)]
pub struct Serial {
    pub transmitter: Transmitter,
    pub receiver: Receiver,
    pub received: u8,
    pub rxd: bool,
}

// The receiver's five flags: receive buffer full, break detected, parity error, overrun error, framing error.
#[derive(Clone, Copy, Default)]
pub struct Flags {
    pub rbf: bool,
    pub bd: bool,
    pub pe: bool,
    pub oe: bool,
    pub fe: bool,
}

// All that reading a register may change.
#[derive(Clone, Copy)]
pub struct Sensitive {
    pub levels: Pending,
    pub flags: Flags,
}

// All that reading a register leaves as it is. `begun` is the level of an acknowledge whose second pulse is to come.
#[derive(Clone, Copy)]
pub struct Rest {
    pub registers: Registers,
    pub pins: Pins,
    pub mask: [bool; 8],
    pub begun: Option<Level>,
    pub timers: Timers,
    pub dividers: Dividers,
    pub serial: Serial,
}

#[derive(Clone, Copy)]
pub struct StandIn {
    pub rest: Rest,
    pub sensitive: Sensitive,
}

impl Model for StandIn {
    ghost use Rattle.muart.specs.Parts.{Parts};

    ghost Value = { Parts };

    ghost use Rattle.muart.specs.Bounds.{SoundDividers};

    ghost view = { λ a. record { rest = a.rest; sensitive = a.sensitive } };

    ghost invariant = { λ a. SoundDividers (record { rest = a.rest; sensitive = a.sensitive }) };

    ghost inverse = { λ v. record { rest = v.rest; sensitive = v.sensitive } };
}

impl StandIn {
    // A caller learns here what holds of every stand-in: the transmitter, the receiver and a begun level each tell what they keep.
    pub fn bounds(&self)
        ensures { Sound self.now }
    {
        let _ = self.rest.serial.transmitter.horizon();
        let _ = self.rest.serial.receiver.horizon();
        if let Some(level) = &self.rest.begun {
            let _ = level.number();
        }
    }
}

// The pins: their directions and levels.
ghost use Rattle.std.specs.Prelude.{◌≡◌};
ghost use Rattle.registers.specs.Ports.{used_as_input, is_output, outside, set_outside, latch_at, level_at, pin_at, port_byte};

use crate::held::{Pins, Registers};
use bits::{Place, bit, byte_of};
use refusals::Refusal;
use std::array;

// A pin of port 1 or 2 by its place, or one of the two others that have a code. Calls take it by reference: a `Copy` enum
// that holds a type with a model is not copied when it is passed by value twice.
#[derive(Clone, Copy)]
pub enum Pin {
    Port1(Place),
    Port2(Place),
    Cts,
    Extint,
}

// A port of eight pins.
#[derive(Clone, Copy)]
pub enum Port {
    One,
    Two,
}

impl TryFrom<u8> for Pin {
    ghost use Rattle.std.specs.Prelude.{◌≡◌};
    ghost use Rattle.std.specs.Option.{ok_or};
    ghost use Rattle.refusals.specs.declared.refusal.Refusal.TheVariants.{NoSuchPin};
    ghost use Rattle.registers.specs.Ports.{pin_of};

    type Error = Refusal;

    ghost try_from_gives = { λ code pin. pin ≡ ok_or (pin_of code) NoSuchPin };

    fn try_from(code: u8) -> Result<Pin, Refusal> {
        match code {
            0..=7 => Ok(Pin::Port1(Place::new(code))),
            8..=15 => Ok(Pin::Port2(Place::new(code - 8))),
            16 => Ok(Pin::Cts),
            17 => Ok(Pin::Extint),
            _ => Err(Refusal::NoSuchPin),
        }
    }
}

impl Port {
    fn pin(self, place: Place) -> Pin
        ensures { result ≡ pin_at self place }
    {
        match self {
            Port::One => Pin::Port1(place),
            Port::Two => Pin::Port2(place),
        }
    }
}

impl Pins {
    // The level last set from outside. It and `set_outside` are two matches: a place lent to write in would not serve a read.
    pub fn outside_level(&self, pin: &Pin) -> bool
        ensures { result ≡ outside self.now pin.now }
    {
        match *pin {
            Pin::Port1(place) => self.port1[place.index()],
            Pin::Port2(place) => self.port2[place.index()],
            Pin::Cts => self.cts,
            Pin::Extint => self.extint,
        }
    }

    pub fn set_outside(&mut self, pin: &Pin, level: bool)
        ensures { self.new ≡ set_outside pin.now level self.old }
    {
        match *pin {
            Pin::Port1(place) => self.port1[place.index()] = level,
            Pin::Port2(place) => self.port2[place.index()] = level,
            Pin::Cts => self.cts = level,
            Pin::Extint => self.extint = level,
        }
    }
}

impl Registers {
    // P12, P13, P15 and P17 are inputs while they have another use.
    fn takes_as_input(&self, place: Place) -> bool
        ensures { result ≡ used_as_input self.now place }
    {
        match place.number() {
            2 => bit(self.mode, 3),
            3 => bit(self.mode, 4),
            5 => bit(self.mode, 5),
            7 => bit(self.command1, 2),
            _ => false,
        }
    }

    // Whether the stand-in drives the pin.
    pub fn drives(&self, pin: &Pin) -> bool
        ensures { result ≡ is_output self.now pin.now }
    {
        match *pin {
            Pin::Port1(place) => {
                bit(self.direction1, place.number()) && !self.takes_as_input(place)
            }
            Pin::Port2(place) => bit(self.mode, if place.number() < 4 { 0 } else { 1 }),
            Pin::Cts | Pin::Extint => false,
        }
    }

    fn latch(&self, pin: &Pin) -> bool
        ensures { result ≡ latch_at self.now pin.now }
    {
        match *pin {
            Pin::Port1(place) => bit(self.latch1, place.number()),
            Pin::Port2(place) => bit(self.latch2, place.number()),
            Pin::Cts | Pin::Extint => false,
        }
    }

    // Outputs read their latch, inputs the outside level.
    fn level(&self, pins: &Pins, pin: &Pin) -> bool
        ensures { result ≡ level_at self.now pins.now pin.now }
    {
        if self.drives(pin) {
            self.latch(pin)
        } else {
            pins.outside_level(pin)
        }
    }

    // The byte that a port reads: bit n is the level of its pin n.
    pub fn read_port(&self, pins: &Pins, port: Port) -> u8
        ensures { result ≡ port_byte self.now pins.now port }
    {
        byte_of(&array::from_fn(|place| self.level(pins, &port.pin(Place::new(place as u8)))))
    }
}

//! The form of a character on the line, as two command bytes give it.
ghost use Rattle.std.specs.Prelude.{◌≡◌};
ghost use Rattle.serial.specs.Forms.{form_of, parity_of, stops_of, SoundForm, has_parity, masked, parity_bit, stop_ticks};

use crate::rate::bit_ticks;
use std::marker::Model;

/// Whether the data and the parity bit together have an even or an odd number of ones.
#[derive(Clone, Copy)]
pub enum Parity {
    Even,
    Odd,
}

/// For how many bits the line stays high at the end.
#[derive(Clone, Copy)]
pub enum Stops {
    One,
    OneAndHalf,
    Two,
}

/// How a character is sent: `length` data bits, each bit for `ticks` rate ticks.
#[derive(Clone, Copy)]
pub struct Form {
    pub length: u8,
    pub parity: Option<Parity>,
    pub stops: Stops,
    pub ticks: u32,
}

impl Model for Form {
    ghost use Rattle.serial.specs.FormViews.{FormView};

    ghost Value = { FormView };

    ghost use Rattle.serial.specs.Forms.{SoundForm};

    ghost view = { λ f. record { length = f.length; parity = f.parity; stops = f.stops; ticks = f.ticks } };

    ghost invariant = { λ f. SoundForm (record { length = f.length; parity = f.parity; stops = f.stops; ticks = f.ticks }) };

    ghost inverse = { λ v. record { length = v.length; parity = v.parity; stops = v.stops; ticks = v.ticks } };
}

impl Form {
    /// The form that the two command words give. `of`, here and below: a `From` is no
    /// plainer, since a byte does not say which command it is.
    pub fn of(command1: u8, command2: u8) -> Form
        ensures value { result ≡ form_of command1 command2 }
        ensures sound { SoundForm result }
    {
        Form {
            length: 8 - command1 / 64,
            parity: Parity::of(command2),
            stops: Stops::of(command1),
            ticks: bit_ticks(command2),
        }
    }

    pub(crate) fn length(self) -> u8
        ensures { result ≡ self.length }
    {
        self.length
    }

    pub(crate) fn has_parity(self) -> bool
        ensures { result ≡ has_parity self.parity }
    {
        self.parity.is_some()
    }

    /// How many rate ticks a bit lasts.
    pub(crate) fn ticks(self) -> u32
        ensures value { result ≡ self.ticks }
        ensures sound { SoundForm self }
    {
        self.ticks
    }

    /// The character without the high bits that its length leaves out.
    pub(crate) fn masked(self, character: u8) -> u8
        ensures { result ≡ masked self character }
    {
        (u16::from(character) % (1 << self.length)) as u8
    }

    /// The level of the parity bit; low where the form has none.
    pub fn parity_bit(self, character: u8) -> bool
        ensures { result ≡ parity_bit self character }
    {
        let odd = self.masked(character).count_ones() % 2 == 1;
        match self.parity {
            None => false,
            Some(Parity::Even) => odd,
            Some(Parity::Odd) => !odd,
        }
    }

    /// How long the line stays high after the last bit.
    pub(crate) fn stop_ticks(self) -> u32
        ensures value { result ≡ stop_ticks self }
        ensures sound { SoundForm self }
    {
        match self.stops {
            Stops::One => self.ticks,
            Stops::OneAndHalf => self.ticks + self.ticks / 2,
            Stops::Two => 2 * self.ticks,
        }
    }
}

impl Parity {
    fn of(command2: u8) -> Option<Parity>
        ensures { result ≡ parity_of command2 }
    {
        match command2 / 64 {
            0 | 1 => None,
            2 => Some(Parity::Odd),
            _ => Some(Parity::Even),
        }
    }
}

impl Stops {
    fn of(command1: u8) -> Stops
        ensures { result ≡ stops_of command1 }
    {
        match command1 / 16 % 4 {
            0 => Stops::One,
            1 => Stops::OneAndHalf,
            _ => Stops::Two,
        }
    }
}

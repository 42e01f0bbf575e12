ghost use Rattle.std.specs.Prelude.{◌≡◌, ◌<◌};

use std::marker::Model;

/// One of eight places, 0 to 7: a bit of a byte, a pin of a port, a level in a mask.
#[derive(Clone, Copy, Debug, PartialEq, Eq)]
pub struct Place {
    number: u8,
}

impl Model for Place {
    ghost use Rattle.std.specs.Prelude.{ℕ, ◌<◌};

    ghost Value = { ℕ };

    ghost view = { λ place. place.number };

    ghost invariant = { λ place. place.number < 8 };

    ghost inverse = { λ number. record { number = number } };
}

// `number` and `index` are no `From`s: they also tell that the number is below 8.
impl Place {
    /// The place of a number below 8.
    pub fn new(number: u8) -> Place
        requires { number < 8 }
        ensures { result ≡ number }
    {
        Place { number }
    }

    /// The number, below 8.
    pub fn number(self) -> u8
        ensures value { result ≡ self }
        ensures within { result < 8 }
    {
        self.number
    }

    /// Where the place stands in an array of eight.
    pub fn index(self) -> usize
        ensures value { result ≡ self }
        ensures within { result < 8 }
    {
        usize::from(self.number)
    }
}

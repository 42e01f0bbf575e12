// Eight flags as a byte: bit n of the byte is place n of the set. Functions: neither an array nor a byte is a type of
// this crate, so an impl of `From` may not stand here.
ghost use Rattle.std.specs.Prelude.{◌≡◌};
ghost use Rattle.bits.specs.Bytes.{flags, byte};

use crate::bytes::{bit, weight};
use std::array;

/// The eight bits of a byte, lowest first.
pub fn flags_of(word: u8) -> [bool; 8]
    ensures bits { result ≡ flags word }
    ensures back { byte result ≡ word }
{
    array::from_fn(|place| bit(word, place as u8))
}

/// The byte whose bits are the flags.
pub fn byte_of(set: &[bool; 8]) -> u8
    ensures bits { result ≡ byte set.now }
    ensures back { flags result ≡ set.now }
{
    let mut byte = 0;
    for (place, on) in set.iter().enumerate() {
        byte += weight(place as u8, *on);
    }
    byte
}

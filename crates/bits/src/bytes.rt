// A bit of a byte. The place is a number, asked to be below 8: a `Place` is no plainer, since most calls give a literal.
ghost use Rattle.std.specs.Prelude.{◌≡◌, ◌/◌, ◌%◌, ◌^◌, ◌<◌, ◌==◌, if◌then◌else◌};

/// Whether the byte has a 1 at the place, the lowest being 0.
pub fn bit(byte: u8, place: u8) -> bool
    requires { place < 8 }
    ensures { result ≡ (byte / 2 ^ place % 2 == 1) }
{
    (byte >> place) % 2 == 1
}

/// What a bit at the place adds to its byte.
pub fn weight(place: u8, on: bool) -> u8
    requires { place < 8 }
    ensures { result ≡ (if on then 2 ^ place else 0) }
{
    if on { 1 << place } else { 0 }
}

// A line as it is read, byte by byte.
use std::marker::Model;

mod filling;
mod reading;

/// Holds the first `KEPT` bytes of a line; memory stays bounded however long the line is.
#[derive(Drop)]
pub struct LineBuffer<const KEPT: usize> {
    bytes: Vec<u8>,
}

// A line is seen as the bytes kept of it.
impl<const KEPT: usize> Model for LineBuffer<KEPT> {
    ghost use Rattle.std.specs.Prelude.{ℕ, ◌≤◌, List, vec_len};

    ghost Value = { List ℕ };

    ghost view = { λ line. line.bytes.items };

    ghost invariant = { λ line. vec_len line.bytes ≤ KEPT };
}

ghost use Rattle.std.specs.Prelude.{◌≤◌, length};

mod marking;
mod reading;

/// Keeps the first marks that fit the room lent to it, and counts all that were made.
// The host lends the room, of any length, so it is a slice with a count, and no `Vec`.
#[derive(Drop)]
pub struct Recorder<'a, T> {
    room: &'a mut [T],
    kept: usize,
    made: u64,
    ghost within: { kept ≤ length room.now },
    ghost counted: { kept ≤ made },
}

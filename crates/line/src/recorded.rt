ghost use Rattle.std.specs.Prelude.{◌≡◌, true};
ghost use Rattle.line.specs.Plays.{plays, tape};

mod playing;

/// A recorded line: it starts at 1 and turns over after each listed wait, of which 0 counts as 1. It never listens.
#[derive(Drop)]
pub struct Recorded {
    level: bool,
    // The clocks left of the wait under way, or nothing once the list is done.
    left: Option<u32>,
    // The waits after it.
    waits: std::vec::IntoIter<u32>,
}

impl Recorded {
    pub fn new(waits: Vec<u32>) -> Recorded
        ensures { tape result ≡ plays true waits.items }
    {
        let mut waits = waits.into_iter();
        Recorded {
            level: true,
            left: waits.next(),
            waits,
        }
    }
}

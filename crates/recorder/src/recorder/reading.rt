ghost use Rattle.std.specs.Prelude.{◌≡◌, ◌-◌, length};
ghost use Rattle.recorder.specs.Recording.{recording};

use super::Recorder;

impl<'a, T: Drop> Recorder<'a, T> {
    /// The kept marks, the first made first.
    pub fn marks(&self) -> &[T]
        ensures { result.now ≡ (recording self.now).kept }
    {
        &self.room[..self.kept]
    }

    /// How many marks were made; it stops at the largest `u64`.
    pub fn count(&self) -> u64
        ensures { result ≡ (recording self.now).count }
    {
        self.made
    }

    /// How many of the marks counted found no room.
    pub fn turned_away(&self) -> u64
        ensures { result ≡ (recording self.now).count - length (recording self.now).kept }
    {
        self.count() - self.kept as u64
    }
}

ghost use Rattle.std.specs.Prelude.{◌≡◌, ◌-◌, ◌^◌, min, List, length, take, drop};
ghost use Rattle.recorder.specs.Recording.{Extended, all_marked, empty, lent, marked, recording, slots, unused};

use super::Recorder;

impl<'a, T: Drop> Recorder<'a, T> {
    /// A recorder over the room that the host lends, with nothing recorded yet. Of all marks made from here on the first
    /// that fit are kept, and all are counted.
    #[tactic(auto, using(crate::proofs::Marks::kept_take, crate::proofs::Marks::counts_all))]
    pub fn new(room: &'a mut [T]) -> Recorder<'a, T>
        ensures view { recording result ≡ empty (length room.old) }
        ensures lent { lent result ≡ room.entry }
        ensures keeps { (made : List T) → (all_marked made (recording result)).kept ≡ take (length room.old) made }
        ensures counts { (made : List T) → (all_marked made (recording result)).count ≡ min (length made) (2 ^ 64 - 1) }
    {
        Recorder {
            room,
            kept: 0,
            made: 0,
        }
    }

    /// Makes a mark: it is counted, and kept if a slot is free. The slots past the kept marks stay untouched.
    pub fn mark(&mut self, mark: T)
        ensures view { recording self.new ≡ marked mark (recording self.old) }
        ensures unused { unused self.new ≡ drop (length (recording self.new).kept) (slots self.old) }
        ensures lent { (lent self.new).ghost_name ≡ (lent self.old).ghost_name }
        ensures room { Extended self.old self.new }
    {
        self.made = self.made.saturating_add(1);
        if self.kept < self.room.len() {
            self.room[self.kept] = mark;
            self.kept += 1;
        }
    }
}

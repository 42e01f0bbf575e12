// The mask of enabled levels: what it lets be recorded, and the words that change it.
ghost use Rattle.std.specs.Prelude.{◌≡◌, true, false, set as put, slice_index_or};
ghost use Rattle.bits.specs.Bytes.{flags};
ghost use Rattle.levels.specs.Sets.{union, minus};
ghost use Rattle.levels.specs.Levels.{request as requested, fresh};

use crate::Level;
use bits::flags_of;
use std::array;

// A request is recorded if its level is enabled; nothing changes where it is recorded already.
#[tactic(auto, using(crate::proofs::Recording::set_same))]
pub fn request(requests: &mut [bool; 8], mask: &[bool; 8], level: Level)
    ensures after { requests.new ≡ requested level mask.now requests.old }
    ensures kept { fresh true level mask.now requests.old ≡ false → requests.new ≡ requests.old }
{
    let place = level.index();
    if mask[place] {
        requests[place] = true;
    }
}

// One level is disabled, and its request stays; nothing changes where it is disabled already.
#[tactic(auto, using(crate::proofs::Recording::set_same))]
pub fn clear(mask: &mut [bool; 8], level: Level)
    ensures after { mask.new ≡ put mask.old level false }
    ensures kept { slice_index_or mask.old level false ≡ false → mask.new ≡ mask.old }
{
    mask[level.index()] = false;
}

// An enable word sets its 1 bits in the mask.
pub fn enable(mask: &mut [bool; 8], word: u8)
    ensures { mask.new ≡ union mask.old (flags word) }
{
    let chosen = flags_of(word);
    *mask = array::from_fn(|level| mask[level] || chosen[level]);
}

// A disable word clears its 1 bits in the mask and drops their requests; what is in service stays there.
pub fn disable(mask: &mut [bool; 8], requests: &mut [bool; 8], word: u8)
    ensures disabled { mask.new ≡ minus mask.old (flags word) }
    ensures dropped { requests.new ≡ minus requests.old (flags word) }
{
    let chosen = flags_of(word);
    *mask = difference(mask, &chosen);
    *requests = difference(requests, &chosen);
}

// The levels of one set that another lacks.
pub fn difference(set: &[bool; 8], other: &[bool; 8]) -> [bool; 8]
    ensures { result ≡ minus set.now other.now }
{
    array::from_fn(|level| set[level] && !other[level])
}

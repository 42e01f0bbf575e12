// Which levels request, and which one of them comes first.
ghost use Rattle.std.specs.Prelude.{◌≡◌};
ghost use Rattle.levels.specs.Sets.{lowest, below, union};
ghost use Rattle.levels.specs.Levels.{requesting as requests_of, ready as first_ready};

use crate::Level;

// Level 2 is never recorded: it requests while the pin EXTINT is high and level 2 is enabled.
pub fn requesting(recorded: &[bool; 8], mask: &[bool; 8], extint: bool) -> [bool; 8]
    ensures { result ≡ requests_of recorded.now mask.now extint }
{
    let mut requests = *recorded;
    requests[2] = extint && mask[2];
    requests
}

// The lowest requesting level that, with nesting on, is below every level in service.
pub fn ready(requesting: &[bool; 8], service: &[bool; 8], nesting: bool) -> Option<Level>
    ensures { result ≡ first_ready requesting.now service.now nesting }
{
    if nesting {
        lowest_below(requesting, service)
    } else {
        lowest_of(requesting)
    }
}

pub(crate) fn lowest_of(set: &[bool; 8]) -> Option<Level>
    ensures { result ≡ lowest set.now }
{
    set.iter()
        .position(|on| *on)
        .map(|place| Level::new(place as u8))
}

// The lowest level that requests or is in service. `|` reads both, which costs less at each place than a second branch.
fn lowest_of_either(requests: &[bool; 8], service: &[bool; 8]) -> Option<Level>
    ensures { result ≡ lowest (union requests.now service.now) }
{
    requests
        .iter()
        .zip(service)
        .position(|(request, served)| *request | *served)
        .map(|level| Level::new(level as u8))
}

// The lowest requesting level, if its number is below that of every level in service: one walk, to the first place of either.
#[tactic(auto, using(crate::proofs::Lowest::lowest_unserved))]
fn lowest_below(requests: &[bool; 8], service: &[bool; 8]) -> Option<Level>
    ensures { result ≡ lowest (below requests.now service.now) }
{
    let level = lowest_of_either(requests, service)?;
    if service[level.index()] {
        None
    } else {
        Some(level)
    }
}

// Closing levels in service. They close lowest first, so service is a stack.
ghost use Rattle.std.specs.Prelude.{◌≡◌, ◌<◌, false, replicate};
ghost use Rattle.levels.specs.Sets.{lowest, levels, ended};
ghost use Rattle.std.specs.List.{AllByRecursion};
ghost use Rattle.levels.specs.Levels.{Closed};

use crate::Level;
use crate::priority::lowest_of;
use std::mem;

// END closes the lowest level in service, if any.
pub fn end(service: &mut [bool; 8]) -> Option<Level>
    ensures closes { result ≡ lowest service.old }
    ensures after { service.new ≡ ended service.old }
    ensures stack { Closed result service.old service.new }
{
    let level = lowest_of(service)?;
    service[level.index()] = false;
    Some(level)
}

// Closes every level in service, and tells which they were.
pub fn close_all(service: &mut [bool; 8]) -> [bool; 8]
    ensures closes { result ≡ service.old }
    ensures after { service.new ≡ replicate 8 false }
    ensures within { AllByRecursion (λ l. l < 8) (levels result) }
{
    mem::replace(service, [false; 8])
}

//! The rate at which the line runs.
ghost use Rattle.std.specs.Prelude.{◌≡◌, ◌≤◌};
ghost use Rattle.serial.specs.Rates.{ticks_of, rate_step};

// The baud of each rate code; 0 never ticks.
const BAUD: [u32; 16] = [
    0, 0, 0, 19200, 9600, 4800, 2400, 1200, 600, 300, 200, 150, 110, 100, 75, 50,
];

/// How many ticks an idle part may be skipped at once, and so its horizon.
// An `Option` is no plainer: the rule of a horizon names this cap, callers take the least of several, and no skip is longer. The
// crate timers has the same cap; it is not in timing, the crate below both, which knows no horizon.
pub const FAR: u64 = 16_777_216;

/// What each internal clock adds to the rate's remainder: baud times the ticks to a bit.
pub fn rate_step(command2: u8) -> u32
    ensures value { result ≡ rate_step command2 }
    ensures bound { result ≤ 614400 }
{
    BAUD[usize::from(command2 % 16)] * bit_ticks(command2)
}

/// How many rate ticks a bit lasts.
pub(crate) fn bit_ticks(command2: u8) -> u32
    ensures { result ≡ ticks_of command2 }
{
    if command2 % 16 == 3 { 32 } else { 64 }
}

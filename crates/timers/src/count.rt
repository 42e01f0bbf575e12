// A count that each step lowers by one, and how far it is from its request.
ghost use Rattle.std.specs.Prelude.{◌≡◌, ℕ, ◌<◌, nat_le, true, false, ◌&&◌};
ghost use Rattle.std.proofs.Common.{rules};
ghost use Rattle.timing.specs.Run.{times, when};
ghost use Rattle.timers.specs.Counts.{lowered, fires, distance, fires_within, behind, wait, far};

// Longer than any count takes to request. A cap and no Option: callers take the least of it and other spans, and the horizon's law names it.
pub const FAR: u64 = 16_777_216;

// How many steps lead to the request, which is the step from 1 to 0 (from 0 a whole round): a request falls within n steps exactly if
// n is at least this many.
#[tactic(auto, using(crate::proofs::Lowering::fires_within_lem))]
pub fn until_zero(modulus: u32, count: u32) -> u32
    requires wide { 1 < modulus }
    requires below { count < modulus }
    ensures value { result ≡ distance modulus count }
    ensures passed { (n : ℕ) → fires_within modulus n count ≡ nat_le result n }
{
    if count == 0 { modulus } else { count }
}

// The steps before the request of a count, or `FAR` where the count is not heeded: the flag is part of the value, as in `wait`.
fn quiet_steps(heeded: bool, modulus: u32, count: u32) -> u64
    requires wide { 1 < modulus }
    requires below { count < modulus }
    ensures { result ≡ wait heeded modulus count }
{
    if heeded {
        u64::from(until_zero(modulus, count) - 1)
    } else {
        FAR
    }
}

// A count of some width: the 8 bits of a timer, the 16 of a joined pair.
pub(crate) trait Count: Copy {
    ghost MODULUS: { ℕ };

    ghost number: { Self → ℕ };

    const MODULUS: u32;

    fn number(self) -> u32
        ensures value { result ≡ number self }
        ensures below { number self < MODULUS };

    // n steps lower.
    fn back(self, n: u64) -> Self
        ensures value { number result ≡ behind MODULUS n (number self) }
        ensures below { number self < MODULUS };

    ghost wide: { 1 < MODULUS };

    // One step; whether it goes from 1 to 0.
    #[tactic(auto, using(crate::proofs::Lowering::one_back))]
    final fn step(&mut self) -> bool
        ensures tells { result ≡ fires (number self.old) }
        ensures state { number self.new ≡ lowered MODULUS (number self.old) }
    {
        let fired = self.number() == 1;
        *self = self.back(1);
        fired
    }

    // n steps at once.
    #[tactic(auto, using(crate::proofs::Lowering::times_lowered))]
    final fn skip(&mut self, n: u64)
        ensures state { number self.new ≡ times n (lowered MODULUS) (number self.old) }
        ensures modulo { number self.new ≡ behind MODULUS n (number self.old) }
    {
        *self = self.back(n);
    }

    // The steps before the one in which the count requests, where it is on and watched; else `FAR`. Both flags are part of the value:
    // an `if .. else { FAR }` at each call is no plainer.
    final fn wait(self, on: bool, watched: bool) -> u64
        ensures value { result ≡ wait (on && watched) MODULUS (number self) }
        ensures quiet { (k : ℕ) → k < result → ((on && fires (times k (when on (lowered MODULUS)) (number self))) && watched) ≡ false }
        ensures ends { result < far → ((on && fires (times result (when on (lowered MODULUS)) (number self))) && watched) ≡ true }
    {
        quiet_steps(on && watched, Self::MODULUS, self.number())
    }
}

// Two impls alike, one for each width: a `macro_rules!` of this repository may write no impl.
impl Count for u8 {
    ghost MODULUS = { 256 };

    ghost number = { λ c. c };

    ghost wide = { Prim.search rules };

    const MODULUS: u32 = 256;

    fn number(self) -> u32 {
        u32::from(self)
    }

    fn back(self, n: u64) -> u8 {
        self.wrapping_sub((n % 256) as u8)
    }
}

impl Count for u16 {
    ghost MODULUS = { 65536 };

    ghost number = { λ c. c };

    ghost wide = { Prim.search rules };

    const MODULUS: u32 = 65536;

    fn number(self) -> u32 {
        u32::from(self)
    }

    fn back(self, n: u64) -> u16 {
        self.wrapping_sub((n % 65536) as u16)
    }
}

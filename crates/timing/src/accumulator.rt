// A phase that each step raises and that wraps at a modulus: a divider, or the remainder of a rate.
ghost use Rattle.std.specs.Prelude.{◌≡◌, ℕ, ◌+◌, ◌*◌, ◌/◌, ◌^◌, ◌<◌, ◌≤◌};
ghost use Rattle.timing.specs.Run.{times};
ghost use Rattle.timing.specs.Accumulator.{wraps, next, turns, reached};

use std::marker::Model;

// What each step adds, and the modulus at which the sum wraps: no step wraps twice, and no sum leaves 64 bits.
#[derive(Clone, Copy)]
pub struct Ratio {
    step: u32,
    modulus: u32,
}

impl Model for Ratio {
    ghost use Rattle.std.specs.Prelude.{◌^◌, ◌≤◌};
    ghost use Rattle.timing.specs.Ratio.{Pace};

    ghost Value = { Pace };

    ghost view = { λ r. record { step = r.step; modulus = r.modulus } };

    ghost invariant = { λ r. (r.step ≤ r.modulus) × (r.modulus ≤ 2 ^ 30) };

    ghost inverse = { λ v. record { step = v.step; modulus = v.modulus } };
}

impl Ratio {
    // No step is above the modulus.
    pub fn new(step: u32, modulus: u32) -> Ratio
        requires slow { step ≤ modulus }
        requires small { modulus ≤ 2 ^ 30 }
        ensures { result ≡ record { step = step; modulus = modulus } }
    {
        Ratio { step, modulus }
    }
}

#[derive(Clone, Copy, Default)]
pub struct Accumulator {
    pub at: u32,
}

// That the phase is below the modulus stays with the calls. In the type it is no plainer: the modulus comes from a register
// outside, which is written without the phase, so the phase would keep a second modulus beside it.
impl Accumulator {
    // One step; whether it wraps.
    pub fn advance(&mut self, ratio: Ratio) -> bool
        requires below { self.old.at < ratio.modulus }
        ensures wrapped { result ≡ wraps ratio.step ratio.modulus self.old.at }
        ensures state { self.new.at ≡ next ratio.step ratio.modulus self.old.at }
        ensures bound { self.new.at < ratio.modulus }
    {
        let sum = self.at + ratio.step;
        if sum < ratio.modulus {
            self.at = sum;
            false
        } else {
            self.at = sum - ratio.modulus;
            true
        }
    }

    // n steps at once; how many of them wrap.
    #[tactic(auto, using(crate::proofs::Turns::turns_div, crate::proofs::Turns::at_mod))]
    pub fn skip(&mut self, n: u64, ratio: Ratio) -> u64
        requires below { self.old.at < ratio.modulus }
        requires few { n ≤ 2 ^ 30 }
        ensures wrapped { result ≡ turns ratio.step ratio.modulus n self.old.at }
        ensures state { self.new.at ≡ times n (next ratio.step ratio.modulus) self.old.at }
        ensures bound { self.new.at < ratio.modulus }
        ensures quotient { result ≡ (self.old.at + n * ratio.step) / ratio.modulus }
    {
        let sum = u64::from(self.at) + n * u64::from(ratio.step);
        let period = u64::from(ratio.modulus);
        self.at = (sum % period) as u32;
        sum / period
    }

    // The most steps of which at most `most` wrap.
    #[tactic(auto, using(crate::proofs::Turns::reached_within, crate::proofs::Turns::reached_beyond))]
    pub fn reach(&self, most: u64, ratio: Ratio) -> u64
        requires below { self.now.at < ratio.modulus }
        requires moving { 0 < ratio.step }
        requires few { most ≤ 2 ^ 30 }
        ensures value { result ≡ reached ratio.step ratio.modulus most self.now.at }
        ensures within { (n : ℕ) → n ≤ result → turns ratio.step ratio.modulus n self.now.at ≤ most }
        ensures beyond { turns ratio.step ratio.modulus (result + 1) self.now.at ≡ most + 1 }
    {
        ((most + 1) * u64::from(ratio.modulus) - 1 - u64::from(self.at)) / u64::from(ratio.step)
    }
}

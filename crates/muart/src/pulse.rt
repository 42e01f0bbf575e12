// Acknowledge pulses.
ghost use Rattle.std.specs.Prelude.{◌≡◌, true};
ghost use Rattle.muart.specs.Pulses.{pulse_level, pulsed, single_answer, single_level, first_answer, first_level, begins, second_answer, second_leaves};

use crate::read::take;
use crate::state::StandIn;
use levels::Level;
use refusals::Refusal;
use registers::words::Family;

// The first pulse of the 8086 family leaves this half of an acknowledge with the host. Only the second pulse
// spends it, and one that is not spent cannot be let go. A flag, under a `Drop` that asks for it: of a type without `Drop`
// the compiler, and not the prover, would refuse a half that is thrown away, and the gate can show only what the prover refuses.
pub struct Half {
    spent: bool,
}

impl Drop for Half {
    fn drop(self)
        requires { self.spent ≡ true }
    {
        let Half { spent: _ } = self;
    }
}

// The answer of a pulse, and the level that it took.
#[derive(Clone, Copy)]
pub struct Acknowledged {
    pub byte: u8,
    pub level: Level,
}

// The half that a first pulse leaves, and the level that it took.
pub struct Begun {
    pub half: Half,
    pub level: Level,
}

impl StandIn {
    // The tests of a pulse of a host of `family`, and then the taking.
    fn pulse(&mut self, family: Family) -> Result<Level, Refusal>
        ensures answer { result ≡ pulse_level family self.old }
        ensures after { self.new ≡ pulsed result self.old }
    {
        if !self.rest.registers.control.iae {
            return Err(Refusal::AcknowledgeDisabled);
        }
        if family != self.family() {
            return Err(Refusal::WrongFamily);
        }
        if !self.interrupts() {
            return Err(Refusal::InterruptLow);
        }
        if self.rest.begun.is_some() {
            return Err(Refusal::AlreadyBegun);
        }
        take(&self.rest, &mut self.sensitive).ok_or(Refusal::InterruptLow)
    }

    // The single pulse of the 8085 family.
    pub fn acknowledge(&mut self) -> Result<Acknowledged, Refusal>
        ensures tested { pulse_level Family.I8085 self.old ≡ single_level result }
        ensures answer { result ≡ single_answer (pulse_level Family.I8085 self.old) }
        ensures after { self.new ≡ pulsed (pulse_level Family.I8085 self.old) self.old }
    {
        let level = self.pulse(Family::I8085)?;
        Ok(Acknowledged {
            byte: 199 + 8 * level.number(),
            level,
        })
    }

    // The first pulse of the 8086 family.
    pub fn begin_acknowledge(&mut self) -> Result<Begun, Refusal>
        ensures tested { pulse_level Family.I8086 self.old ≡ first_level result }
        ensures answer { result ≡ first_answer (pulse_level Family.I8086 self.old) }
        ensures after { self.new ≡ begins (pulse_level Family.I8086 self.old) self.old }
    {
        let level = self.pulse(Family::I8086)?;
        self.rest.begun = Some(level);
        Ok(Begun {
            half: Half { spent: false },
            level,
        })
    }

    // The second pulse of the 8086 family. It spends the half, whatever it answers.
    pub fn finish_acknowledge(&mut self, mut half: Half) -> Result<u8, Refusal>
        ensures answer { result ≡ second_answer self.old.rest.begun }
        ensures after { self.new ≡ second_leaves self.old }
    {
        half.spent = true;
        let level = self.rest.begun.take().ok_or(Refusal::NoneBegun)?;
        Ok(64 + level.number())
    }
}

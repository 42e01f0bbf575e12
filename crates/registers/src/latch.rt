// The latched address of a bus cycle.
ghost use Rattle.std.specs.Prelude.{◌≡◌, ◌<◌, ◌≤◌, IfOk};
ghost use Rattle.registers.specs.Bus.{numbered_by, strobed};

use crate::register::Register;
use crate::words::Family;
use refusals::Refusal;

// It is moved into the one strobe that it is for, so a second strobe on it does not compile.
#[derive(Drop)]
pub struct Latched {
    address: u8,
    selected: bool,
}

impl Latched {
    pub fn new(address: u8, selected: bool) -> Latched
        ensures { result ≡ record { address = address; selected = selected } }
    {
        Latched { address, selected }
    }

    // The register that the strobe is for.
    pub fn strobe(self, family: Family) -> Result<Register, Refusal>
        ensures { result ≡ strobed self family }
    {
        if self.address > 31 {
            return Err(Refusal::AddressTooHigh);
        }
        if !self.selected {
            return Err(Refusal::NotSelected);
        }
        let number = numbered(family, self.address)?;
        // Four bits name a register in any case.
        Register::try_from(number)
    }
}

// The register number in an address, as the family reads it.
fn numbered(family: Family, address: u8) -> Result<u8, Refusal>
    ensures value { result ≡ numbered_by family address }
    ensures few { IfOk result (λ number. address ≤ 31 → number < 16) }
{
    match family {
        Family::I8085 => Ok(address % 16),
        Family::I8086 if address % 2 == 1 => Err(Refusal::NotSelected),
        Family::I8086 => Ok(address / 2),
    }
}

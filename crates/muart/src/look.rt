// Looking at registers without disturbing anything.
ghost use Rattle.std.specs.Prelude.{◌≡◌, length};
ghost use Rattle.muart.specs.Looks.{look_answer, look_writes};

use crate::read::read;
use crate::state::{Rest, Sensitive, StandIn};
use refusals::Refusal;
use registers::register::Register;

// Puts the read-sensitive record back, however the look ends.
struct Guard<'a> {
    held: &'a mut Sensitive,
    saved: Sensitive,
}

impl Drop for Guard<'_> {
    fn drop(self)
        ensures { self.exit.0.now ≡ self.entry.saved }
    {
        *self.held = self.saved;
        let Guard { held: _, saved: _ } = self;
    }
}

// Reads the listed registers in turn, as the bus would, into the front of `place`. A struct of registers and place, here and in
// the calls above, is no plainer: the one is read and the other written. It takes the two records for the reason in `read.rt`.
pub fn look(
    rest: &Rest,
    sensitive: &mut Sensitive,
    registers: &[u8],
    place: &mut [u8],
) -> Result<(), Refusal>
    ensures answer { result ≡ look_answer registers.now (length place.old) }
    ensures same { sensitive.new ≡ sensitive.old }
    ensures wrote { place.new ≡ look_writes registers.now rest.now sensitive.old place.old }
{
    if place.len() < registers.len() {
        return Err(Refusal::PlaceTooShort);
    }
    let saved = *sensitive;
    let guard = Guard {
        held: sensitive,
        saved,
    };
    // Tried without `at`, by a zip with `iter_mut`: the proof did not close, since it knows nothing of what such a zip wrote.
    for (at, number) in registers.iter().enumerate() {
        let register = Register::try_from(*number)?;
        place[at] = read(rest, guard.held, register).byte;
    }
    Ok(())
}

impl StandIn {
    // A look at the stand-in, which leaves it as it was. A host of the crate holds a whole stand-in, so this hands its records on.
    pub fn look(&mut self, registers: &[u8], place: &mut [u8]) -> Result<(), Refusal>
        ensures answer { result ≡ look_answer registers.now (length place.old) }
        ensures same { self.new ≡ self.old }
        ensures wrote { place.new ≡ look_writes registers.now self.old.rest self.old.sensitive place.old }
    {
        look(&self.rest, &mut self.sensitive, registers, place)
    }
}

// Every call that is made of a board. None asks anything of its caller.
ghost use Rattle.std.specs.Prelude.{◌≡◌, ◌≤◌};
ghost use Rattle.recorder.specs.Recording.{Recording};
ghost use Rattle.marks.specs.declared.wires.WireMark.{WireMark as Wire};
ghost use Rattle.marks.specs.declared.services.ServiceMark.{ServiceMark as Service};
ghost use Rattle.marks.specs.Both.{BothExtended};
ghost use Rattle.refusals.specs.Refusals.{NumbersTellRefusals};
ghost use Rattle.board.specs.Views.{view, last_clock, Bounds};
ghost use Rattle.board.specs.Cuts.{CutDoesNotShow};
ghost use Rattle.board.specs.ServiceStack.{ServiceIsAStack};
ghost use Rattle.board.specs.Draining.{RequestsDrain};
ghost use Rattle.board.specs.SingleCalls.{RefusedCallChangesNothing, SpansAdd};
ghost use Rattle.board.specs.Examples.{WorkedExamples};
ghost use Rattle.board.specs.Perform.{read as read_call, write as write_call, pulse, first_pulse, second_pulse, pin, span as span_call, look as look_call, snapshot as snapshot_call, reset as reset_call, done, looked, counts, byte_answer, plain_answer, answered, perform, state, beside, started};

use super::Board;
use line::Partner;
use marks::{Recorders, mark_closed, mark_taken};
use muart::pulse::{Begun, Half};
use muart::state::StandIn;
use refusals::Refusal;
use registers::latch::Latched;

const LONGEST_SPAN: u64 = 16_777_216;

const LAST_CLOCK: u64 = 500_000_000_000_000;

impl<P: Partner> Board<P> {
    /// Powers a stand-in up beside a line partner. RxD has the partner's level, and the clock number is 0.
    ///
    /// Over every history from here on: how the clock is cut does not show, service is a stack that the marks tell, and
    /// standing requests drain. A refused call changes nothing, and its number tells which refusal it is.
    pub fn power_up(partner: P) -> Board<P>
        ensures started { view P.Partner.meaning result ≡ started (P.Partner.meaning partner) }
        ensures refusals { RefusedCallChangesNothing }
        ensures numbers { NumbersTellRefusals }
        ensures spans { SpansAdd }
        ensures cuts { CutDoesNotShow }
        ensures service { ServiceIsAStack }
        ensures draining { RequestsDrain }
        ensures examples { WorkedExamples }
    {
        let unit = StandIn::power_up(partner.level());
        Board {
            unit,
            partner,
            clock: 0,
        }
    }

    /// The clock number. A caller learns here what holds of every board.
    pub fn clock(&self) -> u64
        ensures value { result ≡ self.now.clock }
        ensures within { result ≤ last_clock }
        ensures bounds { Bounds self.now }
    {
        self.unit.bounds();
        self.clock
    }

    /// Runs one bus cycle that reads. It uses the latched address up.
    pub fn read(&mut self, latched: Latched, recorders: &mut Recorders<'_>) -> Result<u8, Refusal>
        ensures answer { byte_answer result ≡ (perform (read_call latched) (state P.Partner.meaning self.old recorders.old)).1 }
        ensures state { state P.Partner.meaning self.new recorders.new ≡ (perform (read_call latched) (state P.Partner.meaning self.old recorders.old)).0 }
        ensures room { BothExtended recorders.old recorders.new }
    {
        let register = latched.strobe(self.unit.family())?;
        let before = self.lines();
        let nesting = self.unit.nesting();
        let reading = self.unit.read(register);
        mark_taken(&mut recorders.services, self.clock, nesting, reading.taken);
        self.settle(before, &mut recorders.wires);
        Ok(reading.byte)
    }

    /// Runs one bus cycle that writes. It uses the latched address up.
    pub fn write(
        &mut self,
        latched: Latched,
        word: u8,
        recorders: &mut Recorders<'_>,
    ) -> Result<(), Refusal>
        ensures answer { plain_answer result ≡ (perform (write_call latched word) (state P.Partner.meaning self.old recorders.old)).1 }
        ensures state { state P.Partner.meaning self.new recorders.new ≡ (perform (write_call latched word) (state P.Partner.meaning self.old recorders.old)).0 }
        ensures room { BothExtended recorders.old recorders.new }
    {
        let register = latched.strobe(self.unit.family())?;
        let before = self.lines();
        let closed = self.unit.write(register, word)?;
        mark_closed(&mut recorders.services, self.clock, &closed);
        self.settle(before, &mut recorders.wires);
        Ok(())
    }

    /// Gives the single acknowledge pulse of the 8085 family.
    pub fn acknowledge(&mut self, recorders: &mut Recorders<'_>) -> Result<u8, Refusal>
        ensures answer { byte_answer result ≡ (perform pulse (state P.Partner.meaning self.old recorders.old)).1 }
        ensures state { state P.Partner.meaning self.new recorders.new ≡ (perform pulse (state P.Partner.meaning self.old recorders.old)).0 }
        ensures room { BothExtended recorders.old recorders.new }
    {
        let before = self.lines();
        let nesting = self.unit.nesting();
        let answer = self.unit.acknowledge()?;
        let taken = Some(answer.level);
        mark_taken(&mut recorders.services, self.clock, nesting, taken);
        self.settle(before, &mut recorders.wires);
        Ok(answer.byte)
    }

    /// Gives the first acknowledge pulse of the 8086 family. The half that it leaves must be handed in with the second.
    pub fn begin_acknowledge(&mut self, recorders: &mut Recorders<'_>) -> Result<Half, Refusal>
        ensures answer { plain_answer result ≡ (perform first_pulse (state P.Partner.meaning self.old recorders.old)).1 }
        ensures state { state P.Partner.meaning self.new recorders.new ≡ (perform first_pulse (state P.Partner.meaning self.old recorders.old)).0 }
        ensures room { BothExtended recorders.old recorders.new }
    {
        let before = self.lines();
        let nesting = self.unit.nesting();
        let Begun { half, level } = self.unit.begin_acknowledge()?;
        mark_taken(&mut recorders.services, self.clock, nesting, Some(level));
        self.settle(before, &mut recorders.wires);
        Ok(half)
    }

    /// Gives the second acknowledge pulse of the 8086 family. It spends the half, whatever it answers.
    pub fn finish_acknowledge(
        &mut self,
        half: Half,
        recorders: &mut Recorders<'_>,
    ) -> Result<u8, Refusal>
        ensures answer { byte_answer result ≡ (perform second_pulse (state P.Partner.meaning self.old recorders.old)).1 }
        ensures state { state P.Partner.meaning self.new recorders.new ≡ (perform second_pulse (state P.Partner.meaning self.old recorders.old)).0 }
        ensures room { BothExtended recorders.old recorders.new }
    {
        let before = self.lines();
        let answer = self.unit.finish_acknowledge(half)?;
        self.settle(before, &mut recorders.wires);
        Ok(answer)
    }

    /// Sets the outside level of an input pin.
    pub fn set_pin(
        &mut self,
        code: u8,
        level: bool,
        recorders: &mut Recorders<'_>,
    ) -> Result<(), Refusal>
        ensures answer { plain_answer result ≡ (perform (pin code level) (state P.Partner.meaning self.old recorders.old)).1 }
        ensures state { state P.Partner.meaning self.new recorders.new ≡ (perform (pin code level) (state P.Partner.meaning self.old recorders.old)).0 }
        ensures room { BothExtended recorders.old recorders.new }
    {
        let before = self.lines();
        let pin = self.unit.input_pin(code)?;
        self.unit.set_level(&pin, level);
        self.settle(before, &mut recorders.wires);
        Ok(())
    }

    /// Runs a span of clocks.
    pub fn span(&mut self, clocks: u64, recorders: &mut Recorders<'_>) -> Result<(), Refusal>
        ensures answer { plain_answer result ≡ (perform (span_call clocks) (state P.Partner.meaning self.old recorders.old)).1 }
        ensures state { state P.Partner.meaning self.new recorders.new ≡ (perform (span_call clocks) (state P.Partner.meaning self.old recorders.old)).0 }
        ensures room { BothExtended recorders.old recorders.new }
    {
        if clocks > LONGEST_SPAN {
            return Err(Refusal::SpanTooLong);
        }
        if clocks > LAST_CLOCK - self.clock {
            return Err(Refusal::ClockPastEnd);
        }
        self.run(clocks, &mut recorders.wires);
        Ok(())
    }

    /// Resets the stand-in, as a reset word does.
    pub fn reset(&mut self, recorders: &mut Recorders<'_>)
        ensures answer { done ≡ (perform reset_call (state P.Partner.meaning self.old recorders.old)).1 }
        ensures state { state P.Partner.meaning self.new recorders.new ≡ (perform reset_call (state P.Partner.meaning self.old recorders.old)).0 }
        ensures room { BothExtended recorders.old recorders.new }
    {
        let before = self.lines();
        let closed = self.unit.reset();
        mark_closed(&mut recorders.services, self.clock, &closed);
        self.settle(before, &mut recorders.wires);
    }

    /// Reads the listed registers in turn, as the bus would, into the front of `place`, and disturbs nothing.
    pub fn look(&mut self, registers: &[u8], place: &mut [u8]) -> Result<(), Refusal>
        ensures answer { looked result place.new ≡ answered (look_call registers.now place.old) (view P.Partner.meaning self.old) }
        ensures same { self.new ≡ self.old }
        ensures performed { (wires : Recording Wire) (services : Recording Service) → looked result place.new ≡ (perform (look_call registers.now place.old) (beside wires services (view P.Partner.meaning self.old))).1 }
        ensures state { (wires : Recording Wire) (services : Recording Service) → beside wires services (view P.Partner.meaning self.new) ≡ (perform (look_call registers.now place.old) (beside wires services (view P.Partner.meaning self.old))).0 }
    {
        self.unit.look(registers, place)
    }

    /// The five counts together.
    pub fn snapshot(&self) -> [u8; 5]
        ensures answer { counts result ≡ answered snapshot_call (view P.Partner.meaning self.now) }
        ensures performed { (wires : Recording Wire) (services : Recording Service) → counts result ≡ (perform snapshot_call (beside wires services (view P.Partner.meaning self.now))).1 }
        ensures state { (wires : Recording Wire) (services : Recording Service) → beside wires services (view P.Partner.meaning self.now) ≡ (perform snapshot_call (beside wires services (view P.Partner.meaning self.now))).0 }
    {
        self.unit.snapshot()
    }
}

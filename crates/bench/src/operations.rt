// Running one operation on the bench.
ghost use Rattle.std.specs.Prelude.{◌≡◌, [], ◌∷◌};
ghost use Rattle.marks.specs.Both.{BothExtended};
ghost use Rattle.board.specs.Perform.{look, answered};
ghost use Rattle.board.specs.Histories.{ran};
ghost use Rattle.bench.specs.Operations.{calls_of, listed, last_listed};
ghost use Rattle.bench.specs.Benches.{state_of};

use crate::bench::Bench;
use refusals::Refusal;
use registers::latch::Latched;
use script::Operation;

impl<'a> Bench<'a> {
    /// Makes the calls of an operation. Answers the byte that is listed of it, 0 if it has none.
    pub fn operate(&mut self, operation: Operation) -> Result<u8, Refusal>
        ensures answer { result ≡ last_listed (calls_of operation (state_of self.old)) (state_of self.old) }
        ensures state { state_of self.new ≡ ran (calls_of operation (state_of self.old)) (state_of self.old) }
        ensures room { BothExtended self.old.recorders self.new.recorders }
    {
        let Bench { board, recorders } = self;
        match operation {
            Operation::Read { address } => board.read(Latched::new(address, true), recorders),
            Operation::Write { address, byte } => {
                board.write(Latched::new(address, true), byte, recorders)?;
                Ok(0)
            }
            Operation::Clocks { span } => {
                board.span(span, recorders)?;
                Ok(0)
            }
            Operation::Pin { code, level } => {
                board.set_pin(code, level, recorders)?;
                Ok(0)
            }
            Operation::Acknowledge => board.acknowledge(recorders),
            Operation::AcknowledgeBoth => self.both_pulses(),
            Operation::Reset => {
                board.reset(recorders);
                Ok(0)
            }
            Operation::Look { register } => self.look_at(register),
        }
    }

    #[tactic(auto, using(marks::proofs::Extending::both_extended_on))]
    fn both_pulses(&mut self) -> Result<u8, Refusal>
        ensures answer { result ≡ last_listed (calls_of Operation.AcknowledgeBoth (state_of self.old)) (state_of self.old) }
        ensures state { state_of self.new ≡ ran (calls_of Operation.AcknowledgeBoth (state_of self.old)) (state_of self.old) }
        ensures room { BothExtended self.old.recorders self.new.recorders }
    {
        let half = self.board.begin_acknowledge(&mut self.recorders)?;
        self.board.finish_acknowledge(half, &mut self.recorders)
    }

    // One register by its number.
    fn look_at(&mut self, register: u8) -> Result<u8, Refusal>
        ensures answer { result ≡ listed (answered (look (register ∷ []) (0 ∷ [])) (state_of self.old).board) }
        ensures same { self.new ≡ self.old }
    {
        let mut place = [0u8; 1];
        self.board.look(&[register], &mut place)?;
        Ok(place[0])
    }
}

// Running a script line by line.
ghost use Rattle.std.specs.Prelude.{◌≡◌};
ghost use Rattle.marks.specs.Both.{BothExtended};
ghost use Rattle.script.specs.Lines.{content};
ghost use Rattle.board.specs.Histories.{ran};
ghost use Rattle.board.specs.Cuts.{CutDoesNotShow};
ghost use Rattle.board.specs.ServiceStack.{ServiceIsAStack};
ghost use Rattle.board.specs.Draining.{RequestsDrain};
ghost use Rattle.bench.specs.Benches.{state_of};
ghost use Rattle.bench.specs.Operations.{numbered};
ghost use Rattle.bench.specs.Scripts.{said_calls, said_prints, line_calls, line_prints, StartRuns, ScriptIsAHistory, ScriptAnswers};

use crate::bench::Bench;
use listing::{Line, write_line};
use refusals::Refusal;
use script::{Fault, Item, parse};

// A script has no more lines than the listing's first five columns can number.
pub(crate) const LAST_LINE: u32 = 99_999;

// An answer as the columns show it, a refusal by its number.
fn shown(answer: Result<u8, Refusal>) -> Result<u8, u8>
    ensures { result ≡ numbered answer }
{
    answer.map_err(u8::from)
}

impl<'a> Bench<'a> {
    /// Runs one line of a script, counted from 1, and gives what is listed of it. A line past the last is not run. Of a
    /// long line its first 81 bytes are enough.
    /// The lines of a script make a history of the board, so all that holds over histories holds of it.
    pub fn run_line(&mut self, number: u32, line: &[u8]) -> Option<[u8; 29]>
        ensures prints { result ≡ line_prints number line.now (state_of self.old) }
        ensures state { state_of self.new ≡ ran (line_calls number line.now (state_of self.old)) (state_of self.old) }
        ensures room { BothExtended self.old.recorders self.new.recorders }
        ensures start { StartRuns }
        ensures script { ScriptIsAHistory }
        ensures answers { ScriptAnswers }
        ensures cuts { CutDoesNotShow }
        ensures service { ServiceIsAStack }
        ensures draining { RequestsDrain }
    {
        self.run_said(number, parse(line))
    }

    // Runs what a line says; a note does nothing and lists nothing. A line that cannot be run is listed with the first column that cannot stand.
    fn run_said(&mut self, number: u32, said: Result<Item<'_>, Fault>) -> Option<[u8; 29]>
        ensures prints { result ≡ said_prints number (content said.entry) (state_of self.old) }
        ensures state { state_of self.new ≡ ran (said_calls number (content said.entry) (state_of self.old)) (state_of self.old) }
        ensures room { BothExtended self.old.recorders self.new.recorders }
    {
        if number > LAST_LINE {
            return None;
        }
        match said {
            Ok(Item::Note(_)) => None,
            Ok(Item::Step(operation)) => {
                let answer = shown(self.operate(operation));
                let last = self.board.clock();
                Some(write_line(&Line {
                    number,
                    answer,
                    last,
                }))
            }
            Err(fault) => Some(write_line(&Line {
                number,
                answer: shown(Err(Refusal::ScriptLine)),
                last: u64::from(fault.column),
            })),
        }
    }
}

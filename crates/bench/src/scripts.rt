// Running a whole script.
ghost use Rattle.std.specs.Prelude.{◌≡◌, IfSome, OnOk};
ghost use Rattle.std.specs.Io.KnownBytes.{Appends};
ghost use Rattle.script.specs.Inputs.{lines_of};
ghost use Rattle.marks.specs.Both.{BothExtended};
ghost use Rattle.board.specs.Histories.{ran};
ghost use Rattle.bench.specs.Benches.{state_of};
ghost use Rattle.bench.specs.Listings.{LedTo, listing_of};
ghost use Rattle.bench.specs.Scripts.{script_calls};

use crate::bench::Bench;
use crate::runner::LAST_LINE;
use script::LineBuffer;
use std::alloc::Global;
use std::io;
use std::io::{Read, Write};

// The first bytes of a line say all that it does; `bytes` of `LineBuffer` tells that these are enough.
const KEPT: usize = 81;

impl<'a> Bench<'a> {
    /// Runs the lines of a script one after the other, and writes what is listed of them. After the last line that can be numbered nothing
    /// more is read. Where reading, writing or memory fails, the lines before that have run.
    #[tactic(auto, using(marks::proofs::Extending::both_extended_on))]
    pub fn run_script<R: Read, W: Write>(
        &mut self,
        alloc: Global,
        script: &mut R,
        listing: &mut W,
    ) -> io::Result<()>
        ensures listing { OnOk result (IfSome (R.remaining script.old) (λ bytes. Appends (W.contents listing.old) (W.contents listing.new) (listing_of bytes (state_of self.old)))) }
        ensures state { OnOk result (IfSome (R.remaining script.old) (λ bytes. state_of self.new ≡ ran (script_calls 1 (lines_of bytes) (state_of self.old)) (state_of self.old))) }
        ensures history { LedTo (state_of self.old) (state_of self.new) }
        ensures room { BothExtended self.old.recorders self.new.recorders }
    {
        let mut buffer = LineBuffer::<KEPT>::new(alloc);
        for number in 1..=LAST_LINE {
            let Some(line) = buffer.read_line(script)? else {
                break;
            };
            if let Some(listed) = self.run_line(number, line) {
                listing.write_all(&listed)?;
            }
        }
        Ok(())
    }
}

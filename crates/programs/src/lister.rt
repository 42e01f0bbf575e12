// The bench: a script and its listing.
ghost use Rattle.std.specs.Prelude.{IfSome, OnOk, true};
ghost use Rattle.std.specs.Io.KnownBytes.{Appends};
ghost use Rattle.line.specs.LastHeard.{last_heard};
ghost use Rattle.board.specs.Perform.{start};
ghost use Rattle.bench.specs.Listings.{listing_of};

use bench::Bench;
use std::alloc::Global;
use std::io;
use std::io::{BufReader, BufWriter, Read, Write};

// A struct of the three parameters, here and in the calls below and above, is no plainer: a caller has them apart and hands them on.
/// Runs a script on a bench at power-up, and writes its listing. The bench lists no marks, so its recorders have no room.
pub fn list_script<R: Read, W: Write>(
    alloc: Global,
    script: &mut R,
    listing: &mut W,
) -> io::Result<()>
    ensures { OnOk result (IfSome (R.remaining script.old) (λ bytes. Appends (W.contents listing.old) (W.contents listing.new) (listing_of bytes (start (last_heard true) 0 0)))) }
{
    let mut no_wires = [];
    let mut no_services = [];
    let mut bench = Bench::power_up(&mut no_wires, &mut no_services);
    bench.run_script(alloc, script, listing)
}

/// The script on standard input, its listing on standard output.
pub fn list(rt: &HostRuntime) -> io::Result<()> {
    let mut script = BufReader::new(rt.alloc(), rt.stdin())?;
    let mut listing = BufWriter::new(rt.alloc(), rt.stdout())?;
    list_script(rt.alloc(), &mut script, &mut listing)?;
    listing.flush()
}

#[cfg(test)]
mod tests {
    use super::list_script;
    use std::io;

    #[test]
    fn a_script_is_listed(rt: HostRuntime) -> io::Result<()> {
        let mut script = b"* timer 1\nWR         5   1\nRD        32   0\n".as_slice();
        let expected = "    2 OK   0               0\n    3 NO   1               0\n";
        let mut listing = Vec::new(rt.alloc());
        list_script(rt.alloc(), &mut script, &mut listing)?;
        assert!(rt; listing.as_slice() == expected.as_bytes());
        Ok(())
    }
}

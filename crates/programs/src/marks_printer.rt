// The marks of a run: a script, and the marks of both recorders as text.
ghost use Rattle.std.specs.Prelude.{◌≡◌, List, ℕ, Some, IfSome, OnOk, true};
ghost use Rattle.std.specs.Io.KnownBytes.{Appends};
ghost use Rattle.line.specs.LastHeard.{last_heard};
ghost use Rattle.recorder.specs.Recording.{recording};
ghost use Rattle.board.specs.Perform.{start};
ghost use Rattle.programs.specs.Printed.{lines_shown, recorded_text, marks_of};

use bench::Bench;
use marks::{Line, Recorders, ServiceMark, WireMark};
use std::alloc::Global;
use std::fmt::Display;
use std::io;
use std::io::{BufReader, BufWriter, Read, Write};

// Room for so many marks of either kind.
const ROOM: usize = 1_000_000;

// Prints each mark on a line of its own.
fn print_each<T: Display, W: Write>(output: &mut W, marks: &[T]) -> io::Result<()>
    ensures { (text : T → List ℕ) → ((mark : T) → T.output mark ≡ Some (text mark)) → OnOk result (Appends (W.contents output.old) (W.contents output.new) (lines_shown text marks.now)) }
{
    for mark in marks {
        writeln!(output, "{mark}")?;
    }
    Ok(())
}

// The wire marks, the service marks, and how many marks of either kind were turned away.
fn print_recorders<W: Write>(output: &mut W, recorders: &Recorders<'_>) -> io::Result<()>
    ensures { OnOk result (Appends (W.contents output.old) (W.contents output.new) (recorded_text (recording recorders.now.wires) (recording recorders.now.services))) }
{
    let Recorders { wires, services } = recorders;
    print_each(output, wires.marks())?;
    print_each(output, services.marks())?;
    let wires_away = wires.turned_away();
    let services_away = services.turned_away();
    writeln!(
        output,
        "turned away: {wires_away} wire, {services_away} service"
    )
}

/// Runs a script on a bench at power-up, and prints the wire marks, the service marks, and how many of either kind were turned away.
pub fn print_script_marks<R: Read, W: Write>(
    alloc: Global,
    script: &mut R,
    output: &mut W,
) -> io::Result<()>
    ensures { OnOk result (IfSome (R.remaining script.old) (λ bytes. Appends (W.contents output.old) (W.contents output.new) (marks_of bytes (start (last_heard true) 1000000 1000000)))) }
{
    // Literals: they only fill the room.
    let blank_wire = WireMark {
        clock: 0,
        line: Line::TxD,
        level: false,
    };
    let blank_service = ServiceMark::Passed { clock: 0, level: 0 };
    let mut wire_room = vec![in alloc; blank_wire; ROOM]?;
    let mut service_room = vec![in alloc; blank_service; ROOM]?;
    let mut bench = Bench::power_up(wire_room.as_mut_slice(), service_room.as_mut_slice());
    bench.run_script(alloc, script, &mut io::sink())?;
    print_recorders(output, &bench.recorders)
}

// Like `list`: a closure for what runs is no plainer, since its bound has to name both streams.
/// The script on standard input, its marks on standard output.
pub fn print_marks(rt: &HostRuntime) -> io::Result<()> {
    let mut script = BufReader::new(rt.alloc(), rt.stdin())?;
    let mut output = BufWriter::new(rt.alloc(), rt.stdout())?;
    print_script_marks(rt.alloc(), &mut script, &mut output)?;
    output.flush()
}

#[cfg(test)]
mod tests {
    use super::print_script_marks;
    use std::io;

    // The first bits of 55H round the loopback plug.
    #[test]
    fn the_marks_of_a_script_are_printed(rt: HostRuntime) -> io::Result<()> {
        let mut script =
            b"WR         1  52\nWR         2 192\nWR         5  48\nWR         7  85\nCK       107   0\n".as_slice();
        let expected =
            "W 0 TxD 0\nW 0 RxD 0\nW 0 INT 1\nW 107 TxD 1\nW 107 RxD 1\nturned away: 0 wire, 0 service\n";
        let mut output = Vec::new(rt.alloc());
        print_script_marks(rt.alloc(), &mut script, &mut output)?;
        assert!(rt; output.as_slice() == expected.as_bytes());
        Ok(())
    }
}

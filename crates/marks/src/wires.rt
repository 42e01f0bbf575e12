// Changes of the three lines.
ghost use Rattle.std.specs.Prelude.{◌≡◌, Some as Shown};
ghost use Rattle.recorder.specs.Recording.{Extended, all_marked, recording};
ghost use Rattle.marks.specs.Marks.{change, changes};
ghost use Rattle.marks.specs.Texts.{line_name, wire_text};

use recorder::Recorder;
use std::fmt;

/// A line of the stand-in.
#[derive(Clone, Copy, PartialEq, Eq)]
pub enum Line {
    TxD,
    RxD,
    Int,
}

impl fmt::Display for Line {
    ghost output = { λ line. Shown (line_name line) };

    fn fmt<W: fmt::Write>(&self, f: &mut fmt::Formatter<W>) -> fmt::Result {
        match self {
            Line::TxD => write!(f, "TxD"),
            Line::RxD => write!(f, "RxD"),
            Line::Int => write!(f, "INT"),
        }
    }
}

/// A line that changed, at a clock number, with its new level.
#[derive(Clone, Copy, PartialEq, Eq)]
pub struct WireMark {
    pub clock: u64,
    pub line: Line,
    pub level: bool,
}

/// Shown as `W clock line level`.
impl fmt::Display for WireMark {
    ghost output = { λ mark. Shown (wire_text mark) };

    fn fmt<W: fmt::Write>(&self, f: &mut fmt::Formatter<W>) -> fmt::Result {
        let WireMark { clock, line, level } = *self;
        let level = u8::from(level);
        write!(f, "W {clock} {line} {level}")
    }
}

/// The levels of the three lines.
#[derive(Clone, Copy, PartialEq, Eq)]
pub struct Lines {
    pub txd: bool,
    pub rxd: bool,
    pub int: bool,
}

fn mark_change(
    wires: &mut Recorder<'_, WireMark>,
    clock: u64,
    line: Line,
    before: bool,
    level: bool,
)
    ensures view { recording wires.new ≡ all_marked (change clock line before level) (recording wires.old) }
    ensures room { Extended wires.old wires.new }
{
    if before != level {
        wires.mark(WireMark { clock, line, level });
    }
}

/// Marks the lines that changed: TxD, RxD and INT, in that order. A function on the recorder: a method of both recorders would
/// have to prove that the other recorder is left as it is.
#[tactic(auto, using(recorder::proofs::Extending::extended_on))]
pub fn mark_changes(wires: &mut Recorder<'_, WireMark>, clock: u64, before: Lines, after: Lines)
    ensures view { recording wires.new ≡ all_marked (changes clock before after) (recording wires.old) }
    ensures room { Extended wires.old wires.new }
{
    mark_change(wires, clock, Line::TxD, before.txd, after.txd);
    mark_change(wires, clock, Line::RxD, before.rxd, after.rxd);
    mark_change(wires, clock, Line::Int, before.int, after.int);
}

// Running the clock: one clock, many still ones at once, and a span.
ghost use Rattle.std.specs.Prelude.{◌≡◌, ℕ, ◌+◌, ◌<◌, ◌≤◌, []};
ghost use Rattle.timing.specs.Run.{times};
ghost use Rattle.line.specs.Meaning.{shown, elapsed};
ghost use Rattle.recorder.specs.Recording.{Extended, all_marked, recording};
ghost use Rattle.muart.specs.Clock.{Still};
ghost use Rattle.marks.specs.Marks.{changes};
ghost use Rattle.board.specs.Views.{view, lines_of, told_to, settled, clock_once, marks_between, span_marks, last_clock};

use super::Board;
use line::Partner;
use marks::{Lines, WireMark, mark_changes};
use recorder::Recorder;

impl<P: Partner> Board<P> {
    pub(super) fn lines(&self) -> Lines
        ensures { result ≡ lines_of self.now.unit }
    {
        Lines {
            txd: self.unit.txd(),
            rxd: self.unit.rxd(),
            int: self.unit.interrupts(),
        }
    }

    // A changed TxD is heard.
    fn tell(&mut self, txd: bool)
        ensures view { view P.Partner.meaning self.new ≡ told_to txd (view P.Partner.meaning self.old) }
    {
        let level = self.unit.txd();
        if level != txd {
            self.partner.hear(level);
        }
    }

    // A changed TxD is heard, and RxD takes the partner's level.
    #[tactic(auto, unfolding(crate::specs::Views::settled))]
    fn join(&mut self, txd: bool)
        ensures view { view P.Partner.meaning self.new ≡ settled txd (view P.Partner.meaning self.old) }
    {
        self.tell(txd);
        self.unit.set_rxd(self.partner.level());
    }

    // How each clock and each accepted call ends. `before` are the lines before it.
    pub(super) fn settle(&mut self, before: Lines, wires: &mut Recorder<'_, WireMark>)
        ensures view { view P.Partner.meaning self.new ≡ settled before.txd (view P.Partner.meaning self.old) }
        ensures wires { recording wires.new ≡ all_marked (changes self.new.clock before (lines_of self.new.unit)) (recording wires.old) }
        ensures room { Extended wires.old wires.new }
    {
        self.join(before.txd);
        mark_changes(wires, self.clock, before, self.lines());
    }

    #[tactic(auto, unfolding(crate::specs::Views::clock_once, crate::specs::Views::settled))]
    fn once(&mut self, wires: &mut Recorder<'_, WireMark>)
        requires fits { self.old.clock < last_clock }
        ensures view { view P.Partner.meaning self.new ≡ clock_once (view P.Partner.meaning self.old) }
        ensures wires { recording wires.new ≡ all_marked (marks_between (view P.Partner.meaning self.old) (view P.Partner.meaning self.new)) (recording wires.old) }
        ensures room { Extended wires.old wires.new }
        ensures counted { self.new.clock ≡ self.old.clock + 1 }
    {
        let before = self.lines();
        self.clock += 1;
        self.unit.clock();
        self.partner.advance(1);
        self.settle(before, wires);
    }

    // How many clocks pass with no line changing and nothing recorded.
    fn quiet(&self) -> u64
        ensures still { (n : ℕ) → n ≤ result → Still n self.now.unit }
        ensures steady { 0 < result → self.now.unit.rest.serial.rxd ≡ shown (P.Partner.meaning self.now.partner) }
        ensures same { (n : ℕ) → n ≤ result → shown (elapsed n (P.Partner.meaning self.now.partner)) ≡ shown (P.Partner.meaning self.now.partner) }
    {
        if self.unit.rxd() != self.partner.level() {
            return 0;
        }
        let steady = self.partner.quiet() - 1;
        steady.min(self.unit.horizon())
    }

    // Many clocks in which no line changes and nothing is recorded. A type for so few clocks is no plainer, since each turn
    // of `run` would make one; what else it asks concerns this call only.
    fn skip(&mut self, clocks: u64)
        requires short { clocks ≤ 16777216 }
        requires fits { self.old.clock + clocks ≤ last_clock }
        requires still { (n : ℕ) → n ≤ clocks → Still n self.old.unit }
        requires steady { 0 < clocks → self.old.unit.rest.serial.rxd ≡ shown (P.Partner.meaning self.old.partner) }
        requires same { (n : ℕ) → n ≤ clocks → shown (elapsed n (P.Partner.meaning self.old.partner)) ≡ shown (P.Partner.meaning self.old.partner) }
        ensures view { view P.Partner.meaning self.new ≡ times clocks clock_once (view P.Partner.meaning self.old) }
        ensures silent { span_marks clocks (view P.Partner.meaning self.old) ≡ [] }
        ensures counted { self.new.clock ≡ self.old.clock + clocks }
    {
        self.clock += clocks;
        self.unit.skip(clocks);
        self.partner.advance(clocks);
    }

    // Skips up to where something can happen, runs that clock, and goes on. What it asks concerns this call only; a type
    // for it is no plainer, since `span` would make one to hand it on.
    pub(super) fn run(&mut self, clocks: u64, wires: &mut Recorder<'_, WireMark>)
        requires short { clocks ≤ 16777216 }
        requires fits { self.old.clock + clocks ≤ last_clock }
        ensures view { view P.Partner.meaning self.new ≡ times clocks clock_once (view P.Partner.meaning self.old) }
        ensures wires { recording wires.new ≡ all_marked (span_marks clocks (view P.Partner.meaning self.old)) (recording wires.old) }
        ensures room { Extended wires.old wires.new }
    {
        let mut left = clocks;
        while left > 0 {
            let quiet = self.quiet().min(left - 1);
            self.skip(quiet);
            self.once(wires);
            left -= quiet + 1;
        }
    }
}

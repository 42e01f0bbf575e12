// What happens in service.
ghost use Rattle.std.specs.Prelude.{◌≡◌, Some as Shown};
ghost use Rattle.recorder.specs.Recording.{Extended, all_marked, recording};
ghost use Rattle.marks.specs.Marks.{taken_marks, closed_marks};
ghost use Rattle.marks.specs.Texts.{service_text};

use levels::Level;
use recorder::Recorder;
use std::fmt;

/// A level taken into service, passed by with nesting off, or closed.
// A number: a `Level` would ask more of a host that makes marks to fill its room.
#[derive(Clone, Copy, PartialEq, Eq)]
pub enum ServiceMark {
    Taken { clock: u64, level: u8 },
    Passed { clock: u64, level: u8 },
    Closed { clock: u64, level: u8 },
}

/// Shown as `S clock level kind`.
impl fmt::Display for ServiceMark {
    ghost output = { λ mark. Shown (service_text mark) };

    fn fmt<W: fmt::Write>(&self, f: &mut fmt::Formatter<W>) -> fmt::Result {
        match self {
            ServiceMark::Taken { clock, level } => write!(f, "S {clock} {level} taken"),
            ServiceMark::Passed { clock, level } => write!(f, "S {clock} {level} passed"),
            ServiceMark::Closed { clock, level } => write!(f, "S {clock} {level} closed"),
        }
    }
}

/// Marks a level that was taken: with nesting off it was passed. A function on the recorder: a method of both recorders would
/// have to prove that the other recorder is left as it is.
pub fn mark_taken(
    services: &mut Recorder<'_, ServiceMark>,
    clock: u64,
    nesting: bool,
    taken: Option<Level>,
)
    ensures view { recording services.new ≡ all_marked (taken_marks clock nesting taken) (recording services.old) }
    ensures room { Extended services.old services.new }
{
    let Some(level) = taken else {
        return;
    };
    let level = level.number();
    if nesting {
        services.mark(ServiceMark::Taken { clock, level });
    } else {
        services.mark(ServiceMark::Passed { clock, level });
    }
}

/// Marks the levels that were closed, lowest first. A function on the recorder, likewise.
pub fn mark_closed(services: &mut Recorder<'_, ServiceMark>, clock: u64, closed: &[bool; 8])
    ensures view { recording services.new ≡ all_marked (closed_marks clock closed.now) (recording services.old) }
    ensures room { Extended services.old services.new }
{
    for (level, in_service) in closed.iter().enumerate() {
        if *in_service {
            services.mark(ServiceMark::Closed {
                clock,
                level: level as u8,
            });
        }
    }
}

// The bench that scripts run on.
ghost use Rattle.std.specs.Prelude.{◌≡◌, length, true};
ghost use Rattle.recorder.specs.Recording.{lent};
ghost use Rattle.line.specs.LastHeard.{last_heard};
ghost use Rattle.board.specs.Perform.{start};
ghost use Rattle.bench.specs.Benches.{state_of};

use board::Board;
use line::Loopback;
use marks::{Recorders, ServiceMark, WireMark};

/// A board with a loopback plug, and the recorders that its calls are lent.
#[derive(Drop)]
pub struct Bench<'a> {
    pub board: Board<Loopback>,
    pub recorders: Recorders<'a>,
}

impl<'a> Bench<'a> {
    /// A bench at power-up, whose recorders have the room that the host lends.
    pub fn power_up(wire_room: &'a mut [WireMark], service_room: &'a mut [ServiceMark]) -> Bench<'a>
        ensures state { state_of result ≡ start (last_heard true) (length wire_room.old) (length service_room.old) }
        ensures wires_lent { lent result.recorders.wires ≡ wire_room.entry }
        ensures services_lent { lent result.recorders.services ≡ service_room.entry }
    {
        Bench {
            board: Board::power_up(Loopback::new()),
            recorders: Recorders::new(wire_room, service_room),
        }
    }
}

// The two recorders that a host lends to each call that may mark.
ghost use Rattle.std.specs.Prelude.{◌≡◌, ◌-◌, ◌^◌, min, List, length, take};
ghost use Rattle.recorder.specs.Recording.{all_marked, empty, lent, recording};
ghost use Rattle.marks.specs.declared.wires.WireMark.{WireMark as Wire};
ghost use Rattle.marks.specs.declared.services.ServiceMark.{ServiceMark as Service};

use crate::services::ServiceMark;
use crate::wires::WireMark;
use recorder::Recorder;

/// The recorder of wire marks beside the recorder of service marks. How a call leaves them is said by each call (`BothExtended`, and
/// `Extended` of one): it relates before and after, which no type says of its values.
#[derive(Drop)]
pub struct Recorders<'a> {
    pub wires: Recorder<'a, WireMark>,
    pub services: Recorder<'a, ServiceMark>,
}

impl<'a> Recorders<'a> {
    /// Two recorders over the room that the host lends, with nothing recorded yet. Of all marks made from here on each
    /// keeps the first that fit, and counts all.
    pub fn new(wire_room: &'a mut [WireMark], service_room: &'a mut [ServiceMark]) -> Recorders<'a>
        ensures wires { recording result.wires ≡ empty (length wire_room.old) }
        ensures services { recording result.services ≡ empty (length service_room.old) }
        ensures wires_lent { lent result.wires ≡ wire_room.entry }
        ensures services_lent { lent result.services ≡ service_room.entry }
        ensures keeps_wires { (made : List Wire) → (all_marked made (recording result.wires)).kept ≡ take (length wire_room.old) made }
        ensures keeps_services { (made : List Service) → (all_marked made (recording result.services)).kept ≡ take (length service_room.old) made }
        ensures counts_wires { (made : List Wire) → (all_marked made (recording result.wires)).count ≡ min (length made) (2 ^ 64 - 1) }
        ensures counts_services { (made : List Service) → (all_marked made (recording result.services)).count ≡ min (length made) (2 ^ 64 - 1) }
    {
        Recorders {
            wires: Recorder::new(wire_room),
            services: Recorder::new(service_room),
        }
    }
}

// The board that hosts hold.
use muart::state::StandIn;
use std::marker::Model;

mod calls;
mod running;

/// The stand-in beside a line partner of any kind, with the clock number. The recorders stand outside it.
#[derive(Drop)]
pub struct Board<P> {
    unit: StandIn,
    partner: P,
    clock: u64,
}

// The clock number keeps within its bound whatever calls are made, and the unit keeps its own, so no call need ask for them.
impl<P> Model for Board<P> {
    ghost use Rattle.std.specs.Prelude.{◌≤◌};
    ghost use Rattle.board.specs.Views.{Parts, parts, last_clock};

    ghost Value = { Parts P };

    ghost view = { λ b. parts b.unit b.partner b.clock };

    ghost invariant = { λ b. b.clock ≤ last_clock };
}

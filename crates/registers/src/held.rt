// The words that the host wrote, and the outside levels of the pins.

// RxE, IAE and NIE, which command 3 sets and clears.
#[derive(Clone, Copy, Default)]
pub struct Control {
    pub rxe: bool,
    pub iae: bool,
    pub nie: bool,
}

// The words that the host wrote. `direction1` is port 1 control; `latch1` and `latch2` are what was written to the ports.
#[derive(Clone, Copy, Default)]
pub struct Registers {
    pub command1: u8,
    pub command2: u8,
    pub control: Control,
    pub mode: u8,
    pub direction1: u8,
    pub latch1: u8,
    pub latch2: u8,
}

// The outside levels of the pins. They survive a reset.
#[derive(Clone, Copy, Default)]
pub struct Pins {
    pub port1: [bool; 8],
    pub port2: [bool; 8],
    pub cts: bool,
    pub extint: bool,
}

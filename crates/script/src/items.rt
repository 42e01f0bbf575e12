// What a line of a script says.

// One operation of the bench, with its numbers.
#[derive(Clone, Copy)]
pub enum Operation {
    Read { address: u8 },
    Write { address: u8, byte: u8 },
    Clocks { span: u64 },
    Pin { code: u8, level: bool },
    Acknowledge,
    AcknowledgeBoth,
    Reset,
    Look { register: u8 },
}

// A note is the whole line, with its star.
#[derive(Clone, Copy)]
pub enum Item<'a> {
    Step(Operation),
    Note(&'a [u8]),
}

// The first column of a line that cannot stand.
#[derive(Clone, Copy)]
pub struct Fault {
    pub column: u32,
}

// The operations' codes, in columns 1 and 2, and what their two fields may hold.
ghost use Rattle.std.specs.Prelude.{◌≡◌, ◌≤◌};
ghost use Rattle.script.specs.Codes.{code_of, first_limit, second_limit, operation_of};

use crate::items::Operation;

#[derive(Clone, Copy)]
pub(crate) enum Code {
    Rd,
    Wr,
    Ck,
    Pn,
    Ak,
    Ab,
    Rs,
    Lk,
}

impl Code {
    // An `Option`, and no `TryFrom`, which is no plainer: it reads the start of a line, and there is one way to have no code.
    pub(crate) fn of(line: &[u8]) -> Option<Code>
        ensures { result ≡ code_of line.now }
    {
        match line {
            [b'R', b'D', ..] => Some(Code::Rd),
            [b'W', b'R', ..] => Some(Code::Wr),
            [b'C', b'K', ..] => Some(Code::Ck),
            [b'P', b'N', ..] => Some(Code::Pn),
            [b'A', b'K', ..] => Some(Code::Ak),
            [b'A', b'B', ..] => Some(Code::Ab),
            [b'R', b'S', ..] => Some(Code::Rs),
            [b'L', b'K', ..] => Some(Code::Lk),
            _ => None,
        }
    }

    // The largest number of the first field.
    pub(crate) fn first_limit(self) -> u64
        ensures { result ≡ first_limit self }
    {
        match self {
            Code::Rd | Code::Wr | Code::Pn | Code::Lk => 255,
            Code::Ck => 9_999_999_999,
            Code::Ak | Code::Ab | Code::Rs => 0,
        }
    }

    // The largest number of the second field.
    pub(crate) fn second_limit(self) -> u64
        ensures { result ≡ second_limit self }
    {
        match self {
            Code::Wr => 255,
            Code::Pn => 1,
            _ => 0,
        }
    }

    pub(crate) fn operation(self, first: u64, second: u64) -> Operation
        requires first { first ≤ first_limit self }
        requires second { second ≤ second_limit self }
        ensures { result ≡ operation_of self first second }
    {
        match self {
            Code::Rd => Operation::Read {
                address: first as u8,
            },
            Code::Wr => Operation::Write {
                address: first as u8,
                byte: second as u8,
            },
            Code::Ck => Operation::Clocks { span: first },
            Code::Pn => Operation::Pin {
                code: first as u8,
                level: second == 1,
            },
            Code::Ak => Operation::Acknowledge,
            Code::Ab => Operation::AcknowledgeBoth,
            Code::Rs => Operation::Reset,
            Code::Lk => Operation::Look {
                register: first as u8,
            },
        }
    }
}

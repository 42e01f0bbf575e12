// What the bits of the command and mode words say.
ghost use Rattle.std.specs.Prelude.{◌≡◌, ◌≤◌};
ghost use Rattle.registers.specs.Words.{family_of, prescale_of, divide_of, lawful1, lawful2, lawful3, lawful_mode};

use bits::bit;

// The host's processor family: it decides how addresses and acknowledge pulses are read.
#[derive(Clone, Copy, Debug, PartialEq, Eq)]
pub enum Family {
    I8085,
    I8086,
}

impl Family {
    // Named for what it reads. A `From` is no plainer: a command word says more than the family.
    pub fn selected(command1: u8) -> Family
        ensures { result ≡ family_of command1 }
    {
        if bit(command1, 1) {
            Family::I8086
        } else {
            Family::I8085
        }
    }
}

// System clocks to an internal clock.
pub fn prescale(command2: u8) -> u32
    ensures value { result ≡ prescale_of command2 }
    ensures some { 1 ≤ result }
    ensures few { result ≤ 5 }
{
    match command2 / 16 % 4 {
        0 => 5,
        1 => 3,
        2 => 2,
        _ => 1,
    }
}

// Internal clocks to a timer step.
pub fn divide(command1: u8) -> u32
    ensures value { result ≡ divide_of command1 }
    ensures some { 1 ≤ result }
    ensures few { result ≤ 1024 }
{
    if bit(command1, 0) { 1024 } else { 64 }
}

// Stop code 3 and break-in are unlawful.
pub fn lawful_command1(word: u8) -> bool
    ensures { result ≡ lawful1 word }
{
    word / 16 % 4 != 3 && !bit(word, 3)
}

// Rates 0 to 2 are unlawful.
pub fn lawful_command2(word: u8) -> bool
    ensures { result ≡ lawful2 word }
{
    word % 16 >= 3
}

// Breaks cannot be sent.
pub fn lawful_command3(word: u8) -> bool
    ensures { result ≡ lawful3 word }
{
    word / 2 % 4 == 0
}

// Port 2 handshake is unlawful.
pub fn lawful_mode(word: u8) -> bool
    ensures { result ≡ lawful_mode word }
{
    !bit(word, 2)
}

// The sixteen registers.
use crate::pins::Port;
use refusals::Refusal;
use timers::Number;

// A register that is written as one thing and read as another is named for what it reads.
#[derive(Clone, Copy)]
pub enum Register {
    Command1,
    Command2,
    Command3,
    Mode,
    Port1Control,
    Mask,
    InterruptAddress,
    Buffer,
    Pins(Port),
    Timer(Number),
    Status,
}

impl TryFrom<u8> for Register {
    ghost use Rattle.std.specs.Prelude.{◌≡◌};
    ghost use Rattle.std.specs.Option.{ok_or};
    ghost use Rattle.refusals.specs.declared.refusal.Refusal.TheVariants.{NoSuchRegister};
    ghost use Rattle.registers.specs.Bus.{register_of};

    type Error = Refusal;

    ghost try_from_gives = { λ number found. found ≡ ok_or (register_of number) NoSuchRegister };

    fn try_from(number: u8) -> Result<Register, Refusal> {
        match number {
            0 => Ok(Register::Command1),
            1 => Ok(Register::Command2),
            2 => Ok(Register::Command3),
            3 => Ok(Register::Mode),
            4 => Ok(Register::Port1Control),
            5 => Ok(Register::Mask),
            6 => Ok(Register::InterruptAddress),
            7 => Ok(Register::Buffer),
            8 => Ok(Register::Pins(Port::One)),
            9 => Ok(Register::Pins(Port::Two)),
            10 => Ok(Register::Timer(Number::One)),
            11 => Ok(Register::Timer(Number::Two)),
            12 => Ok(Register::Timer(Number::Three)),
            13 => Ok(Register::Timer(Number::Four)),
            14 => Ok(Register::Timer(Number::Five)),
            15 => Ok(Register::Status),
            _ => Err(Refusal::NoSuchRegister),
        }
    }
}

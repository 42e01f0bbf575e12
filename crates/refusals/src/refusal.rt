/// Each refusal has the number that listings show. The tests of a call run in the order of these numbers.
#[derive(Clone, Copy, Debug, PartialEq, Eq)]
pub enum Refusal {
    AddressTooHigh = 1,
    NotSelected = 2,
    UnlawfulWord = 3,
    AcknowledgeDisabled = 4,
    WrongFamily = 5,
    InterruptLow = 6,
    AlreadyBegun = 7,
    NoneBegun = 8,
    SpanTooLong = 9,
    ClockPastEnd = 10,
    NoSuchPin = 11,
    OutputPin = 12,
    ScriptLine = 13,
    PlaceTooShort = 14,
    NoSuchRegister = 15,
}

impl From<Refusal> for u8 {
    ghost use Rattle.std.specs.Prelude.{◌≡◌};
    ghost use Rattle.refusals.specs.Refusals.{number_of};

    ghost from_gives = { λ refusal number. number ≡ number_of refusal };

    fn from(refusal: Refusal) -> u8 {
        refusal as u8
    }
}

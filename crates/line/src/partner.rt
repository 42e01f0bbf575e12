ghost use Rattle.line.specs.Meaning.{Meaning, Steady, elapsed, hearing, shown};
ghost use Rattle.std.specs.Prelude.{◌≡◌};

/// The most clocks for which a partner says that it is quiet.
pub const QUIET_MOST: u64 = 16_777_216;

/// Drives RxD and hears TxD. What it will show is a value, its meaning: looking at it leaves that, and it refuses nothing.
pub trait Partner {
    // The level that it shows after each list of signs to come, a sign being one clock or one level heard.
    ghost meaning: { Self → Meaning };

    /// The level on RxD now.
    fn level(&self) -> bool
        ensures { result ≡ shown (meaning self.now) };

    /// With fewer clocks than these, 1 to 16,777,216, and nothing heard, the level does not change.
    fn quiet(&self) -> u64
        ensures { Steady result (meaning self.now) };

    /// Lets clocks pass.
    fn advance(&mut self, clocks: u64)
        ensures { meaning self.new ≡ elapsed clocks (meaning self.old) };

    /// Hears a level of TxD.
    fn hear(&mut self, level: bool)
        ensures { meaning self.new ≡ hearing level (meaning self.old) };
}

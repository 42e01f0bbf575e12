// One system clock of the stand-in, and many at once.
ghost use Rattle.std.specs.Prelude.{◌≡◌, ℕ, ◌+◌, ◌*◌, ◌/◌, ◌≤◌, min};
ghost use Rattle.timing.specs.Run.{times};
ghost use Rattle.serial.specs.Rates.{rate_step};
ghost use Rattle.registers.specs.Words.{prescale_of, divide_of};
ghost use Rattle.muart.specs.Serial.{rate_in};
ghost use Rattle.muart.specs.Bounds.{SoundDividers};
ghost use Rattle.muart.specs.Clock.{timer_step, timed, rated, internal_clock, clocked, ticks_in, quiet_rate_ticks, quiet_at_rate, quiet_clocks, Still};

use crate::state::StandIn;
use registers::held::Registers;
use registers::words::{divide, prescale};
use serial::rate::rate_step;
use timers::FAR;
use timing::Ratio;

// Each internal clock adds baud times the ticks to a bit; a rate tick falls when the sum reaches this.
const RATE_MODULUS: u32 = 1_024_000;

// Every p-th system clock ends an internal clock.
fn clock_ratio(registers: &Registers) -> Ratio
    ensures { result ≡ record { step = 1; modulus = prescale_of registers.now.command2 } }
{
    Ratio::new(1, prescale(registers.command2))
}

// Every 64th internal clock, or every 1024th, is a timer step.
fn step_ratio(registers: &Registers) -> Ratio
    ensures { result ≡ record { step = 1; modulus = divide_of registers.now.command1 } }
{
    Ratio::new(1, divide(registers.command1))
}

fn rate_ratio(registers: &Registers) -> Ratio
    ensures { result ≡ record { step = rate_step registers.now.command2; modulus = 1024000 } }
{
    Ratio::new(rate_step(registers.command2), RATE_MODULUS)
}

impl StandIn {
    #[tactic(auto, unfolding(crate::specs::Clock::timer_step))]
    fn step_timers(&mut self)
        ensures { self.new ≡ timer_step self.old }
    {
        let modes = self.timer_modes();
        let fired = self.rest.timers.step(modes);
        self.record_fired(fired);
    }

    // An internal clock at the timers.
    fn time(&mut self)
        ensures { self.new ≡ timed self.old }
    {
        let ratio = step_ratio(&self.rest.registers);
        if self.rest.dividers.steps.advance(ratio) {
            self.step_timers();
        }
    }

    // An internal clock at the serial side.
    fn rate(&mut self)
        ensures { self.new ≡ rated self.old }
    {
        let ratio = rate_ratio(&self.rest.registers);
        if self.rest.dividers.remainder.advance(ratio) {
            self.tick_serial();
        }
    }

    #[tactic(auto, unfolding(crate::specs::Clock::internal_clock))]
    fn internal_clock(&mut self)
        ensures { self.new ≡ internal_clock self.old }
    {
        self.time();
        self.rate();
    }

    // One system clock.
    #[tactic(auto, unfolding(crate::specs::Clock::clocked))]
    pub fn clock(&mut self)
        ensures after { self.new ≡ clocked self.old }
    {
        let ratio = clock_ratio(&self.rest.registers);
        if self.rest.dividers.prescaler.advance(ratio) {
            self.internal_clock();
        }
    }

    // How many internal clocks pass before a rate tick that ends a bit or samples.
    fn horizon_at_rate(&self) -> u64
        ensures value { result ≡ quiet_at_rate (rate_in self.now) self.now }
        ensures within { (n : ℕ) → n ≤ min 16777216 result → ticks_in n self.now ≤ quiet_rate_ticks self.now }
    {
        let sending = self.rest.serial.transmitter.horizon();
        let ticks = FAR.min(sending.min(self.rest.serial.receiver.horizon()));
        if rate_step(self.rest.registers.command2) == 0 {
            return FAR;
        }
        let ratio = rate_ratio(&self.rest.registers);
        self.rest.dividers.remainder.reach(ticks, ratio)
    }

    // How many clocks pass with nothing but counts, dividers and ticks within a bit moving.
    pub fn horizon(&self) -> u64
        ensures value { result ≡ quiet_clocks self.now }
        ensures sound { SoundDividers self.now }
        ensures still { (n : ℕ) → n ≤ result → Still n self.now }
    {
        let registers = &self.rest.registers;
        let dividers = &self.rest.dividers;
        let fires = self.rest.timers.horizon(self.timer_modes(), self.watched());
        let steps = FAR.min(fires);
        let most = dividers.steps.reach(steps, step_ratio(registers));
        let internals = FAR.min(most.min(self.horizon_at_rate()));
        dividers.prescaler.reach(internals, clock_ratio(registers))
    }

    // Many clocks at once, of which none is past the horizon. That there are at most 16,777,216 is asked of the
    // caller: a type for so few clocks is no plainer, since each turn of the board's `run` would make one.
    pub fn skip(&mut self, clocks: u64)
        requires still { Still clocks self.old }
        requires short { clocks ≤ 16777216 }
        ensures after { self.new ≡ times clocks clocked self.old }
        ensures ticks { (n : ℕ) → ticks_in n self.old ≡ (self.old.rest.dividers.remainder.at + n * rate_in self.old) / 1024000 }
    {
        let modes = self.timer_modes();
        let registers = self.rest.registers;
        let dividers = &mut self.rest.dividers;
        let internals = dividers.prescaler.skip(clocks, clock_ratio(&registers));
        let steps = dividers.steps.skip(internals, step_ratio(&registers));
        let ticks = dividers.remainder.skip(internals, rate_ratio(&registers));
        self.rest.timers.skip(steps, modes);
        self.rest.serial.transmitter.skip(ticks);
        self.rest.serial.receiver.skip(ticks);
    }
}

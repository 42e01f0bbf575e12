// Setting the outside level of a pin.
ghost use Rattle.std.specs.Prelude.{◌≡◌};
ghost use Rattle.muart.specs.Parts.{Parts};
ghost use Rattle.muart.specs.PinCalls.{rise as rise_of, fall as fall_of, pin_set, pin_tested};

use crate::state::StandIn;
use levels::Level;
use refusals::Refusal;
use registers::held::Registers;
use registers::pins::Pin;
use timers::Side;

// The pin of a code, if it can be set from outside. Only the registers count, whatever else a stand-in holds.
pub fn input_pin(registers: &Registers, code: u8) -> Result<Pin, Refusal>
    ensures { (s : Parts) → s.rest.registers ≡ registers.now → result ≡ pin_tested code s }
{
    let pin = Pin::try_from(code)?;
    if registers.drives(&pin) {
        return Err(Refusal::OutputPin);
    }
    Ok(pin)
}

impl StandIn {
    // P12 and P13 count, P17 requests.
    fn rise(&mut self, pin: &Pin)
        ensures { self.new ≡ rise_of pin.now self.old }
    {
        let Pin::Port1(place) = *pin else {
            return;
        };
        let modes = self.timer_modes();
        let fired = match place.number() {
            2 => self.rest.timers.count_edge(Side::Even, modes),
            3 => self.rest.timers.count_edge(Side::Odd, modes),
            7 if self.biti() => return self.request(Level::new(1)),
            _ => return,
        };
        self.record_fired(fired);
    }

    // P15 triggers timer 5, and CTS lets a character load.
    fn fall(&mut self, pin: &Pin)
        ensures { self.new ≡ fall_of pin.now self.old }
    {
        let modes = self.timer_modes();
        match *pin {
            Pin::Port1(place) if place.number() == 5 => self.rest.timers.trigger(modes),
            Pin::Cts => self.release(),
            _ => {}
        }
    }

    // Only a change of the level makes an edge.
    pub fn set_level(&mut self, pin: &Pin, level: bool)
        ensures { self.new ≡ pin_set pin.now level self.old }
    {
        if self.rest.pins.outside_level(pin) == level {
            return;
        }
        self.rest.pins.set_outside(pin, level);
        if level {
            self.rise(pin);
        } else {
            self.fall(pin);
        }
    }

    // The pin of a code, if it can be set from outside.
    pub fn input_pin(&self, code: u8) -> Result<Pin, Refusal>
        ensures { result ≡ pin_tested code self.now }
    {
        input_pin(&self.rest.registers, code)
    }
}

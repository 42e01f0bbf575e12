// Power-up, reset, and writing a register.
ghost use Rattle.std.specs.Prelude.{◌≡◌};
ghost use Rattle.muart.specs.Parts.{parts};
ghost use Rattle.muart.specs.Bounds.{Sound};
ghost use Rattle.muart.specs.Writing.{reset_to, was_reset, powered_up, lawful as is_lawful, controlled, left_in_service, left_receiving, commanded3, stored, write_answer, write_leaves};

use crate::state::{Dividers, Flags, Rest, Sensitive, Serial, StandIn};
use bits::bit;
use levels::Pending;
use refusals::Refusal;
use registers::held::{Control, Pins, Registers};
use registers::pins::Port;
use registers::register::Register;
use registers::words::{lawful_command1, lawful_command2, lawful_command3, lawful_mode};
use serial::receiver::Receiver;
use serial::transmitter::Transmitter;
use timers::Timers;

// Whether the register takes the word. A struct of both, here and below, is no plainer, since each is looked at alone.
fn lawful(register: Register, word: u8) -> bool
    ensures { result ≡ is_lawful register word }
{
    match register {
        Register::Command1 => lawful_command1(word),
        Register::Command2 => lawful_command2(word),
        Register::Command3 => lawful_command3(word),
        Register::Mode => lawful_mode(word),
        Register::Status => word == 0,
        _ => true,
    }
}

// Bit 7 says set or clear for each bit that is 1.
fn control_after(word: u8, control: Control) -> Control
    ensures { result ≡ controlled word control }
{
    let set = bit(word, 7);
    Control {
        rxe: if bit(word, 6) { set } else { control.rxe },
        iae: if bit(word, 5) { set } else { control.iae },
        nie: if bit(word, 4) { set } else { control.nie },
    }
}

// END acts first; clearing NIE closes all.
fn serve_word(service: &mut [bool; 8], word: u8)
    ensures { service.new ≡ left_in_service word service.old }
{
    if bit(word, 4) && !bit(word, 7) {
        let _ = levels::close_all(service);
    } else if bit(word, 3) {
        let _ = levels::end(service);
    }
}

// Clearing RxE idles the receiver.
fn listen_on(receiver: &mut Receiver, word: u8)
    ensures after { receiver.new ≡ left_receiving word receiver.old }
{
    if bit(word, 6) && !bit(word, 7) {
        receiver.disable();
    }
}

// A reset of the two records. Unlike a whole stand-in they may hold dividers out of their bounds. Tells the levels that were in
// service.
pub fn reset(rest: &mut Rest, sensitive: &mut Sensitive) -> [bool; 8]
    ensures closed { result ≡ sensitive.old.levels.service }
    ensures after { parts rest.new sensitive.new ≡ was_reset (parts rest.old sensitive.old) }
    ensures sound { Sound (parts rest.new sensitive.new) }
{
    let closed = sensitive.levels.service;
    let cleared = StandIn::cleared(rest.pins, rest.serial.rxd);
    *rest = cleared.rest;
    *sensitive = cleared.sensitive;
    closed
}

impl StandIn {
    // What a reset leaves. It may be put in place of a stand-in whose parts are out of their bounds too.
    pub fn cleared(pins: Pins, rxd: bool) -> StandIn
        ensures after { result ≡ reset_to pins rxd }
        ensures sound { Sound result }
    {
        StandIn {
            rest: Rest {
                registers: Registers::default(),
                pins,
                mask: [false; 8],
                begun: None,
                timers: Timers::new(),
                dividers: Dividers::default(),
                serial: Serial {
                    transmitter: Transmitter::new(),
                    receiver: Receiver::new(),
                    received: 0,
                    rxd,
                },
            },
            sensitive: Sensitive {
                levels: Pending::new(),
                flags: Flags::default(),
            },
        }
    }

    pub fn power_up(rxd: bool) -> StandIn
        ensures after { result ≡ powered_up rxd }
        ensures sound { Sound result }
    {
        StandIn::cleared(Pins::default(), rxd)
    }

    // Tells the levels that were in service.
    pub fn reset(&mut self) -> [bool; 8]
        ensures closed { result ≡ self.old.sensitive.levels.service }
        ensures after { self.new ≡ was_reset self.old }
        ensures sound { Sound self.new }
    {
        reset(&mut self.rest, &mut self.sensitive)
    }

    fn command3(&mut self, word: u8)
        ensures after { self.new ≡ commanded3 word self.old }
    {
        if bit(word, 7) && bit(word, 0) {
            let _ = self.reset();
            return;
        }
        serve_word(&mut self.sensitive.levels.service, word);
        listen_on(&mut self.rest.serial.receiver, word);
        self.rest.registers.control = control_after(word, self.rest.registers.control);
    }

    fn store(&mut self, register: Register, word: u8)
        ensures after { self.new ≡ stored register word self.old }
    {
        let t5c = bit(self.rest.registers.mode, 5);
        match register {
            Register::Command1 => {
                self.rest.registers.command1 = word;
                self.rest.dividers = Dividers::default();
            }
            Register::Command2 => {
                self.rest.registers.command2 = word;
                self.rest.dividers = Dividers::default();
            }
            Register::Command3 => self.command3(word),
            Register::Mode => {
                self.rest.registers.mode = word;
                self.rest.timers.select(t5c, bit(word, 5));
            }
            Register::Port1Control => self.rest.registers.direction1 = word,
            Register::Mask => levels::enable(&mut self.rest.mask, word),
            Register::InterruptAddress => {
                levels::disable(
                    &mut self.rest.mask,
                    &mut self.sensitive.levels.requests,
                    word,
                );
            }
            Register::Pins(Port::One) => self.rest.registers.latch1 = word,
            Register::Pins(Port::Two) => self.rest.registers.latch2 = word,
            Register::Timer(number) => self.rest.timers.write(number, word, t5c),
            Register::Buffer => self.send(word),
            Register::Status => {}
        }
    }

    // Tells the levels that the word closed.
    pub fn write(&mut self, register: Register, word: u8) -> Result<[bool; 8], Refusal>
        ensures answer { result ≡ write_answer register word self.old }
        ensures after { self.new ≡ write_leaves result register word self.old }
    {
        if !lawful(register, word) {
            return Err(Refusal::UnlawfulWord);
        }
        let before = self.sensitive.levels.service;
        self.store(register, word);
        Ok(levels::difference(&before, &self.sensitive.levels.service))
    }
}

// Reading a register, and what else a board asks of a stand-in.
ghost use Rattle.std.specs.Prelude.{◌≡◌};
ghost use Rattle.timers.specs.Access.{counts_of};
ghost use Rattle.registers.specs.Words.{family_of};
ghost use Rattle.muart.specs.Reading.{control_byte, status_byte, int_high, ready_level, took, reading, read_leaves};
ghost use Rattle.muart.specs.State.{with_sensitive};

use crate::state::{Flags, Rest, Sensitive, StandIn};
use bits::byte_of;
use levels::Level;
use registers::held::Control;
use registers::register::Register;
use registers::words::Family;
use serial::transmitter::Transmitter;

// What a read answers, and the level that it took.
#[derive(Clone, Copy)]
pub struct Reading {
    pub byte: u8,
    pub taken: Option<Level>,
}

// INT is high exactly when a level is ready. Here and below a function over the two records shows in its signature that a read
// changes only the second, and one struct of both would be the stand-in again. It is asked at each clock and each read of the
// status; built into both, it leaves a read of any register nothing to save.
#[inline(always)]
pub fn interrupts(rest: &Rest, sensitive: &Sensitive) -> bool
    ensures { result ≡ int_high rest.now sensitive.now }
{
    sensitive
        .levels
        .due(&rest.mask, rest.pins.extint, rest.registers.control.nie)
        .is_some()
}

// Bits 6, 5 and 4; the others of command 3 do not read back.
fn control_byte(control: &Control) -> u8
    ensures { result ≡ control_byte control.now }
{
    byte_of(&[
        false,
        false,
        false,
        false,
        control.nie,
        control.iae,
        control.rxe,
        false,
    ])
}

// Bits 0 to 7.
fn status_byte(int: bool, transmitter: &Transmitter, flags: &Flags) -> u8
    ensures { result ≡ status_byte int transmitter.now flags.now }
{
    byte_of(&[
        flags.fe,
        flags.oe,
        flags.pe,
        flags.bd,
        transmitter.tre(),
        transmitter.tbe(),
        flags.rbf,
        int,
    ])
}

// Takes the ready level, if any.
pub(crate) fn take(rest: &Rest, sensitive: &mut Sensitive) -> Option<Level>
    ensures picks { result ≡ ready_level rest.now sensitive.old }
    ensures after { sensitive.new ≡ took rest.now sensitive.old }
{
    sensitive
        .levels
        .take(&rest.mask, rest.pins.extint, rest.registers.control.nie)
}

fn read_interrupt_address(rest: &Rest, sensitive: &mut Sensitive) -> Reading
    ensures answer { result ≡ reading Register.InterruptAddress rest.now sensitive.old }
    ensures after { sensitive.new ≡ read_leaves Register.InterruptAddress rest.now sensitive.old }
{
    let taken = take(rest, sensitive);
    let byte = taken.as_ref().map_or(255, |level| 4 * level.number());
    Reading { byte, taken }
}

fn read_status(rest: &Rest, sensitive: &mut Sensitive) -> Reading
    ensures answer { result ≡ reading Register.Status rest.now sensitive.old }
    ensures after { sensitive.new ≡ read_leaves Register.Status rest.now sensitive.old }
{
    let int = interrupts(rest, sensitive);
    let byte = status_byte(int, &rest.serial.transmitter, &sensitive.flags);
    sensitive.flags = Flags {
        rbf: sensitive.flags.rbf,
        ..Flags::default()
    };
    Reading { byte, taken: None }
}

fn read_buffer(rest: &Rest, sensitive: &mut Sensitive) -> Reading
    ensures answer { result ≡ reading Register.Buffer rest.now sensitive.old }
    ensures after { sensitive.new ≡ read_leaves Register.Buffer rest.now sensitive.old }
{
    sensitive.flags.rbf = false;
    Reading {
        byte: rest.serial.received,
        taken: None,
    }
}

// Only the interrupt address, the buffer and the status disturb anything.
pub fn read(rest: &Rest, sensitive: &mut Sensitive, register: Register) -> Reading
    ensures answer { result ≡ reading register rest.now sensitive.old }
    ensures after { sensitive.new ≡ read_leaves register rest.now sensitive.old }
{
    let byte = match register {
        Register::InterruptAddress => return read_interrupt_address(rest, sensitive),
        Register::Buffer => return read_buffer(rest, sensitive),
        Register::Status => return read_status(rest, sensitive),
        Register::Command1 => rest.registers.command1,
        Register::Command2 => rest.registers.command2,
        Register::Command3 => control_byte(&rest.registers.control),
        Register::Mode => rest.registers.mode,
        Register::Port1Control => rest.registers.direction1,
        Register::Mask => byte_of(&rest.mask),
        Register::Pins(port) => rest.registers.read_port(&rest.pins, port),
        Register::Timer(number) => rest.timers.read(number),
    };
    Reading { byte, taken: None }
}

// A host of the crate holds a whole stand-in, so `read` and `interrupts` hand its records on.
impl StandIn {
    // What a read disturbs is the read-sensitive record alone.
    pub fn read(&mut self, register: Register) -> Reading
        ensures answer { result ≡ reading register self.old.rest self.old.sensitive }
        ensures after { self.new ≡ with_sensitive (read_leaves register self.old.rest self.old.sensitive) self.old }
    {
        read(&self.rest, &mut self.sensitive, register)
    }

    // The level of INT.
    pub fn interrupts(&self) -> bool
        ensures { result ≡ int_high self.now.rest self.now.sensitive }
    {
        interrupts(&self.rest, &self.sensitive)
    }

    // The level of RxD.
    pub fn rxd(&self) -> bool
        ensures { result ≡ self.now.rest.serial.rxd }
    {
        self.rest.serial.rxd
    }

    // The five counts together.
    pub fn snapshot(&self) -> [u8; 5]
        ensures { result ≡ counts_of self.now.rest.timers }
    {
        self.rest.timers.snapshot()
    }

    // The family that command 1 selects.
    pub fn family(&self) -> Family
        ensures { result ≡ family_of self.now.rest.registers.command1 }
    {
        Family::selected(self.rest.registers.command1)
    }

    // Whether levels nest: NIE.
    pub fn nesting(&self) -> bool
        ensures { result ≡ self.now.rest.registers.control.nie }
    {
        self.rest.registers.control.nie
    }
}

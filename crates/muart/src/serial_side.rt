// The serial side within the stand-in.
ghost use Rattle.std.specs.Prelude.{◌≡◌, Some};
ghost use Rattle.muart.specs.Serial.{form_in, txd_level, transmitter_tick, reception_kept, receiver_tick, serial_tick, rxd_set, sent, cts_fell};

use crate::state::StandIn;
use levels::Level;
use serial::form::Form;
use serial::receiver::{Event, Reception};

impl StandIn {
    // The form that commands 1 and 2 give now.
    fn form(&self) -> Form
        ensures { result ≡ form_in self.now }
    {
        Form::of(self.rest.registers.command1, self.rest.registers.command2)
    }

    pub fn txd(&self) -> bool
        ensures { result ≡ txd_level self.now }
    {
        self.rest.serial.transmitter.txd()
    }

    fn tick_transmitter(&mut self)
        ensures after { self.new ≡ transmitter_tick self.old }
    {
        let form = self.form();
        let cts = self.rest.pins.cts;
        if self.rest.serial.transmitter.tick(form, cts) {
            self.request(Level::new(5));
        }
    }

    fn keep(&mut self, reception: Reception)
        ensures { self.new ≡ reception_kept (Some reception) self.old }
    {
        let flags = &mut self.sensitive.flags;
        match reception {
            Reception::Break => flags.bd = true,
            Reception::Character {
                character,
                parity_error,
                framing_error,
            } => {
                flags.pe |= parity_error;
                flags.oe |= flags.rbf;
                flags.fe |= framing_error;
                flags.rbf = true;
                self.rest.serial.received = character;
            }
        }
        self.request(Level::new(4));
    }

    fn tick_receiver(&mut self)
        ensures { self.new ≡ receiver_tick self.old }
    {
        let rxd = self.rest.serial.rxd;
        if let Some(reception) = self.rest.serial.receiver.on(Event::Tick(rxd)) {
            self.keep(reception);
        }
    }

    // One rate tick.
    #[tactic(auto, unfolding(crate::specs::Serial::serial_tick))]
    pub(crate) fn tick_serial(&mut self)
        ensures { self.new ≡ serial_tick self.old }
    {
        self.tick_transmitter();
        self.tick_receiver();
    }

    // The partner's level at RxD. A fall may start the receiver.
    pub fn set_rxd(&mut self, level: bool)
        ensures after { self.new ≡ rxd_set level self.old }
    {
        let falls = self.rest.serial.rxd && !level && self.rest.registers.control.rxe;
        let form = self.form();
        self.rest.serial.rxd = level;
        if falls {
            let _ = self.rest.serial.receiver.on(Event::Fall(form));
        }
    }

    // A character written to the transmit buffer.
    pub(crate) fn send(&mut self, character: u8)
        ensures after { self.new ≡ sent character self.old }
    {
        let form = self.form();
        let cts = self.rest.pins.cts;
        if self.rest.serial.transmitter.write(character, form, cts) {
            self.request(Level::new(5));
        }
    }

    // CTS fell: a waiting character may load.
    pub(crate) fn release(&mut self)
        ensures after { self.new ≡ cts_fell self.old }
    {
        let form = self.form();
        if self.rest.serial.transmitter.release(form) {
            self.request(Level::new(5));
        }
    }
}

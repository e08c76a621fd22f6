ghost use Rattle.std.specs.Prelude.{◌≡◌, ◌<◌, ℕ, Bool, [], Some, Option};
ghost use Rattle.mcal_base.specs.det_errors.Reports as errors;
ghost use Rattle.run_model.specs.Machine as done;
ghost use Rattle.module_machines.specs.dio.Values as accesses;
ghost use Rattle.module_machines.specs.dio.Checks as checks;
ghost use Rattle.module_machines.specs.dio.Machine as spec;
ghost use Rattle.module_machines.specs.dio.Table as table;
ghost use Rattle.module_machines.specs.declared.dio.table.PortPins as tables;
ghost use Rattle.module_machines.specs.port.Machine.{PortState, level_at};
ghost use Rattle.run_model.specs.World.{World};
ghost use Rattle.audit_base.specs.Comes.{Gives};
ghost use Rattle.audit_clock.specs.PinStands.{StandsFor};
ghost use Rattle.audit_clock.specs.PortPins.{IsAround, kept_level, kept_value, pins_seeing};

use crate::around::Around;
use crate::pin_state::has_bit;
use crate::pins::Pins;
use crate::port_values::{bit, level_answer, moved_down, refused, word_of};
use audit_base::{Told, number};
use mcal_base::ErrorName;
use mcal_base::det_errors::{Facts, first_error};
use module_machines::dio::{Call, DioTable, PortPins};
use std::marker::Model;

/// Channels, ports and groups under a configuration. They have no state: their calls read the levels of pins and change their
/// latches.
#[derive(Drop)]
pub struct Ports {
    driver: DioTable,
}

impl Model for Ports {
    ghost use Rattle.module_machines.specs.dio.Table.{FitsDio};
    ghost use Rattle.module_machines.specs.declared.dio.table.DioTable.{DioTable};

    ghost Value = { DioTable };

    ghost view = { λ t. t.driver };

    ghost invariant = { λ t. FitsDio t.driver };
}

/// The pins of a port, of eight, where there are some.
fn some_pins(port: u32, mask: u8) -> Option<PortPins>
    requires { port < 8 }
    ensures { result ≡ table.some_pins port mask }
{
    if mask == 0 {
        None
    } else {
        Some(PortPins {
            port: port as u8,
            mask,
            offset: 0,
        })
    }
}

/// A one for each configured pin of a port.
fn configured(driver: &DioTable, port: u8) -> u8
    ensures { result ≡ table.configured driver.now port }
{
    if port < 8 {
        driver.ports[port as usize]
    } else {
        0
    }
}

/// A channel, which is a configured pin.
fn channel(driver: &DioTable, pin: u32) -> Option<PortPins>
    ensures { result ≡ table.channel_of driver.now pin }
{
    if pin < 64 && has_bit(driver.ports[(pin / 8) as usize] as u32, pin % 8) {
        Some(PortPins {
            port: (pin / 8) as u8,
            mask: 1 << (pin % 8),
            offset: (pin % 8) as u8,
        })
    } else {
        None
    }
}

/// The configured pins of a port, where there are some.
fn port_pins(driver: &DioTable, port: u32) -> Option<PortPins>
    ensures { result ≡ table.port_of driver.now port }
{
    if port < 8 {
        some_pins(port, driver.ports[port as usize])
    } else {
        None
    }
}

/// The configured ones of some pins.
fn those_configured(driver: &DioTable, pins: Option<PortPins>) -> Option<PortPins>
    ensures { result ≡ table.those_configured driver.now pins }
{
    match pins {
        Some(pins) => Some(PortPins {
            port: pins.port,
            mask: pins.mask & configured(driver, pins.port),
            offset: pins.offset,
        }),
        None => None,
    }
}

/// The configured pins of a group, where that is configured.
fn group(driver: &DioTable, number: u32) -> Option<PortPins>
    ensures { result ≡ table.group_of driver.now number }
{
    if number < 8 {
        those_configured(driver, driver.groups[number as usize])
    } else {
        None
    }
}

/// The pins that a call is about, none where its channel, port or group isn't configured.
fn pins_of(driver: &DioTable, call: Call) -> Option<PortPins>
    ensures { result ≡ table.pins_of driver.now call }
{
    match call {
        Call::ReadChannel(pin) | Call::WriteChannel(pin, _) | Call::FlipChannel(pin) => {
            channel(driver, pin)
        }
        Call::ReadPort(port) | Call::WritePort(port, _) => port_pins(driver, port),
        Call::ReadChannelGroup(number) | Call::WriteChannelGroup(number, _) => {
            group(driver, number)
        }
    }
}

/// The level of a pin, of 64.
fn level(pins: &Pins, around: &Around, pin: u32) -> bool
    requires { pin < 64 }
    ensures { result ≡ kept_level pins.now around.now pin }
{
    pins.level(
        pin,
        around.levels[pin as usize],
        around.outputs[pin as usize],
    )
}

/// The levels of a port's eight pins as a number, the first one in bit 0.
fn value(pins: &Pins, around: &Around, port: u32) -> u32
    requires { port < 8 }
    ensures { result ≡ kept_value pins.now around.now port }
{
    let mut bits = 0;
    for place in 0..8u32 {
        if level(pins, around, 8 * port + place) {
            bits |= 1 << place;
        }
    }
    bits
}

/// The level of a pin, of 64, is told.
fn tells_level(pins: &Pins, around: &Around, pin: u32) -> Told
    requires { pin < 64 }
    ensures { (w : World) (s : PortState) (outputs : ℕ → Option Bool) → IsAround around.now w outputs → StandsFor pins.now s →
        result ≡ done.answers (accesses.level_answer (level_at w s pin (outputs pin))) }
{
    Told::with_answer(level_answer(level(pins, around, pin)))
}

/// The value of some pins of a port is told.
fn tells_value(pins: &Pins, around: &Around, chosen: PortPins) -> Told
    requires { chosen.port < 8 }
    ensures { (w : World) (s : PortState) (outputs : ℕ → Option Bool) → IsAround around.now w outputs → StandsFor pins.now s →
        result ≡ done.answers (done.number (accesses.moved_down chosen (spec.port_value (pins_seeing outputs) w s chosen.port))) }
{
    let value = value(pins, around, chosen.port as u32);
    Told::with_answer(number(moved_down(chosen, value)))
}

/// A value is put to some pins of a port.
fn puts_value(pins: &mut Pins, chosen: PortPins, value: u32) -> Told
    requires { chosen.port < 8 }
    ensures is { (s : PortState) (outputs : ℕ → Option Bool) → StandsFor pins.old s → Gives (StandsFor pins.new) result (spec.puts_value (pins_seeing outputs) s chosen value) }
    ensures driver { pins.new.driver ≡ pins.old.driver }
{
    pins.put(chosen.port as u32, word_of(chosen, value));
    Told::nothing()
}

/// The latch of a pin, of 64, is inverted, and its level after that is told.
fn flips(pins: &mut Pins, around: &Around, pin: u32) -> Told
    requires { pin < 64 }
    ensures is { (w : World) (s : PortState) (outputs : ℕ → Option Bool) → IsAround around.now w outputs → StandsFor pins.old s →
        Gives (StandsFor pins.new) result (spec.tells_level (pins_seeing outputs) w ((pins_seeing outputs).flip pin s) pin) }
    ensures driver { pins.new.driver ≡ pins.old.driver }
{
    pins.invert(pin);
    tells_level(pins, around, pin)
}

/// What a call tells whose channel, port or group isn't configured.
fn unknown(call: Call) -> Told
    ensures { result ≡ record { answer = checks.answer_refused call; error = checks.error_of call; notices = [] } }
{
    let facts = Facts {
        holds: [true, false, false, false, false, false],
    };
    let answer = refused(call);
    match first_error(call.service(), &facts) {
        Some(error) => Told::with_error(answer, error),
        None => Told::with_answer(answer),
    }
}

impl Ports {
    /// Under a configuration, in which the port of each group is one of eight.
    pub fn new(driver: DioTable) -> Ports
        requires { table.FitsDio driver }
        ensures { result ≡ driver }
    {
        Ports { driver }
    }

    /// The pins that a call is about, none where its channel, port or group isn't configured.
    fn chosen(&self, call: Call) -> Option<PortPins>
        ensures is { result ≡ table.pins_of self.now call }
        ensures few { (x : tables.PortPins) → result ≡ Some x → x.port < 8 }
    {
        pins_of(&self.driver, call)
    }

    /// What a call does about these pins.
    fn work(&self, call: Call, chosen: PortPins, pins: &mut Pins, around: &Around) -> Told
        requires chosen { table.pins_of self.now call ≡ Some chosen }
        requires few { chosen.port < 8 }
        ensures is { (w : World) (s : PortState) (outputs : ℕ → Option Bool) → IsAround around.now w outputs → StandsFor pins.old s →
            Gives (StandsFor pins.new) result (spec.work (pins_seeing outputs) w s call chosen) }
        ensures driver { pins.new.driver ≡ pins.old.driver }
    {
        match call {
            Call::ReadChannel(pin) => tells_level(pins, around, pin),
            Call::FlipChannel(pin) => flips(pins, around, pin),
            Call::ReadPort(_) => tells_value(pins, around, chosen),
            Call::ReadChannelGroup(_) => tells_value(pins, around, chosen),
            Call::WriteChannel(_, high) => puts_value(pins, chosen, bit(high)),
            Call::WritePort(_, value) => puts_value(pins, chosen, value),
            Call::WriteChannelGroup(_, value) => puts_value(pins, chosen, value),
        }
    }

    /// Whether an error that a call finds is reported: as a runtime error, or as a development error.
    pub fn report(&self, error: ErrorName) -> Option<bool>
        ensures { result ≡ errors.reported (checks.reporting self.now) error }
    {
        mcal_base::det_errors::reported(self.driver.detect, 1, error)
    }

    /// A call acts on the pins, with this around them.
    pub fn act(&self, call: Call, pins: &mut Pins, around: &Around) -> Told
        ensures is { (w : World) (s : PortState) (outputs : ℕ → Option Bool) → IsAround around.now w outputs → StandsFor pins.old s →
            Gives (StandsFor pins.new) result (spec.does (pins_seeing outputs) self.now w s call) }
        ensures driver { pins.new.driver ≡ pins.old.driver }
    {
        match self.chosen(call) {
            Some(chosen) => self.work(call, chosen, pins, around),
            None => unknown(call),
        }
    }
}

ghost use Rattle.std.specs.Prelude.{◌≡◌, ◌<◌, IfOk, Some, length, slice_get};
ghost use Rattle.std.specs.Option.{option_map};
ghost use Rattle.adc_machine.specs.Turns.{AdcState};
ghost use Rattle.adc_machine.specs.Words as words;
ghost use Rattle.config_facts.specs.Valid.{IsValid};
ghost use Rattle.module_machines.specs.icu.Machine.{IcuState};
ghost use Rattle.mcal_base.specs.Layout.{Exists, room_of};
ghost use Rattle.spi_machine.specs.State.{wire_at};
ghost use Rattle.audit_base.specs.Outside.{IsWorld};
ghost use Rattle.audit_captures.specs.Stands as stamps;
ghost use Rattle.audit_converters.specs.Stands as results;
ghost use Rattle.audit_machines.specs.Shows.{buffer_of, user_at};
ghost use Rattle.audit_machines.specs.System.{all_tables};
ghost use Rattle.audit_serial.specs.Stands.{state_of};
ghost use Rattle.audit_whole.specs.Resting.{serials_of};
ghost use Rattle.audit_whole.specs.Sizes.{SizesFit};
ghost use Rattle.shown_rows.specs.Wires.{pairs};

use crate::sizes::shown_stamps;
use adc_machine::{AdcTable, ResultBuffer};
use audit_base::{Outside, Part};
use audit_captures::Captures;
use audit_converters::Converters;
use audit_machines::{AllModules, HasPins};
use audit_serial::Serials;
use mcal_base::{Array, Config};
use shown_rows::{Exchange, ShownBoard, Words};
use spi_machine::SpiTable;
use std::alloc::{AllocError, Global};
use std::marker::Model;
use word_shapes::jobs::Channel;

/// Modules as a checker knows them, while no frame is under way. Of the configuration it keeps what is asked of each converter
/// group and serial channel.
#[derive(Drop)]
pub(crate) struct AtRest<'a, P> {
    config: &'a Config,
    modules: &'a P,
    outside: &'a Outside,
    groups: AdcTable,
    serials: SpiTable,
}

impl<'a, P> Model for AtRest<'a, P> {
    ghost use Rattle.std.specs.Prelude.{◌≡◌};
    ghost use Rattle.config_facts.specs.Valid.{IsValid};
    ghost use Rattle.audit_whole.specs.Resting.{Resting, groups_of, serials_of};

    ghost Value = { Resting P };

    ghost view = { λ r. record { config = r.config.now; modules = r.modules.now; outside = r.outside.now } };

    ghost invariant = { λ r. IsValid r.config.now × (r.groups ≡ groups_of r.config.now) × (r.serials ≡ serials_of r.config.now) };
}

impl<'a, P> AtRest<'a, P> {
    /// Modules of a configuration.
    pub(crate) fn new(config: &'a Config, modules: &'a P, outside: &'a Outside) -> AtRest<'a, P>
        requires { IsValid config.now }
        ensures { result ≡ record { config = config.now; modules = modules.now; outside = outside.now } }
    {
        AtRest {
            config,
            modules,
            outside,
            groups: AdcTable::new(config),
            serials: SpiTable::new(config),
        }
    }
}

/// The buffer of a number.
fn buffer_of(number: u32) -> ResultBuffer
    ensures { result ≡ buffer_of number }
{
    if number == 0 {
        ResultBuffer::Zero
    } else {
        ResultBuffer::One
    }
}

/// The number of a buffer.
fn buffer_number(buffer: ResultBuffer) -> u32
    ensures { result ≡ words.buffer_number buffer }
{
    match buffer {
        ResultBuffer::Zero => 0,
        ResultBuffer::One => 1,
    }
}

/// How many places a buffer of a converter group has, none where it isn't configured.
fn place_count(groups: &AdcTable, group: u32) -> u32
    ensures { result ≡ words.place_count groups.now group }
{
    match groups.group(group) {
        Some(group) => group.inputs.as_slice().len() as u32 * group.samples as u32,
        None => 0,
    }
}

/// A chosen buffer by its number, with the places that it has.
fn numbered(chosen: Option<ResultBuffer>, places: u32) -> Option<(u32, u32)>
    ensures { result ≡ option_map (λ b. (words.buffer_number b, places)) chosen }
{
    match chosen {
        Some(buffer) => Some((buffer_number(buffer), places)),
        None => None,
    }
}

/// A place of an array of the users.
fn user_word(
    captures: &Captures,
    converters: &Converters,
    serials: &Serials,
    array: Array,
    place: u32,
) -> u32
    requires there { Exists array }
    requires place { place < room_of array }
    ensures { (c : IcuState) (a : AdcState) → stamps.StandsFor captures.now c → results.StandsFor converters.now a →
        result ≡ user_at c a (state_of serials.now) array place }
{
    match array {
        Array::Round(group, buffer) => converters.result(group, buffer_of(buffer), place),
        Array::Stamps(channel) => captures.stamp(channel, place),
        Array::Source(channel) => serials.source(channel, place),
        Array::Destination(channel) => serials.destination(channel, place),
    }
}

/// A word on the wire of a serial unit.
fn exchange(serials: &Serials, unit: u32, place: usize) -> Exchange
    requires { place < length (wire_at (state_of serials.now) unit) }
    ensures { slice_get (wire_at (state_of serials.now) unit) place ≡ Some (result.sent, result.received) }
{
    match serials.wire(unit, place) {
        Some((sent, received)) => Exchange { sent, received },
        None => unreachable!(),
    }
}

/// The words on the wire of a serial unit since the last reset.
fn exchanges(alloc: Global, serials: &Serials, unit: u32) -> Result<Vec<Exchange>, AllocError>
    ensures { IfOk result (λ words. pairs words.items ≡ wire_at (state_of serials.now) unit) }
{
    let mut words = Vec::new(alloc);
    for place in 0..serials.wire_len(unit) {
        words.push(exchange(serials, unit, place))?;
    }
    Ok(words)
}

impl ShownBoard for AtRest<'_, AllModules> {
    ghost configured = { λ r. r.config };

    ghost shows = { λ r w s. IsWorld r.outside w × ⟦<AllModules as Part>⟧.stands r.modules s × (⟦<AllModules as Part>⟧.table r.modules ≡ all_tables r.config (serials_of r.config)) × SizesFit r.config s.1.0.1 };

    fn config(&self) -> &Config {
        self.config
    }

    fn pin(&self, pin: u32) -> bool {
        self.modules
            .host
            .pin(self.outside, &self.modules.outputs, pin)
    }

    fn word(&self, words: Words, place: u32) -> u32 {
        let host = &self.modules.host;
        let serials = &host.second.second.second;
        match words {
            Words::Ram => host.first.first.first.ram(place),
            Words::User(array) => {
                let captures = &host.second.first.second;
                user_word(captures, &host.second.second.first, serials, array, place)
            }
            Words::Sent(channel) => serials.internal(channel, false, place),
            Words::Received(channel) => serials.internal(channel, true, place),
        }
    }

    fn stamps(&self, channel: u32) -> Option<u32> {
        shown_stamps(self.config, &self.modules.host.second.first.second, channel)
    }

    fn results(&self, group: u32) -> Option<(u32, u32)> {
        let chosen = self.modules.host.second.second.first.chosen(group);
        numbered(chosen, place_count(&self.groups, group))
    }

    fn serial_channel(&self, number: u32) -> Option<Channel> {
        self.serials.channel(number)
    }

    fn wire(&self, alloc: Global, unit: u32) -> Result<Vec<Exchange>, AllocError> {
        exchanges(alloc, &self.modules.host.second.second.second, unit)
    }
}

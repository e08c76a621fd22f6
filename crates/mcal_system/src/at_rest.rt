ghost use Rattle.std.specs.Prelude.{◌≡◌};
ghost use Rattle.std.specs.Option.{option_map};
ghost use Rattle.adc_machine.specs.Words.{buffer_number};
ghost use Rattle.mcal_system.specs.Runs.{shown_at};

use crate::wires::exchanges_of;
use adc_driver::AdcDriver;
use adc_machine::ResultBuffer;
use chip_model::Bus;
use icu_driver::IcuDriver;
use mcal_base::{Config, Directive};
use run_model::Journal;
use shown_rows::{Exchange, ShownBoard, Words};
use spi_driver::SpiDriver;
use std::alloc::{AllocError, Global};
use std::marker::Model;
use word_shapes::jobs::Channel;

/// A run while no frame is under way: its journal, the chip, and the drivers that a show asks. It holds no frame, so
/// that a proof about it doesn't pay for those of all modules.
#[derive(Drop)]
pub struct AtRest<'a> {
    pub(crate) config: &'a Config,
    pub(crate) script: &'a [Directive],
    pub(crate) devices: usize,
    pub(crate) journal: &'a Journal,
    pub(crate) bus: &'a Bus,
    pub(crate) captures: &'a IcuDriver,
    pub(crate) converters: &'a AdcDriver,
    pub(crate) serial: &'a SpiDriver,
}

impl<'a> Model for AtRest<'a> {
    ghost use Rattle.mcal_system.specs.Runs.{RestingRun};
    ghost use Rattle.mcal_system.specs.laws.Resting.{AreDrivers, IsResting};

    ghost Value = { RestingRun };

    ghost view = { λ s. record { config = s.config.now; script = s.script.now; devices = s.devices; entries = s.journal.now.entries } };

    ghost invariant = { λ s. IsResting s.config.now s.script.now s.devices s.journal.now.entries s.bus.now × AreDrivers s.config.now s.captures.now s.converters.now s.serial.now };
}

impl ShownBoard for AtRest<'_> {
    ghost configured = { λ run. run.config };

    ghost shows = { λ run w s. (w, s) ≡ shown_at run };

    fn config(&self) -> &Config {
        self.config
    }

    fn pin(&self, pin: u32) -> bool {
        self.bus.pin(pin)
    }

    fn word(&self, words: Words, place: u32) -> u32 {
        match words {
            Words::Ram => self.bus.ram(place),
            Words::User(array) => {
                let word = mcal_base::place(self.config, array, place);
                self.bus.word(word)
            }
            Words::Sent(channel) => self.serial.internal(self.bus, channel, false, place),
            Words::Received(channel) => self.serial.internal(self.bus, channel, true, place),
        }
    }

    fn stamps(&self, channel: u32) -> Option<u32> {
        self.captures.stamps(self.bus, channel)
    }

    fn results(&self, group: u32) -> Option<(u32, u32)> {
        shown(
            self.converters.chosen(self.bus, group),
            self.converters.places(group),
        )
    }

    fn serial_channel(&self, number: u32) -> Option<Channel> {
        self.serial.table.channel(number)
    }

    /// They are read from the journal.
    fn wire(&self, alloc: Global, unit: u32) -> Result<Vec<Exchange>, AllocError> {
        exchanges_of(alloc, self.journal, unit)
    }
}

/// A chosen buffer by its number, with the places that it has.
fn shown(chosen: Option<ResultBuffer>, places: u32) -> Option<(u32, u32)>
    ensures { result ≡ option_map (λ b. (buffer_number b, places)) chosen }
{
    match chosen {
        Some(buffer) => Some((buffer_number(buffer), places)),
        None => None,
    }
}

/// The number of a buffer.
fn buffer_number(buffer: ResultBuffer) -> u32
    ensures { result ≡ buffer_number buffer }
{
    match buffer {
        ResultBuffer::Zero => 0,
        ResultBuffer::One => 1,
    }
}

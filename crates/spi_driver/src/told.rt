//! What only the driver's words hold, for the layers above.

ghost use Rattle.std.specs.Prelude.{◌≡◌, ◌==◌, ◌<◌, ◌&&◌, ℕ, true, [], Some, is_some};
ghost use Rattle.chip_model.specs.Chip.{word_of};
ghost use Rattle.run_model.specs.World.{World};
ghost use Rattle.word_shapes.specs.declared.jobs.channel.Channel.{Channel};
ghost use Rattle.spi_machine.specs.Fits.{FitsSpi};
ghost use Rattle.spi_machine.specs.State.{SpiState, internal_word};
ghost use Rattle.spi_machine.specs.Table.{channel_of};
ghost use Rattle.spi_sequences.specs.Refinement.{SpiRepresents};
ghost use Rattle.spi_driver.specs.laws.words.WordsToState as spec;

use crate::driver::SpiDriver;
use chip_model::Bus;
use mcal_base::WORDS;
use spi_machine::{ChannelList, JobList};
use spi_sequences::{PENDING, STATE, sequence_word};
use word_shapes::jobs::{Side, bank_of};

impl SpiDriver {
    /// A word of an internal channel by its place: one that it sends, as it was last written, or one that may be read
    /// of it. It is the machine's wherever no service is under way.
    pub fn internal(&self, bus: &Bus, channel: u32, received: bool, index: u32) -> u32
        ensures { (w : World) (s : SpiState) (k : Channel) → FitsSpi self.now.table → channel_of self.now.table channel ≡ Some k → k.internal ≡ true → index < k.length → SpiRepresents self.now.table [] bus.now w s → result ≡ internal_word s channel received index }
    {
        self.word_told(bus, channel, received, index)
    }

    /// The word at a place of the bank that a side's control word names.
    fn word_told(&self, bus: &Bus, channel: u32, received: bool, index: u32) -> u32
        ensures { result ≡ spec.word_told self.now.table (word_of bus.now) channel received index }
    {
        let placed = self.table.placed((channel % 16) as u8);
        let side = side_of(received);
        let bank = bank_of(word(bus, placed.control(side)));
        word(bus, placed.word(side, bank, (index % 256) as u8))
    }

    /// Whether a channel of this number is configured.
    pub(crate) fn has_channel(&self, channel: u32) -> bool
        ensures is { result ≡ is_some (channel_of self.now.table channel) }
        ensures few { result ≡ true → channel < 16 }
    {
        match self.table.channels.get(channel as usize) {
            Some(found) => found.is_some(),
            None => false,
        }
    }

    /// Whether the module is initialised, and a pending sequence uses the channel.
    pub(crate) fn uses(&self, bus: &Bus, channel: u32) -> bool
        ensures { result ≡ spec.uses self.now.table (word_of bus.now) channel }
    {
        bus.word(STATE) != 0 && self.is_among(bus, channel, 8)
    }

    /// Whether one of the first sequences is pending and uses the channel.
    fn is_among(&self, bus: &Bus, channel: u32, end: u8) -> bool
        ensures { result ≡ spec.among self.now.table (word_of bus.now) channel end }
    {
        if end == 0 || 8 < end {
            return false;
        }
        self.is_pending_with(bus, channel, end - 1) || self.is_among(bus, channel, end - 1)
    }

    /// Whether a sequence is pending and uses the channel.
    fn is_pending_with(&self, bus: &Bus, channel: u32, sequence: u8) -> bool
        requires { sequence < 8 }
        ensures { result ≡ spec.is_pending_with self.now.table (word_of bus.now) channel sequence }
    {
        bus.word(sequence_word(sequence)) == PENDING
            && self.has_in(&self.table.jobs_of(sequence), channel, 16)
    }

    /// Whether one of the first jobs of a list has the channel.
    fn has_in(&self, jobs: &JobList, channel: u32, end: u8) -> bool
        ensures { result ≡ spec.has_in self.now.table jobs.now channel end }
    {
        if end == 0 || 16 < end {
            return false;
        }
        self.has_at(jobs.at(end - 1), channel) || self.has_in(jobs, channel, end - 1)
    }

    /// Whether a job has the channel.
    fn has_at(&self, job: Option<u8>, channel: u32) -> bool
        ensures { result ≡ spec.has_at self.now.table channel job }
    {
        match job {
            Some(job) => is_listed(&self.table.channels_of(job), channel, 4),
            None => false,
        }
    }
}

/// Whether a channel is one of the first ones of a list.
fn is_listed(channels: &ChannelList, channel: u32, end: u8) -> bool
    ensures { result ≡ spec.is_listed channels.now channel end }
{
    if end == 0 || 4 < end {
        return false;
    }
    is_number(channels.at(end - 1), channel) || is_listed(channels, channel, end - 1)
}

fn is_number(number: Option<u8>, channel: u32) -> bool
    ensures { result ≡ spec.is_number channel number }
{
    match number {
        Some(number) => u32::from(number) == channel,
        None => false,
    }
}

/// The side of a channel's words.
fn side_of(received: bool) -> Side
    ensures { result ≡ spec.side_of received }
{
    if received { Side::Received } else { Side::Sent }
}

/// A driver word, 0 where there is none of that number.
fn word(bus: &Bus, number: u32) -> u32
    ensures { result ≡ spec.word_or (word_of bus.now) number }
{
    if number < WORDS { bus.word(number) } else { 0 }
}

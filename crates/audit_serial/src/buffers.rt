ghost use Rattle.std.specs.Prelude.{◌≡◌, ◌≤◌, ◌++◌, IfOk, Some, map, drop, length, replicate, if◌then◌else◌};
ghost use Rattle.spi_machine.specs.Channels as spec;
ghost use Rattle.spi_machine.specs.Numbered.{first_items, with_item, word_at};
ghost use Rattle.spi_machine.specs.Table.{length_by};
ghost use Rattle.spi_machine.specs.Transfers.{channel_words, goes_to};
ghost use Rattle.audit_serial.specs.Words.{goes_as, set_up_as, word_as};

use crate::numbered::{Blank, item, set_item};
use crate::words::{Goes, JobWord, push_words};
use mcal_base::Words;
use spi_machine::Pointer;
use std::alloc::{AllocError, Global};
use std::marker::Model;
use word_shapes::jobs::Channel;

/// How an external channel was last set up.
#[derive(Clone, Copy)]
pub struct SetUp {
    /// Where its words come from.
    pub source: Pointer,
    /// Where what comes in goes.
    pub destination: Pointer,
    /// How many words it has.
    pub words: u32,
}

/// What is kept of a channel: the user's arrays, what an internal one sends and may be read of it, and the set-up of an
/// external one.
#[derive(Drop)]
pub struct Buffers {
    source: Vec<u32>,
    destination: Vec<u32>,
    written: Vec<u32>,
    received: Vec<u32>,
    set_up: Option<SetUp>,
}

impl Model for Buffers {
    ghost use Rattle.std.specs.Prelude.{option_map};
    ghost use Rattle.spi_machine.specs.Channels.{ChannelState};
    ghost use Rattle.audit_serial.specs.Words.{set_up_as};

    ghost Value = { ChannelState };

    ghost view = { λ t. record { source = t.source.items; destination = t.destination.items; written = t.written.items; received = t.received.items; set_up = option_map set_up_as t.set_up } };
}

impl Blank for Buffers {
    ghost blank = { spec.untouched };

    fn blank(alloc: Global) -> Buffers {
        Buffers::new(alloc)
    }
}

/// So many words, all of one value.
fn refill(words: &mut Vec<u32>, count: usize, value: u32) -> Result<(), AllocError>
    ensures { IfOk result (λ _. words.new.items ≡ replicate count value) }
{
    words.clear();
    for _place in 0..count {
        words.push(value)?;
    }
    Ok(())
}

/// So many words, all of one value.
fn repeated(alloc: Global, count: usize, value: u32) -> Result<Vec<u32>, AllocError>
    ensures { IfOk result (λ words. words.items ≡ replicate count value) }
{
    let mut words = Vec::new(alloc);
    refill(&mut words, count, value)?;
    Ok(words)
}

/// The words of the first places.
fn first_words(alloc: Global, from: &[u32], count: usize) -> Result<Vec<u32>, AllocError>
    ensures { IfOk result (λ words. words.items ≡ first_items 0 count from.now) }
{
    let mut words = Vec::new(alloc);
    for place in 0..count {
        words.push(item(from, place, 0))?;
    }
    Ok(words)
}

/// Words are written over the first ones of others, and behind them.
fn overwrite(words: &mut Vec<u32>, by: &[u32]) -> Result<(), AllocError>
    ensures { IfOk result (λ _. words.new.items ≡ by.now ++ drop (length by.now) words.old.items) }
{
    for place in 0..by.len() {
        set_item(words, place, 0, by[place])?;
    }
    Ok(())
}

impl Buffers {
    /// After power on.
    pub(crate) fn new(alloc: Global) -> Buffers
        ensures { result ≡ spec.untouched }
    {
        Buffers {
            source: Vec::new(alloc),
            destination: Vec::new(alloc),
            written: Vec::new(alloc),
            received: Vec::new(alloc),
            set_up: None,
        }
    }

    /// After `Spi_Init`.
    pub(crate) fn initialise(&mut self, channel: Option<Channel>) -> Result<(), AllocError>
        ensures { IfOk result (λ _. self.new ≡ spec.initialised channel self.old) }
    {
        match channel {
            Some(channel) => self.initialise_as(channel),
            None => Ok(()),
        }
    }

    /// After `Spi_Init`, of a configured channel.
    fn initialise_as(&mut self, channel: Channel) -> Result<(), AllocError>
        ensures { IfOk result (λ _. self.new ≡ spec.initialised (Some channel) self.old) }
    {
        if channel.internal {
            self.refill(channel.length as usize, channel.default_data)
        } else {
            self.set_up = None;
            Ok(())
        }
    }

    /// An internal channel sends default data, and has received zeros.
    fn refill(&mut self, count: usize, value: u32) -> Result<(), AllocError>
        ensures { IfOk result (λ _. self.new ≡ record self.old { written = replicate count value; received = replicate count 0 }) }
    {
        refill(&mut self.written, count, value)?;
        refill(&mut self.received, count, 0)
    }

    /// So many words of the user's source array, or of default data.
    fn words_from(
        &self,
        alloc: Global,
        pointer: Pointer,
        count: u32,
        channel: Channel,
    ) -> Result<Vec<u32>, AllocError>
        ensures { IfOk result (λ words. words.items ≡ spec.words_from pointer count channel self.now) }
    {
        match pointer {
            Pointer::Users => first_words(alloc, &self.source, count as usize),
            Pointer::Null => repeated(alloc, count as usize, channel.default_data),
        }
    }

    /// After `Spi_WriteIB`.
    pub(crate) fn write(
        &mut self,
        alloc: Global,
        pointer: Pointer,
        channel: Option<Channel>,
    ) -> Result<(), AllocError>
        ensures { IfOk result (λ _. self.new ≡ spec.written_from pointer channel self.old) }
    {
        match channel {
            Some(channel) => self.write_as(alloc, pointer, channel),
            None => Ok(()),
        }
    }

    /// After `Spi_WriteIB`, of a configured channel.
    fn write_as(
        &mut self,
        alloc: Global,
        pointer: Pointer,
        channel: Channel,
    ) -> Result<(), AllocError>
        ensures { IfOk result (λ _. self.new ≡ spec.written_from pointer (Some channel) self.old) }
    {
        self.written = self.words_from(alloc, pointer, channel.length as u32, channel)?;
        Ok(())
    }

    /// After `Spi_SetupEB`.
    pub(crate) fn set_up(&mut self, set_up: SetUp)
        ensures { self.new ≡ record self.old { set_up = Some (set_up_as set_up) } }
    {
        self.set_up = Some(set_up);
    }

    /// After a fill of the user's source array.
    pub(crate) fn fill(&mut self, words: &[u32], channel: Option<Channel>) -> Result<(), AllocError>
        ensures { IfOk result (λ _. self.new ≡ spec.filled words.now channel self.old) }
    {
        overwrite(&mut self.source, words)?;
        self.source.truncate(length_by(channel));
        Ok(())
    }

    /// A word that came in is stored in the user's destination array.
    pub(crate) fn store(&mut self, place: usize, value: u32) -> Result<(), AllocError>
        ensures { IfOk result (λ _. self.new ≡ record self.old { destination = with_item 0 self.old.destination place value }) }
    {
        set_item(&mut self.destination, place, 0, value)
    }

    /// A word that came in may be read.
    pub(crate) fn keep(&mut self, place: usize, value: u32) -> Result<(), AllocError>
        ensures { IfOk result (λ _. self.new ≡ record self.old { received = with_item 0 self.old.received place value }) }
    {
        set_item(&mut self.received, place, 0, value)
    }

    /// The words that may be read of a channel, of at most 64.
    pub(crate) fn readable(&self, channel: Option<Channel>) -> Words
        requires { length_by channel ≤ 64 }
        ensures { result ≡ first_items 0 (length_by channel) self.now.received }
    {
        let mut words = Words::new();
        for place in 0..length_by(channel) {
            words.push(item(&self.received, place, 0));
        }
        words
    }

    /// The set-up of the channel; one that wasn't set up has no buffers, and its greatest length.
    fn set_up_or(&self, channel: Channel) -> SetUp
        ensures { set_up_as result ≡ spec.set_up_or channel self.now.set_up }
    {
        match self.set_up {
            Some(set_up) => set_up,
            None => SetUp {
                source: Pointer::Null,
                destination: Pointer::Null,
                words: channel.length as u32,
            },
        }
    }

    /// The channel's words as they stand come behind those of a job.
    pub(crate) fn push_to(
        &self,
        alloc: Global,
        number: u8,
        channel: Channel,
        words: &mut Vec<JobWord>,
    ) -> Result<(), AllocError>
        ensures { IfOk result (λ _. map word_as words.new.items ≡ map word_as words.old.items ++ channel_words number (Some channel) self.now) }
    {
        if channel.internal {
            return push_words(words, number, channel.width, Goes::ToChannel, &self.written);
        }
        let set_up = self.set_up_or(channel);
        let values = self.words_from(alloc, set_up.source, set_up.words, channel)?;
        push_words(
            words,
            number,
            channel.width,
            goes_to(set_up.destination),
            &values,
        )
    }

    /// A word of the user's source array.
    pub(crate) fn source(&self, place: usize) -> u32
        ensures { result ≡ word_at self.now.source place }
    {
        item(&self.source, place, 0)
    }

    /// A word of the user's destination array.
    pub(crate) fn destination(&self, place: usize) -> u32
        ensures { result ≡ word_at self.now.destination place }
    {
        item(&self.destination, place, 0)
    }

    /// A word of an internal channel: of those that may be read, or of those that are sent.
    pub(crate) fn internal(&self, received: bool, place: usize) -> u32
        ensures { result ≡ word_at (if received then self.now.received else self.now.written) place }
    {
        if received {
            item(&self.received, place, 0)
        } else {
            item(&self.written, place, 0)
        }
    }
}

/// How many words a channel has at most.
fn length_by(channel: Option<Channel>) -> usize
    ensures { result ≡ length_by channel }
{
    match channel {
        Some(channel) => channel.length as usize,
        None => 0,
    }
}

/// Where what comes in goes.
fn goes_to(pointer: Pointer) -> Goes
    ensures { goes_as result ≡ goes_to pointer }
{
    match pointer {
        Pointer::Users => Goes::ToDestination,
        Pointer::Null => Goes::Nowhere,
    }
}

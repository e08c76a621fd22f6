ghost use Rattle.std.specs.Prelude.{◌≡◌, ◌≤◌, ◌++◌, [], IfOk, Some, map, if◌then◌else◌};
ghost use Rattle.spi_machine.specs.Channels as spec;
ghost use Rattle.spi_machine.specs.Numbered.{first_items, with_item, word_at};
ghost use Rattle.spi_machine.specs.Table.{length_by};
ghost use Rattle.spi_machine.specs.Transfers as transfers;
ghost use Rattle.spi_machine.specs.Transfers.{channel_words};
ghost use Rattle.audit_serial.specs.Flows.{at, initialised_in, kept_all, kept_in, last_taken, stored_in, words_of};
ghost use Rattle.audit_serial.specs.Words.{goes_as, set_up_as, word_as};

use crate::buffers::{Buffers, SetUp};
use crate::numbered::grow;
use crate::options::{channel_list, channels_listed};
use crate::run::Run;
use crate::words::{Goes, JobWord};
use mcal_base::Words;
use spi_machine::{Pointer, SpiTable};
use std::alloc::{AllocError, Global};
use std::marker::Model;
use word_shapes::jobs::Channel;

/// The channels by number. They are written here alone.
#[derive(Drop)]
pub struct Channels {
    items: Vec<Buffers>,
}

impl Model for Channels {
    ghost use Rattle.std.specs.Prelude.{List};
    ghost use Rattle.spi_machine.specs.Channels.{ChannelState};

    ghost Value = { List ChannelState };

    ghost view = { λ t. t.items.items };
}

impl Channels {
    /// None was touched.
    pub(crate) fn new(alloc: Global) -> Channels
        ensures { result ≡ [] }
    {
        Channels {
            items: Vec::new(alloc),
        }
    }

    /// None was touched.
    pub(crate) fn clear(&mut self)
        ensures { self.new ≡ [] }
    {
        self.items.clear();
    }

    /// All sixteen after `Spi_Init`.
    pub(crate) fn initialise(&mut self, alloc: Global, table: &SpiTable) -> Result<(), AllocError>
        ensures { IfOk result (λ _. self.new ≡ initialised_in table.now self.old) }
    {
        grow(alloc, &mut self.items, 15)?;
        self.items.truncate(16);
        for number in 0..16_u32 {
            self.items[number as usize].initialise(table.channel(number))?;
        }
        Ok(())
    }

    /// After `Spi_WriteIB` of a channel.
    pub(crate) fn write(
        &mut self,
        alloc: Global,
        number: u32,
        pointer: Pointer,
        channel: Option<Channel>,
    ) -> Result<(), AllocError>
        ensures { IfOk result (λ _. self.new ≡ with_item spec.untouched self.old number (spec.written_from pointer channel (at self.old number))) }
    {
        let place = number as usize;
        grow(alloc, &mut self.items, place)?;
        self.items[place].write(alloc, pointer, channel)
    }

    /// After `Spi_SetupEB` of a channel.
    pub(crate) fn set_up(
        &mut self,
        alloc: Global,
        number: u32,
        set_up: SetUp,
    ) -> Result<(), AllocError>
        ensures { IfOk result (λ _. self.new ≡ with_item spec.untouched self.old number (record (at self.old number) { set_up = Some (set_up_as set_up) })) }
    {
        let place = number as usize;
        grow(alloc, &mut self.items, place)?;
        self.items[place].set_up(set_up);
        Ok(())
    }

    /// After a fill of a user's source array.
    pub(crate) fn fill(
        &mut self,
        alloc: Global,
        number: u32,
        words: &[u32],
        channel: Option<Channel>,
    ) -> Result<(), AllocError>
        ensures { IfOk result (λ _. self.new ≡ with_item spec.untouched self.old number (spec.filled words.now channel (at self.old number))) }
    {
        let place = number as usize;
        grow(alloc, &mut self.items, place)?;
        self.items[place].fill(words, channel)
    }

    /// A word that came in is taken: one that goes to the user's array is stored there.
    pub(crate) fn store(
        &mut self,
        alloc: Global,
        word: JobWord,
        value: u32,
    ) -> Result<(), AllocError>
        ensures { IfOk result (λ _. self.new ≡ stored_in self.old (word_as word) (goes_as word.goes) value) }
    {
        match word.goes {
            Goes::ToDestination => self.store_at(alloc, word, value),
            Goes::ToChannel => Ok(()),
            Goes::Nowhere => Ok(()),
        }
    }

    /// A word that came in is stored in the user's array.
    fn store_at(&mut self, alloc: Global, word: JobWord, value: u32) -> Result<(), AllocError>
        ensures { IfOk result (λ _. self.new ≡ stored_in self.old (word_as word) transfers.ToDestination value) }
    {
        let number = word.channel as usize;
        grow(alloc, &mut self.items, number)?;
        self.items[number].store(word.place, value)
    }

    /// A word that came in, as its job ends well: one that goes to an internal channel may be read.
    fn keep(&mut self, alloc: Global, word: JobWord, value: u32) -> Result<(), AllocError>
        ensures { IfOk result (λ _. self.new ≡ kept_in self.old (word_as word) (goes_as word.goes) value) }
    {
        match word.goes {
            Goes::ToDestination => Ok(()),
            Goes::ToChannel => self.keep_at(alloc, word, value),
            Goes::Nowhere => Ok(()),
        }
    }

    /// A word that came in may be read of its channel.
    fn keep_at(&mut self, alloc: Global, word: JobWord, value: u32) -> Result<(), AllocError>
        ensures { IfOk result (λ _. self.new ≡ kept_in self.old (word_as word) transfers.ToChannel value) }
    {
        let number = word.channel as usize;
        grow(alloc, &mut self.items, number)?;
        self.items[number].keep(word.place, value)
    }

    /// All words of a job that ends well.
    fn keep_all(
        &mut self,
        alloc: Global,
        words: &[JobWord],
        values: &[u32],
    ) -> Result<(), AllocError>
        ensures { IfOk result (λ _. self.new ≡ kept_all self.old (map word_as words.now) values.now) }
    {
        for place in 0..words.len().min(values.len()) {
            self.keep(alloc, words[place], values[place])?;
        }
        Ok(())
    }

    /// The last word of a run that ends well is taken, and what came in may be read.
    pub(crate) fn take_last(&mut self, alloc: Global, run: Run) -> Result<(), AllocError>
        ensures { IfOk result (λ _. self.new ≡ last_taken self.old run) }
    {
        self.store(alloc, run.word(), run.incoming())?;
        let mut run = run;
        run.take_in()?;
        self.keep_all(alloc, run.words(), run.received())
    }

    /// A channel's words as they stand come behind those of a job.
    fn push_to(
        &self,
        alloc: Global,
        number: u8,
        channel: Option<Channel>,
        words: &mut Vec<JobWord>,
    ) -> Result<(), AllocError>
        ensures { IfOk result (λ _. map word_as words.new.items ≡ map word_as words.old.items ++ channel_words number channel (at self.now number)) }
    {
        match channel {
            Some(channel) => self.push_as(alloc, number, channel, words),
            None => Ok(()),
        }
    }

    /// The same, of a configured channel.
    fn push_as(
        &self,
        alloc: Global,
        number: u8,
        channel: Channel,
        words: &mut Vec<JobWord>,
    ) -> Result<(), AllocError>
        ensures { IfOk result (λ _. map word_as words.new.items ≡ map word_as words.old.items ++ channel_words number (Some channel) (at self.now number)) }
    {
        let place = number as usize;
        if place < self.items.len() {
            self.items[place].push_to(alloc, number, channel, words)
        } else {
            let untouched = Buffers::new(alloc);
            untouched.push_to(alloc, number, channel, words)
        }
    }

    /// The words of a job as its channels stand.
    pub(crate) fn job_words(
        &self,
        alloc: Global,
        table: &SpiTable,
        job: u32,
    ) -> Result<Vec<JobWord>, AllocError>
        ensures { IfOk result (λ words. map word_as words.items ≡ words_of table.now self.now job) }
    {
        let list = channel_list(table, job);
        let mut words = Vec::new(alloc);
        for number in channels_listed(&list) {
            self.push_to(alloc, *number, table.channel(*number as u32), &mut words)?;
        }
        Ok(words)
    }

    /// The words that may be read of a channel, of at most 64.
    pub(crate) fn readable(&self, alloc: Global, number: u32, channel: Option<Channel>) -> Words
        requires { length_by channel ≤ 64 }
        ensures { result ≡ first_items 0 (length_by channel) (at self.now number).received }
    {
        let place = number as usize;
        if place < self.items.len() {
            self.items[place].readable(channel)
        } else {
            let untouched = Buffers::new(alloc);
            untouched.readable(channel)
        }
    }

    /// A word of a user's source array.
    pub(crate) fn source(&self, number: u32, place: u32) -> u32
        ensures { result ≡ word_at (at self.now number).source place }
    {
        let channel = number as usize;
        if channel < self.items.len() {
            self.items[channel].source(place as usize)
        } else {
            0
        }
    }

    /// A word of a user's destination array.
    pub(crate) fn destination(&self, number: u32, place: u32) -> u32
        ensures { result ≡ word_at (at self.now number).destination place }
    {
        let channel = number as usize;
        if channel < self.items.len() {
            self.items[channel].destination(place as usize)
        } else {
            0
        }
    }

    /// A word of an internal channel: of those that may be read, or of those that are sent.
    pub(crate) fn internal(&self, number: u32, received: bool, place: u32) -> u32
        ensures { result ≡ word_at (if received then (at self.now number).received else (at self.now number).written) place }
    {
        let channel = number as usize;
        if channel < self.items.len() {
            self.items[channel].internal(received, place as usize)
        } else {
            0
        }
    }
}

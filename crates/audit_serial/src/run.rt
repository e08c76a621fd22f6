ghost use Rattle.std.specs.Prelude.{◌≡◌, [], IfOk, map, slice_index_or};
ghost use Rattle.spi_machine.specs.Transfers as spec;
ghost use Rattle.audit_serial.specs.Words.{transfer_as, word_as};

use crate::words::{JobWord, NO_WORD, Transfer};
use std::alloc::{AllocError, Global};
use std::marker::Model;

/// A running job: its sequence, its words, what came in with those before the one in transfer, and that one.
#[derive(Drop)]
pub struct Run {
    sequence: u32,
    words: Vec<JobWord>,
    received: Vec<u32>,
    transfer: Transfer,
}

impl Model for Run {
    ghost use Rattle.std.specs.Prelude.{map};
    ghost use Rattle.spi_machine.specs.Transfers as spec;
    ghost use Rattle.audit_serial.specs.Words.{transfer_as, word_as};

    ghost Value = { spec.Run };

    ghost view = { λ t. record { sequence = t.sequence; words = map word_as t.words.items; received = t.received.items; transfer = transfer_as t.transfer } };
}

/// The word at a place of a job.
fn word_at(words: &[JobWord], place: usize) -> JobWord
    ensures { word_as result ≡ slice_index_or (map word_as words.now) place spec.no_word }
{
    if place < words.len() {
        words[place]
    } else {
        NO_WORD
    }
}

impl Run {
    /// The first word of a job begins.
    pub(crate) fn begun(
        alloc: Global,
        sequence: u32,
        words: Vec<JobWord>,
        received: u32,
        now: u64,
    ) -> Run
        ensures { result ≡ spec.begun now received sequence (map word_as words.items) [] }
    {
        let transfer = word_at(&words, 0).begins(received, now);
        Run {
            sequence,
            words,
            received: Vec::new(alloc),
            transfer,
        }
    }

    /// Its next word begins, and the one before it is taken.
    pub(crate) fn go_on(&mut self, sequence: u32, received: u32, now: u64) -> Result<(), AllocError>
        ensures { IfOk result (λ _. self.new ≡ spec.begun now received sequence self.old.words (spec.received_with self.old)) }
    {
        self.received.push(self.transfer.incoming)?;
        self.sequence = sequence;
        self.transfer = word_at(&self.words, self.received.len()).begins(received, now);
        Ok(())
    }

    /// Its last word is taken.
    pub(crate) fn take_in(&mut self) -> Result<(), AllocError>
        ensures { IfOk result (λ _. self.new ≡ record self.old { received = spec.received_with self.old }) }
    {
        self.received.push(self.transfer.incoming)?;
        Ok(())
    }

    /// Its word in transfer.
    pub(crate) fn word(&self) -> JobWord
        ensures { word_as result ≡ spec.word_of self.now }
    {
        word_at(&self.words, self.received.len())
    }

    /// What comes in with that word.
    pub(crate) fn incoming(&self) -> u32
        ensures { result ≡ self.now.transfer.incoming }
    {
        self.transfer.incoming
    }

    /// Its sequence.
    pub(crate) fn sequence(&self) -> u32
        ensures { result ≡ self.now.sequence }
    {
        self.sequence
    }

    /// Whether its word in transfer fails.
    pub(crate) fn has_failed(&self) -> bool
        ensures { result ≡ self.now.transfer.failed }
    {
        self.transfer.failed
    }

    /// Whether its word in transfer is done.
    pub(crate) fn is_done(&self, now: u64) -> bool
        ensures { result ≡ spec.is_done now self.now.transfer }
    {
        self.transfer.is_done(now)
    }

    /// Whether a further word of the job begins: the one in transfer hasn't failed and isn't the last one.
    pub(crate) fn goes_on(&self) -> bool
        ensures { result ≡ spec.goes_on self.now }
    {
        !self.transfer.failed && self.received.len() + 1 < self.words.len()
    }

    /// A fault comes on the wire.
    pub(crate) fn fault(&mut self, now: u64)
        ensures { self.new ≡ record self.old { transfer = spec.faulted now self.old.transfer } }
    {
        self.transfer = self.transfer.faulted(now);
    }

    /// Its words.
    pub(crate) fn words(&self) -> &[JobWord]
        ensures { map word_as result.now ≡ self.now.words }
    {
        &self.words
    }

    /// What came in with those before the one in transfer.
    pub(crate) fn received(&self) -> &[u32]
        ensures { result.now ≡ self.now.received }
    {
        &self.received
    }
}

//! The driver words, and what stands in them.

ghost use Rattle.std.specs.Prelude.{◌≡◌};
ghost use Rattle.spi_sequences.specs.Words as spec;

use mcal_base::AnswerName;
use word_shapes::{Places, Search};

/// The module's state: 0 uninitialised, 1 in polling mode, 2 in interrupt mode.
pub const STATE: u32 = 49_152;

/// The place of the next job of each sequence, four bits a sequence.
pub const NEXTS: u32 = 49_153;

/// The marks of sequences: bit q where sequence q has started, bit 8 + q where it is cancelled.
pub const MARKS: u32 = 49_154;

/// The bits of the lines of both units.
pub const LINES: u32 = 0x0C00_0000;

/// How many sequences and jobs there may be.
pub const SEQUENCES: u8 = 8;

pub const JOBS: u8 = 16;

/// The word of what a unit runs: 0 where it is free, else 1 more than the job and 16 times the sequence.
pub fn running_word(unit: u8) -> u32
    ensures { result ≡ spec.running_word unit }
{
    STATE + 8 + 8 * u32::from(unit)
}

/// The word of the place, in the running job of a unit, of the word in transfer.
pub fn position_word(unit: u8) -> u32
    ensures { result ≡ spec.position_word unit }
{
    STATE + 9 + 8 * u32::from(unit)
}

/// The words of the order of a unit's pending sequences, of which those wait that run no job.
pub fn order(unit: u8) -> Places
    ensures { result ≡ spec.order_places unit }
{
    let low = STATE + 10 + 8 * u32::from(unit);
    Places {
        low,
        high: low + 1,
        tally: low + 2,
    }
}

/// A look at the order of a unit, from the beginning.
pub fn search(unit: u8) -> Search
    ensures { result ≡ spec.search_of unit }
{
    Search::Tally(order(unit))
}

/// The word of the result of a job's last run: 0 where it was good, 1 where it failed.
pub fn job_word(job: u8) -> u32
    ensures { result ≡ spec.job_word job }
{
    STATE + 24 + u32::from(job)
}

/// The word of the result of a sequence.
pub fn sequence_word(sequence: u8) -> u32
    ensures { result ≡ spec.sequence_word sequence }
{
    STATE + 40 + u32::from(sequence)
}

/// A pending sequence, in its word.
pub const PENDING: u32 = 1;

/// A failed sequence and a cancelled one, in their words.
pub const FAILED: u32 = 2;

pub const CANCELLED: u32 = 3;

/// The result of a sequence, by its word.
pub fn sequence_result(word: u32) -> AnswerName
    ensures { result ≡ spec.sequence_result_in word }
{
    match word {
        0 => AnswerName::SpiSeqOk,
        1 => AnswerName::SpiSeqPending,
        2 => AnswerName::SpiSeqFailed,
        _ => AnswerName::SpiSeqCanceled,
    }
}

/// The result of a job that isn't pending, by its word.
pub fn job_result(word: u32) -> AnswerName
    ensures { result ≡ spec.job_result_in word }
{
    if word == 0 {
        AnswerName::SpiJobOk
    } else {
        AnswerName::SpiJobFailed
    }
}

/// What a unit runs.
#[derive(Clone, Copy)]
pub struct Running {
    /// The job.
    pub job: u8,
    /// Its sequence.
    pub sequence: u8,
}

impl Running {
    /// As a driver word has it.
    pub fn packed(self) -> u32
        ensures { result ≡ spec.packed_run self }
    {
        1 + u32::from(self.job) + 16 * u32::from(self.sequence)
    }

    /// What a driver word has.
    pub fn unpacked(word: u32) -> Option<Running>
        ensures { result ≡ spec.run_in word }
    {
        if word == 0 {
            return None;
        }
        Some(Running {
            job: ((word - 1) % 16) as u8,
            sequence: ((word - 1) / 16 % 8) as u8,
        })
    }
}

/// The place of a word in its job: that of its channel, and its own in the channel.
#[derive(Clone, Copy)]
pub struct Position {
    /// The place of the channel in the job.
    pub channel: u8,
    /// The place in the channel.
    pub word: u8,
}

impl Position {
    /// As a driver word has it.
    pub fn packed(self) -> u32
        ensures { result ≡ spec.packed_position self }
    {
        u32::from(self.channel) + 4 * u32::from(self.word)
    }

    /// What a driver word has.
    pub fn unpacked(word: u32) -> Position
        ensures { result ≡ spec.position_in word }
    {
        Position {
            channel: (word % 4) as u8,
            word: (word / 4 % 256) as u8,
        }
    }
}

/// The place of a sequence's next job.
pub fn next_of(nexts: u32, sequence: u8) -> u8
    ensures { result ≡ spec.next_in nexts sequence }
{
    ((nexts >> (4 * u32::from(sequence % 8))) % 16) as u8
}

/// The places of the next jobs, with this one for a sequence.
pub fn with_next(nexts: u32, sequence: u8, place: u8) -> u32
    ensures { result ≡ spec.with_next_in nexts sequence place }
{
    let at = 4 * u32::from(sequence % 8);
    nexts & !(15 << at) | (u32::from(place % 16) << at)
}

/// The mark of a sequence that has started.
pub fn started_bit(sequence: u8) -> u32
    ensures { result ≡ spec.started_bit sequence }
{
    1 << u32::from(sequence % 8)
}

/// The mark of a cancelled sequence.
pub fn cancelled_bit(sequence: u8) -> u32
    ensures { result ≡ spec.cancelled_bit sequence }
{
    1 << (8 + u32::from(sequence % 8))
}

/// Whether a mark stands.
pub fn has(marks: u32, bit: u32) -> bool
    ensures { result ≡ spec.has_mark marks bit }
{
    marks & bit != 0
}

/// The marks without those of a sequence.
pub fn unmarked(marks: u32, sequence: u8) -> u32
    ensures { result ≡ spec.unmarked_in marks sequence }
{
    marks & !(started_bit(sequence) | cancelled_bit(sequence))
}

ghost use Rattle.std.specs.Prelude.{◌≡◌, ◌++◌, IfOk, map};
ghost use Rattle.spi_machine.specs.Transfers as spec;
ghost use Rattle.audit_serial.specs.Words.{goes_as, transfer_as, word_as};

use std::alloc::AllocError;

/// Where a word that comes in goes.
#[derive(Clone, Copy)]
pub enum Goes {
    /// To the user's destination array, as it is taken.
    ToDestination,
    /// To the received words of its internal channel, as its job ends well.
    ToChannel,
    /// Nowhere.
    Nowhere,
}

/// A word of a job.
#[derive(Clone, Copy)]
pub struct JobWord {
    /// Its channel.
    pub channel: u8,
    /// Its place there.
    pub place: usize,
    /// The channel's width in bits.
    pub width: u8,
    /// What is sent.
    pub sent: u32,
    /// Where what comes in goes.
    pub goes: Goes,
}

/// A word in transfer.
#[derive(Clone, Copy)]
pub struct Transfer {
    /// When it began, in peripheral ticks.
    pub began: u64,
    /// What comes in.
    pub incoming: u32,
    /// Whether it fails.
    pub failed: bool,
}

/// What the device answers where it refuses.
const REFUSED: u32 = 65_536;

/// A word that no job has.
pub(crate) const NO_WORD: JobWord = JobWord {
    channel: 0,
    place: 0,
    width: 0,
    sent: 0,
    goes: Goes::Nowhere,
};

/// A word, masked to a width.
pub(crate) fn masked(width: u8, word: u32) -> u32
    ensures { result ≡ spec.masked width word }
{
    if width < 32 {
        word % (1 << width)
    } else {
        word
    }
}

impl JobWord {
    /// It begins now, and this comes in.
    pub(crate) fn begins(self, received: u32, now: u64) -> Transfer
        ensures { transfer_as result ≡ spec.begins now received (word_as self) }
    {
        Transfer {
            began: now,
            incoming: masked(self.width, received),
            failed: received == REFUSED,
        }
    }

    /// What the wire shows as coming in.
    pub(crate) fn shown(self, received: u32) -> u32
        ensures { result ≡ spec.shown self.width received }
    {
        if received == REFUSED {
            REFUSED
        } else {
            masked(self.width, received)
        }
    }
}

impl Transfer {
    /// Whether the word is done: 8 ticks have passed since it began.
    pub(crate) fn is_done(self, now: u64) -> bool
        ensures { result ≡ spec.is_done now (transfer_as self) }
    {
        self.began <= now && now - self.began >= 8
    }

    /// After a fault on the wire.
    pub(crate) fn faulted(self, now: u64) -> Transfer
        ensures { transfer_as result ≡ spec.faulted now (transfer_as self) }
    {
        if self.is_done(now) {
            self
        } else {
            Transfer {
                failed: true,
                ..self
            }
        }
    }
}

/// These values of a channel stand behind the words of a job.
pub(crate) fn push_words(
    words: &mut Vec<JobWord>,
    channel: u8,
    width: u8,
    goes: Goes,
    values: &[u32],
) -> Result<(), AllocError>
    ensures { IfOk result (λ _. map word_as words.new.items ≡ map word_as words.old.items ++ spec.as_words channel width (goes_as goes) values.now) }
{
    for place in 0..values.len() {
        let sent = masked(width, values[place]);
        words.push(JobWord {
            channel,
            place,
            width,
            sent,
            goes,
        })?;
    }
    Ok(())
}

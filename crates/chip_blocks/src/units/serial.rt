ghost use Rattle.std.specs.Prelude.{◌≡◌, ◌<◌, ◌≤◌, ◌+◌, ℕ};
ghost use Rattle.chip_blocks.specs.units.Serials.{idle, left as left_of, HasBegun, masked as masked_of, refused, is_done_at, is_busy, is_done, is_failed, received as received_of, state as state_of, begun, faulted, acknowledged, outgoing as outgoing_of};

/// How many peripheral ticks a word takes.
const WORD: u64 = 8;

/// The incoming word of an exchange that the device refused.
const REFUSED: u32 = 65_536;

/// A word that was begun and not acknowledged.
#[derive(Clone, Copy)]
pub struct Word {
    /// When it began.
    pub start: u64,
    /// The word that comes in, masked by the width that stood there.
    pub incoming: u32,
    /// Whether it will end, or has ended, as failed.
    pub failed: bool,
}

/// A unit.
#[derive(Clone, Copy)]
pub struct Serial {
    /// `S<u>.SELECT`
    pub select: u32,
    /// `S<u>.WIDTH`
    pub width: u32,
    /// The last word that ended without failing before the one that stands below.
    pub received: u32,
    /// The word begun last, until it is acknowledged.
    pub word: Option<Word>,
}

impl Word {
    fn done(&self, now: u64) -> bool
        ensures { result ≡ is_done_at self.now now }
    {
        WORD <= now.saturating_sub(self.start)
    }
}

impl Serial {
    /// A unit as after a reset.
    pub fn new() -> Serial
        ensures { result ≡ idle }
    {
        Serial {
            select: 0,
            width: 0,
            received: 0,
            word: None,
        }
    }

    /// Whether a word is in transfer.
    pub fn busy(&self, now: u64) -> bool
        ensures { result ≡ is_busy self.now now }
    {
        match self.word {
            Some(word) => !word.done(now),
            None => false,
        }
    }

    /// The peripheral ticks that the word in transfer still needs, 0 without one.
    pub fn left(&self, now: u64) -> u64
        ensures left { result ≡ left_of self.now now }
        ensures few { result ≤ 8 }
        ensures over { (n : ℕ) → HasBegun now self.now.word → result ≤ n → left_of self.now (now + n) ≡ 0 }
    {
        match self.word {
            Some(word) => WORD.saturating_sub(now.saturating_sub(word.start)),
            None => 0,
        }
    }

    /// Whether a word has ended and wasn't acknowledged.
    pub fn done(&self, now: u64) -> bool
        ensures { result ≡ is_done self.now now }
    {
        match self.word {
            Some(word) => word.done(now),
            None => false,
        }
    }

    fn failed(&self, now: u64) -> bool
        ensures { result ≡ is_failed self.now now }
    {
        match self.word {
            Some(word) => word.done(now) && word.failed,
            None => false,
        }
    }

    /// `S<u>.RX`
    pub fn received(&self, now: u64) -> u32
        ensures { result ≡ received_of self.now now }
    {
        match self.word {
            Some(word) if word.done(now) && !word.failed => word.incoming,
            _ => self.received,
        }
    }

    /// `S<u>.STATE`
    pub fn state(&self, now: u64) -> u32
        ensures { result ≡ state_of self.now now }
    {
        u32::from(self.busy(now)) + 2 * u32::from(self.done(now)) + 4 * u32::from(self.failed(now))
    }

    /// The word that is sent for one that is written.
    pub fn outgoing(&self, sent: u32) -> u32
        ensures { result ≡ outgoing_of self.now sent }
    {
        masked(self.width, sent)
    }

    /// Begins a word. One that is still in transfer is dropped.
    pub fn begin(&mut self, incoming: u32, now: u64)
        ensures begun { self.new ≡ begun incoming now self.old }
        ensures word { HasBegun now self.new.word }
    {
        self.received = self.received(now);
        self.word = Some(Word {
            start: now,
            incoming: masked(self.width, incoming),
            failed: incoming == REFUSED,
        });
    }

    /// Makes a word in transfer fail.
    pub fn fault(&mut self, now: u64)
        ensures fault { self.new ≡ faulted now self.old }
        ensures word { HasBegun now self.old.word → HasBegun now self.new.word }
    {
        if let Some(word) = self.word {
            if !word.done(now) {
                self.word = Some(Word {
                    start: word.start,
                    incoming: word.incoming,
                    failed: true,
                });
            }
        }
    }

    /// Clears done and failed.
    pub fn acknowledge(&mut self, now: u64)
        ensures acknowledged { self.new ≡ acknowledged now self.old }
        ensures word { HasBegun now self.old.word → HasBegun now self.new.word }
    {
        if self.done(now) {
            self.received = self.received(now);
            self.word = None;
        }
    }
}

/// A word, masked by a width.
fn masked(width: u32, word: u32) -> u32
    ensures { result ≡ masked_of width word }
{
    word % (1 << width.min(16))
}

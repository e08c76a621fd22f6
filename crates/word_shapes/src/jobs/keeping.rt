ghost use Rattle.std.specs.Prelude.{◌≡◌};
ghost use Rattle.word_shapes.specs.jobs.Parts as spec;

use crate::jobs::banks::{bank_of, free};
use crate::jobs::channel::{Placed, Side};
use crate::jobs::set_up::SetUp;
use mcal_base::Move;

/// Where a word that comes in goes.
#[derive(Clone, Copy)]
pub enum Taker {
    /// To this bank of received words.
    Bank(u8),
    /// By this set-up.
    SetUp(SetUp),
}

/// A word that came in is kept: of an internal channel in the bank that takes its received words, of an external one in its
/// destination, or nowhere.
#[derive(Clone, Copy)]
pub enum Keep {
    /// It holds the bank that was chosen, and then fills in the word, which is the channel's first.
    Hold(Placed, u8, u32),
    /// It fills in the word of this place of this bank.
    Fill(Placed, u8, u8, u32),
    /// It stores the word in this place of the destination.
    Store(Placed, u8, u32),
    /// It loads what doesn't count: the word is dropped.
    Drop(Placed),
}

impl Keep {
    /// The beginning, for a word of a channel by its place there.
    pub fn of(placed: Placed, place: u8, taker: Taker, word: u32) -> Keep
        ensures { result ≡ spec.keeping placed place taker word }
    {
        match taker {
            Taker::Bank(bank) if place == 0 => Keep::Hold(placed, bank, word),
            Taker::Bank(bank) => Keep::Fill(placed, place, bank, word),
            Taker::SetUp(set_up) if set_up.destination => Keep::Store(placed, place, word),
            Taker::SetUp(_) => Keep::Drop(placed),
        }
    }

    /// The next move.
    pub fn next(&self) -> Move
        ensures { result ≡ spec.keep_move self.now }
    {
        match self {
            Keep::Hold(placed, bank, _) => Move::Store(placed.held(), u32::from(*bank)),
            Keep::Fill(placed, place, bank, word) => {
                Move::Store(placed.word(Side::Received, *bank, *place), *word)
            }
            Keep::Store(placed, place, word) => Move::Store(placed.destination(*place), *word),
            Keep::Drop(placed) => Move::Load(placed.held()),
        }
    }

    /// Takes that the move was made, and tells whether it was the last one.
    pub fn took(&mut self) -> bool
        ensures state { self.new ≡ spec.keep_left self.old }
        ensures ended { result ≡ spec.keep_ends self.old }
    {
        match self {
            Keep::Hold(placed, bank, word) => {
                *self = Keep::Fill(*placed, 0, *bank, *word);
                false
            }
            Keep::Fill(..) | Keep::Store(..) | Keep::Drop(_) => true,
        }
    }
}

/// The load that tells where a word that came in goes: the control word of an internal channel, of which a bank is chosen
/// for its first word, and else the word that the job holds.
pub fn asked(placed: Placed, place: u8) -> Move
    ensures { result ≡ spec.asking placed place }
{
    if placed.channel.internal && place == 0 {
        Move::Load(placed.control(Side::Received))
    } else {
        Move::Load(placed.held())
    }
}

/// Where the word goes, by what that load gave.
pub fn taker_of(placed: Placed, place: u8, value: u32) -> Taker
    ensures { result ≡ spec.taker_of placed place value }
{
    if !placed.channel.internal {
        Taker::SetUp(SetUp::unpacked(value))
    } else if place == 0 {
        Taker::Bank(free(value))
    } else {
        Taker::Bank(bank_of(value))
    }
}

ghost use Rattle.std.specs.Prelude.{◌≡◌};

use crate::part::{gives, gives_nothing, goes};
use mcal_base::{Move, Routine, Taken};

/// A part of a take.
#[derive(Clone, Copy)]
pub enum TakePart {
    /// Pins the newest bank and gives its number.
    Pin,
    /// Gives the word of this bank at this index.
    Word(u32, u32),
    /// Ends the pin.
    Release,
}

/// A part of a take, under way.
#[derive(Clone, Copy)]
pub enum Take {
    /// It loads the control word.
    Pin(u32),
    /// It stores the control word, which pins the newest bank.
    Hold(u32, u32, u32),
    /// It loads a word and gives it.
    Word(u32),
    /// It loads the control word.
    Release(u32),
    /// It stores the control word, which tells the newest bank alone.
    Free(u32, u32),
}

impl Routine for Take {
    ghost use Rattle.word_shapes.specs.TripleBuffer.{take_move, take_left, take_gave};

    ghost move_of = { take_move };

    ghost left = { take_left };

    ghost gave = { take_gave };

    fn next(&self) -> Move {
        match *self {
            Take::Pin(control) => Move::Load(control),
            Take::Hold(control, value, _) => Move::Store(control, value),
            Take::Word(word) => Move::Load(word),
            Take::Release(control) => Move::Load(control),
            Take::Free(control, bank) => Move::Store(control, bank),
        }
    }

    fn took(&mut self, value: u32) -> Taken {
        match *self {
            Take::Pin(control) => {
                let newest = value % 4;
                *self = Take::Hold(control, newest + 4 * (newest + 1), newest);
                goes()
            }
            Take::Hold(_, _, bank) => gives(bank),
            Take::Word(_) => gives(value),
            Take::Release(control) => {
                *self = Take::Free(control, value % 4);
                goes()
            }
            Take::Free(_, _) => gives_nothing(),
        }
    }
}

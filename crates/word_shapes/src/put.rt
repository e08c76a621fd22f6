ghost use Rattle.std.specs.Prelude.{◌≡◌};
ghost use Rattle.word_shapes.specs.TripleBuffer as spec;

use crate::part::{gives, gives_nothing, goes};
use mcal_base::{Move, Routine, Taken};

/// A part of a put.
#[derive(Clone, Copy)]
pub enum PutPart {
    /// Gives a bank that is neither newest nor pinned.
    Choose,
    /// Stores in this bank at this index this value.
    Fill(u32, u32, u32),
    /// Makes this bank the newest.
    Commit(u32),
}

/// A part of a put, under way.
#[derive(Clone, Copy)]
pub enum Put {
    /// It loads the control word and gives a bank.
    Choose(u32),
    /// It stores a value in a word.
    Fill(u32, u32),
    /// It loads the control word.
    Commit(u32, u32),
    /// It stores the control word.
    Tell(u32, u32),
}

/// The first bank that is neither newest nor pinned.
fn free(control: u32) -> u32
    ensures { result ≡ spec.free control }
{
    if !used(control, 0) {
        0
    } else if !used(control, 1) {
        1
    } else {
        2
    }
}

/// Whether a bank is newest or pinned.
fn used(control: u32, bank: u32) -> bool
    ensures { result ≡ spec.used control bank }
{
    control % 4 == bank || control / 4 > 0 && control / 4 - 1 == bank
}

impl Routine for Put {
    ghost use Rattle.word_shapes.specs.TripleBuffer.{put_move, put_left, put_gave};

    ghost move_of = { put_move };

    ghost left = { put_left };

    ghost gave = { put_gave };

    fn next(&self) -> Move {
        match *self {
            Put::Choose(control) => Move::Load(control),
            Put::Fill(word, value) => Move::Store(word, value),
            Put::Commit(control, _) => Move::Load(control),
            Put::Tell(control, value) => Move::Store(control, value),
        }
    }

    fn took(&mut self, value: u32) -> Taken {
        match *self {
            Put::Choose(_) => gives(free(value)),
            Put::Fill(_, _) => gives_nothing(),
            Put::Commit(control, bank) => {
                *self = Put::Tell(control, bank % 4 + 4 * (value / 4));
                goes()
            }
            Put::Tell(_, _) => gives_nothing(),
        }
    }
}

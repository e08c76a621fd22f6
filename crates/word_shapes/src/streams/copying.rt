ghost use Rattle.std.specs.Prelude.{◌≡◌};
ghost use Rattle.word_shapes.specs.streams.Copying as spec;
ghost use Rattle.mcal_base.specs.declared.moves.Move.TheVariants.{Store};

use crate::streams::column::Column;
use crate::streams::rounds::{Bank, Rounds};
use mcal_base::{Move, Reg};

/// What is copied, and where to.
#[derive(Clone, Copy)]
pub enum Copied {
    /// A unit's round to a bank of the group: first so many values that were kept of it, and then its results.
    Round(Rounds, u8, u8, Bank),
    /// A bank to the round's places in a user's buffer.
    Bank(Rounds, Bank, Column),
    /// The first so many results of a unit's aborted round, to the kept values from this one on.
    Ended(Rounds, u8, u8, u8),
}

impl Copied {
    /// How many values are copied.
    fn count(&self) -> u8
        ensures { result ≡ spec.count_of self.now }
    {
        match *self {
            Copied::Round(rounds, ..) | Copied::Bank(rounds, ..) => rounds.inputs,
            Copied::Ended(_, _, count, _) => count,
        }
    }

    /// The move that gets a value.
    fn from(&self, at: u8) -> Move
        ensures { result ≡ spec.gets self.now at }
    {
        match *self {
            Copied::Round(rounds, unit, kept, _) => {
                if at < kept {
                    Move::Load(rounds.kept_word(at))
                } else {
                    Move::Read(Reg::ConverterResult(unit, at - kept))
                }
            }
            Copied::Bank(rounds, bank, _) => Move::Load(rounds.bank_word(bank, at)),
            Copied::Ended(_, unit, ..) => Move::Read(Reg::ConverterResult(unit, at)),
        }
    }

    /// The move that puts it.
    fn to(&self, at: u8, value: u32) -> Move
        ensures { result ≡ Store (spec.word_for self.now at) value }
    {
        let word = match *self {
            Copied::Round(rounds, _, _, bank) => rounds.bank_word(bank, at),
            Copied::Bank(_, _, column) => column.word(at),
            Copied::Ended(rounds, _, _, kept) => rounds.kept_word(sum(kept, at)),
        };
        Move::Store(word, value)
    }
}

/// The sum of two places, which there are at most 32 of.
fn sum(kept: u8, at: u8) -> u8
    ensures { result ≡ spec.place_sum kept at }
{
    if kept < 128 && at < 128 { kept + at } else { 0 }
}

/// Values that are copied one by one, each by two moves, with the mask open.
#[derive(Clone, Copy)]
pub struct Copying {
    /// What is copied.
    pub what: Copied,
    /// How many values have been copied.
    pub done: u8,
    /// The next value, where the move that gets it was made.
    pub value: Option<u32>,
}

impl Copying {
    /// The copying of all values, none where there are no values.
    pub fn of(what: Copied) -> Option<Copying>
        ensures { result ≡ spec.copying what }
    {
        if what.count() == 0 {
            None
        } else {
            Some(Copying {
                what,
                done: 0,
                value: None,
            })
        }
    }

    /// Its next move.
    pub fn next(&self) -> Move
        ensures { result ≡ spec.copy_move self.now }
    {
        match self.value {
            None => self.what.from(self.done),
            Some(value) => self.what.to(self.done, value),
        }
    }

    /// What follows the move that gave this value, none where all values have been copied.
    pub fn after(self, value: u32) -> Option<Copying>
        ensures { result ≡ spec.copy_after self value }
    {
        match self.value {
            None => Some(Copying {
                value: Some(value),
                ..self
            }),
            Some(_) if self.done < self.what.count() && self.done + 1 < self.what.count() => {
                Some(Copying {
                    what: self.what,
                    done: self.done + 1,
                    value: None,
                })
            }
            Some(_) => None,
        }
    }
}

ghost use Rattle.std.specs.Prelude.{◌≡◌};
ghost use Rattle.word_shapes.specs.streams.Copying as spec;

use crate::streams::rounds::{Bank, Rounds};
use mcal_base::{Move, Short};

/// A bank that is read one value after the other, with the mask open.
#[derive(Drop)]
pub struct Reading {
    /// Where the group's rounds stand.
    pub rounds: Rounds,
    /// The bank.
    pub bank: Bank,
    /// The values that have been read.
    pub values: Short<u32, 32>,
}

impl Reading {
    /// Its next move.
    pub fn next(&self) -> Move
        ensures { result ≡ spec.read_move self.now }
    {
        Move::Load(self.rounds.bank_word(self.bank, self.values.len() as u8))
    }

    /// Takes what the move gave, and tells whether all values have been read.
    pub fn took(&mut self, value: u32) -> bool
        ensures state { self.new ≡ spec.read_more self.old value }
        ensures over { result ≡ spec.has_read self.new }
    {
        if self.values.len() < 32 {
            self.values.push(value);
        }
        self.values.len() >= usize::from(self.rounds.inputs) || self.values.len() >= 32
    }
}

ghost use Rattle.std.specs.Prelude.{◌≡◌, ◌+◌, ◌*◌, ◌<◌, ◌≤◌, ◌≢◌};
ghost use Rattle.mcal_base.specs.declared.TheConstants.{WORDS};
ghost use Rattle.word_shapes.specs.Banks.{Banks};
ghost use Rattle.word_shapes.specs.Playing.{Memory};
ghost use Rattle.word_shapes.specs.TripleBuffer as spec;

use crate::put::{Put, PutPart};
use crate::take::{Take, TakePart};

/// Three banks of words in driver words, and one control word, which tells the newest bank and the pinned one. Words
/// that are 0 stand for banks of which the first is newest and none is pinned. At most one put and one take are open,
/// a put fills its bank in the order of the indexes, and nothing but these routines stores to the words. `Commit`,
/// `Pin` and `Release` are each made in one window.
#[derive(Clone, Copy)]
pub struct TripleBuffer {
    /// The number of the first word of the banks.
    pub banks: u32,
    /// The number of the control word.
    pub control: u32,
    /// The number of words of a bank.
    pub len: u32,
}

impl TripleBuffer {
    /// A part of a put. `Choose` gives a bank that is neither newest nor pinned, `Fill` stores one word of it, and
    /// `Commit` makes it the newest. A put that isn't committed puts nothing.
    pub fn put(&self, part: PutPart) -> Put
        requires fits { spec.Fits self.now }
        requires part { spec.IsPut self.now part }
        ensures starts { result ≡ spec.put_start self.now part }
        ensures puts { (m : Memory) (s : Banks) → spec.Stands self.now m s → spec.Puts self.now part result m s }
    {
        match part {
            PutPart::Choose => Put::Choose(self.control),
            PutPart::Fill(bank, index, value) => Put::Fill(self.word(bank, index), value),
            PutPart::Commit(bank) => Put::Commit(self.control, bank),
        }
    }

    /// A part of a take. `Pin` pins the newest bank and gives its number, `Word` gives one of its words, and `Release`
    /// ends the pin.
    pub fn take(&self, part: TakePart) -> Take
        requires fits { spec.Fits self.now }
        requires part { spec.IsTake self.now part }
        ensures starts { result ≡ spec.take_start self.now part }
        ensures takes { (m : Memory) (s : Banks) → spec.Stands self.now m s → spec.Takes self.now part result m s }
    {
        match part {
            TakePart::Pin => Take::Pin(self.control),
            TakePart::Word(bank, index) => Take::Word(self.word(bank, index)),
            TakePart::Release => Take::Release(self.control),
        }
    }

    /// The number of a bank's word.
    fn word(&self, bank: u32, index: u32) -> u32
        requires fits { spec.Fits self.now }
        requires bank { bank < 3 }
        requires index { index < self.now.len }
        ensures { result ≡ spec.word_at self.now bank index }
    {
        self.banks + bank * self.len + index
    }
}

ghost use Rattle.std.specs.Prelude.{◌≡◌, ◌<◌};
ghost use Rattle.word_shapes.specs.TripleBuffer.{Fits};
ghost use Rattle.word_shapes.specs.streams.Rounds as spec;

use crate::TripleBuffer;

/// The first driver word of the module.
pub const FIRST: u32 = 40_960;

/// One of the three banks of a group.
#[derive(Clone, Copy)]
pub enum Bank {
    /// Bank 0.
    Zero,
    /// Bank 1.
    One,
    /// Bank 2.
    Two,
}

impl Bank {
    /// The bank of a number.
    pub fn of(number: u32) -> Bank
        ensures { result ≡ spec.bank_of number }
    {
        if number == 0 {
            Bank::Zero
        } else if number == 1 {
            Bank::One
        } else {
            Bank::Two
        }
    }

    /// Its number.
    pub fn number(self) -> u32
        ensures is { result ≡ spec.bank_number self }
        ensures few { result < 3 }
    {
        match self {
            Bank::Zero => 0,
            Bank::One => 1,
            Bank::Two => 2,
        }
    }
}

/// Where the rounds of a group stand among its words: three banks of a word an input, of which one is the newest round, and
/// after them the values that are kept of a round that was suspended.
#[derive(Clone, Copy)]
pub struct Rounds {
    /// The first word of the group, counted from the module's first one.
    pub start: u16,
    /// How many inputs the group has.
    pub inputs: u8,
}

impl Rounds {
    /// The three banks, with the word that tells which one is the newest, and which one is read.
    pub fn trio(&self) -> TripleBuffer
        ensures is { result ≡ spec.trio_of self.now }
        ensures fits { Fits result }
    {
        TripleBuffer {
            banks: self.banks(),
            control: FIRST + u32::from(self.start) + 7,
            len: u32::from(self.inputs),
        }
    }

    /// The word of an input in a bank.
    pub fn bank_word(&self, bank: Bank, input: u8) -> u32
        ensures { result ≡ spec.bank_word self.now bank input }
    {
        self.banks() + bank.number() * u32::from(self.inputs) + u32::from(input)
    }

    /// The word of a kept value.
    pub fn kept_word(&self, input: u8) -> u32
        ensures { result ≡ spec.kept_word self.now input }
    {
        self.banks() + 3 * u32::from(self.inputs) + u32::from(input)
    }

    /// The first word of the banks.
    fn banks(&self) -> u32
        ensures { result ≡ spec.banks_of self.now }
    {
        FIRST + u32::from(self.start) + 32
    }
}

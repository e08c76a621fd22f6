ghost use Rattle.std.specs.Prelude.{◌≡◌};
ghost use Rattle.chip_blocks.specs.units.Ram.{blank, word_of, read_of, after_write};

use mcal_base::{Config, Reg};
use std::marker::Model;

/// How many words there are.
const WORDS: u32 = 512;

/// The RAM words `R0` to `R511`.
#[derive(Drop)]
pub struct RamBlock {
    words: [u32; 512],
}

impl Model for RamBlock {
    ghost use Rattle.std.specs.Prelude.{◌≡◌, ℕ, List, length};

    ghost Value = { List ℕ };

    ghost view = { λ b. b.words };

    ghost invariant = { λ b. length b.words ≡ 512 };

    ghost inverse = { λ words. record { words = words } };
}

impl RamBlock {
    #[tactic(auto, unfolding(crate::specs::units::Ram::blank))]
    /// All words 0. The block is the same under every configuration.
    pub fn new(_config: &Config) -> RamBlock
        ensures { result ≡ blank }
    {
        RamBlock { words: [0; 512] }
    }

    #[tactic(auto, unfolding(crate::specs::units::Ram::blank))]
    /// A reset: all words become 0.
    pub fn reset(&mut self)
        ensures { self.new ≡ blank }
    {
        self.words = [0; 512];
    }

    /// Reads a register.
    pub fn read(&mut self, reg: Reg) -> u32
        ensures value { result ≡ read_of self.old reg }
        ensures state { self.new ≡ self.old }
    {
        match reg {
            Reg::Ram(number) => self.ram(number),
            _ => 0,
        }
    }

    /// Writes a register. A register of another block ignores it.
    pub fn write(&mut self, reg: Reg, value: u32)
        ensures { self.new ≡ after_write self.old reg value }
    {
        match reg {
            Reg::Ram(number) => self.store(number, value),
            _ => {}
        }
    }

    /// The passing of time changes no word.
    pub fn tick(&mut self, _ticks: u64)
        ensures { self.new ≡ self.old }
    {}

    /// A word.
    pub fn ram(&self, number: u32) -> u32
        ensures { result ≡ word_of self.now number }
    {
        if number < WORDS {
            self.words[number as usize]
        } else {
            0
        }
    }

    fn store(&mut self, number: u32, value: u32)
        ensures { self.new ≡ after_write self.old (Reg.Ram number) value }
    {
        if number < WORDS {
            self.words[number as usize] = value;
        }
    }
}

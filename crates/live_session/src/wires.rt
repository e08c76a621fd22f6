use mcal_base::{Move, Reg};
use run_model::Stepped;
use std::alloc::{AllocError, Global};

/// The number that stands for the word that comes in with a refused exchange.
const REFUSED: u32 = 65_536;

/// The words on the wire of a serial unit since the last reset, each with what came in.
#[derive(Drop)]
pub(crate) struct Wire {
    width: u32,
    words: Vec<(u32, u32)>,
}

impl Wire {
    /// No words.
    pub(crate) fn new(alloc: Global) -> Wire {
        Wire {
            width: 0,
            words: Vec::new(alloc),
        }
    }

    /// The words.
    pub(crate) fn words(&self) -> &[(u32, u32)] {
        self.words.as_slice()
    }

    /// No words, after a reset.
    pub(crate) fn clear(&mut self) {
        self.width = 0;
        self.words.clear();
    }

    /// Takes a step: a word is sent by a write to the unit.
    pub(crate) fn take(&mut self, unit: u32, stepped: &Stepped) -> Result<(), AllocError> {
        match stepped.made {
            Move::Write(Reg::SerialWidth(number), width) if number == unit => {
                self.width = width;
                Ok(())
            }
            Move::Write(Reg::SerialData(number), sent) if number == unit => {
                let received = match stepped.received {
                    REFUSED => REFUSED,
                    word => masked(self.width, word),
                };
                self.words.push((masked(self.width, sent), received))?;
                Ok(())
            }
            _ => Ok(()),
        }
    }
}

/// A word, masked by a width. A width above 16 counts as 16.
fn masked(width: u32, word: u32) -> u32 {
    word % (1 << width.min(16))
}

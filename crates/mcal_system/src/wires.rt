ghost use Rattle.std.specs.Prelude.{◌≡◌, ℕ, List, IfOk, OnOk};
ghost use Rattle.chip_blocks.specs.units.Serials.{masked as masked_of};
ghost use Rattle.run_model.specs.Entry.{said_at};
ghost use Rattle.mcal_system.specs.Wires as spec;

use mcal_base::{Move, Reg};
use run_model::{Journal, What};
use shown_rows::Exchange;
use std::alloc::{AllocError, Global};
use std::marker::Model;

/// The number that stands for the word that comes in with a refused exchange.
const REFUSED: u32 = 65_536;

/// What the wire shows of a word that is sent, by the unit's width.
fn exchange(width: u32, sent: u32, received: u32) -> Exchange
    ensures { result ≡ spec.exchange width sent received }
{
    Exchange {
        sent: masked(width, sent),
        received: if received == REFUSED {
            REFUSED
        } else {
            masked(width, received)
        },
    }
}

/// What the items of a journal tell of the wire of a serial unit since the last reset.
#[derive(Drop)]
struct Told {
    width: u32,
    words: Vec<Exchange>,
}

impl Model for Told {
    ghost use Rattle.mcal_system.specs.Wires.{Wire};

    ghost Value = { Wire };

    ghost view = { λ t. record { width = t.width; words = t.words.items } };
}

impl Told {
    /// Takes one more item.
    fn take(&mut self, unit: u32, what: What) -> Result<(), AllocError>
        ensures { (words : List ℕ) → OnOk result (self.new ≡ spec.with_said unit (said_at words what) self.old) }
    {
        match what {
            What::Reset(..) => {
                self.width = 0;
                self.words.clear();
                Ok(())
            }
            What::Stepped(step) => self.step(unit, step.made, step.received),
            _ => Ok(()),
        }
    }

    /// Takes a step: a word is sent by a write to the unit.
    fn step(&mut self, unit: u32, made: Move, received: u32) -> Result<(), AllocError>
        ensures { OnOk result (self.new ≡ spec.with_step unit made received self.old) }
    {
        match made {
            Move::Write(Reg::SerialWidth(number), width) if number == unit => {
                self.width = width;
                Ok(())
            }
            Move::Write(Reg::SerialData(number), sent) if number == unit => {
                self.words.push(exchange(self.width, sent, received))?;
                Ok(())
            }
            _ => Ok(()),
        }
    }
}

/// A word, masked by a width. A width above 16 counts as 16.
fn masked(width: u32, word: u32) -> u32
    ensures { result ≡ masked_of width word }
{
    word % (1 << width.min(16))
}

/// The words that a journal tells of the wire of a serial unit since the last reset.
pub(crate) fn exchanges_of(
    alloc: Global,
    journal: &Journal,
    unit: u32,
) -> Result<Vec<Exchange>, AllocError>
    ensures { IfOk result (λ words. words.items ≡ spec.exchanges_of unit journal.now.entries) }
{
    let mut told = Told {
        width: 0,
        words: Vec::new(alloc),
    };
    let lists = journal.lists();
    let mut rest = lists.items;
    while let [item, behind @ ..] = rest {
        told.take(unit, item.says(lists.rests))?;
        rest = behind;
    }
    Ok(told.words)
}

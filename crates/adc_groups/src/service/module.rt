ghost use Rattle.std.specs.Prelude.{◌≡◌};
ghost use Rattle.adc_groups.specs.laws.services.InitSteps as spec;

use crate::service::listed::ListedTable;
use crate::words::{LINES, STATE, Word, order_of, word_number};
use mcal_base::{Move, Reg};
use service_outline::{Body, BodyTaken, Epilogue, Objects, acts_with, goes, nothing};

/// The words that `Adc_Init` clears, with the mask open: three of each unit, and four of each configured group.
#[derive(Drop)]
pub struct Setup {
    /// The driver.
    pub table: ListedTable,
}

impl Objects for Setup {
    type After = InitBody;

    ghost use Rattle.adc_groups.specs.laws.services.InitSteps.{setup_count, setup_move, setup_after};

    ghost count_of = { setup_count };

    ghost move_at = { setup_move };

    ghost after_of = { setup_after };

    fn count(&self) -> u16 {
        6 + 4 * self.table.many()
    }

    fn at(&self, object: u16) -> Move {
        self.clear_at(few(object))
    }

    fn after(&self) -> InitBody {
        InitBody::Enable
    }
}

impl Setup {
    /// What clears a word of a group; past the last one nothing does.
    fn group_clear(&self, group: u8, word: u8) -> Move
        ensures { result ≡ spec.group_clear self.now.table group word }
    {
        if self.table.table().at(group).is_some() {
            Move::Store(word_number(self.table.table(), group_word(group, word)), 0)
        } else {
            Move::Load(STATE)
        }
    }

    /// What clears the word at a place.
    fn clear_at(&self, place: u8) -> Move
        ensures { result ≡ spec.clear_at self.now.table place }
    {
        if place < 6 {
            Move::Store(self.unit_word(place / 3, place % 3), 0)
        } else {
            self.group_clear(self.table.group((place - 6) / 4), (place - 6) % 4)
        }
    }

    /// A word of a unit that is cleared.
    fn unit_word(&self, unit: u8, at: u8) -> u32
        ensures { result ≡ spec.unit_word self.now.table unit at }
    {
        if at == 0 {
            word_number(self.table.table(), Word::Running(unit))
        } else if at == 1 {
            word_number(self.table.table(), Word::Claim(unit))
        } else {
            order_of(unit).at + 2
        }
    }
}

/// A place of the words that are cleared, 70 past them all.
fn few(place: u16) -> u8
    ensures { result ≡ spec.few place }
{
    if place < 70 { place as u8 } else { 70 }
}

/// A word of a group that is cleared.
fn group_word(group: u8, at: u8) -> Word
    ensures { result ≡ spec.cleared_word group at }
{
    if at == 0 {
        Word::Phase(group)
    } else if at == 1 {
        Word::Chosen(group)
    } else if at == 2 {
        Word::Notified(group)
    } else {
        Word::Turn(group)
    }
}

/// `Adc_Init` in its last window.
#[derive(Clone, Copy)]
pub enum InitBody {
    /// It enables the lines.
    Enable,
    /// It acts, and the module is initialised.
    Store,
}

impl Body for InitBody {
    ghost use Rattle.adc_groups.specs.laws.services.InitSteps.{init_work, init_takes};

    ghost work_of = { init_work };

    ghost takes = { init_takes };

    fn next(&self) -> Move {
        match *self {
            InitBody::Enable => Move::Write(Reg::EnableSet, LINES),
            InitBody::Store => Move::Store(STATE, 1),
        }
    }

    fn took(&mut self, _value: u32) -> BodyTaken {
        match *self {
            InitBody::Enable => {
                *self = InitBody::Store;
                goes()
            }
            InitBody::Store => acts_with(nothing(), Epilogue::Nothing),
        }
    }
}

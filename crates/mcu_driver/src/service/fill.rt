use crate::words::STATE;
use mcal_base::{AnswerName, Move, Reg};
use service_outline::{Body, BodyTaken, Epilogue, Objects, acts_with, named};

/// A section that is filled word by word, with the mask open.
#[derive(Clone, Copy)]
pub struct Fill {
    /// The section's number.
    pub section: u32,
    /// Its first word.
    pub base: u16,
    /// How many words it has.
    pub size: u16,
    /// What each of them takes.
    pub value: u32,
}

impl Objects for Fill {
    type After = FilledBody;

    ghost use Rattle.mcu_driver.specs.laws.Fill.{fill_count, fill_move, fill_after};

    ghost count_of = { fill_count };

    ghost move_at = { fill_move };

    ghost after_of = { fill_after };

    fn count(&self) -> u16 {
        self.size
    }

    fn at(&self, object: u16) -> Move {
        let word = u32::from(self.base) + u32::from(object);
        Move::Write(Reg::Ram(word), self.value)
    }

    fn after(&self) -> FilledBody {
        FilledBody::Act(*self)
    }
}

/// What follows, in a window.
#[derive(Clone, Copy)]
pub enum FilledBody {
    /// It acts: all words of the section are written.
    Act(Fill),
}

impl Body for FilledBody {
    ghost use Rattle.mcu_driver.specs.laws.Fill.{filled_work, filled_takes};

    ghost work_of = { filled_work };

    ghost takes = { filled_takes };

    fn next(&self) -> Move {
        match *self {
            FilledBody::Act(_) => Move::Load(STATE),
        }
    }

    fn took(&mut self, _value: u32) -> BodyTaken {
        match *self {
            FilledBody::Act(_) => acts_with(named(AnswerName::EOk), Epilogue::Nothing),
        }
    }
}

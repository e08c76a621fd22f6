ghost use Rattle.std.specs.Prelude.{◌≡◌};
ghost use Rattle.driver_examples.specs.held.Toy as spec;

use mcal_base::Move;
use service_outline::{Body, BodyTaken, Epilogue, Objects, acts_with, nothing};

/// What is filled, and with what: eight words, with the mask open.
#[derive(Clone, Copy)]
pub struct Job {
    /// The section.
    pub section: u8,
    /// The value.
    pub value: u32,
}

impl Objects for Job {
    type After = Filled;

    ghost use Rattle.driver_examples.specs.held.Toy.{job_count, job_move, job_after};

    ghost count_of = { job_count };

    ghost move_at = { job_move };

    ghost after_of = { job_after };

    fn count(&self) -> u16 {
        8
    }

    fn at(&self, object: u16) -> Move {
        Move::Store(cell(self.section, object), self.value)
    }

    fn after(&self) -> Filled {
        Filled::Act(*self)
    }
}

/// The driver word of a section's word.
fn cell(section: u8, place: u16) -> u32
    ensures { result ≡ spec.cell section place }
{
    32_768 + 8 * u32::from(section) + u32::from(place)
}

/// What follows, in a window.
#[derive(Clone, Copy)]
pub enum Filled {
    /// It acts.
    Act(Job),
}

impl Body for Filled {
    ghost use Rattle.driver_examples.specs.held.Toy.{filled_work, filled_takes};

    ghost work_of = { filled_work };

    ghost takes = { filled_takes };

    fn next(&self) -> Move {
        match *self {
            Filled::Act(_) => Move::Load(32_809),
        }
    }

    fn took(&mut self, _value: u32) -> BodyTaken {
        match *self {
            Filled::Act(_) => acts_with(nothing(), Epilogue::Nothing),
        }
    }
}

use mcal_base::{Event, Move};
use service_outline::{Body, BodyTaken, Epilogue, acts, ends, nothing};

/// A call that polls a line: it acts, and serves the line, which is ready.
#[derive(Clone, Copy)]
pub enum Polling {
    /// It acts.
    Act,
    /// It serves the line.
    Serve,
}

impl Body for Polling {
    ghost use Rattle.driver_examples.specs.held.Toy.{poll_work, poll_takes};

    ghost work_of = { poll_work };

    ghost takes = { poll_takes };

    fn next(&self) -> Move {
        Move::Load(32_809)
    }

    fn took(&mut self, _value: u32) -> BodyTaken {
        match *self {
            Polling::Act => {
                *self = Polling::Serve;
                acts()
            }
            Polling::Serve => ends(Some(Event::Serve(0)), nothing(), Epilogue::Nothing),
        }
    }
}

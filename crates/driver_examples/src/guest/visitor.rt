ghost use Rattle.std.specs.Prelude.{◌≡◌, Some};
ghost use Rattle.mcal_base.specs.declared.moves.Event.TheVariants.{Act};
ghost use Rattle.run_model.specs.Machine.{no_answer};
ghost use Rattle.driver_examples.specs.guest.Visitor.{number_answer};

use mcal_base::{
    Answer, DevError, ErrorName, Event, Head, ModuleName, Move, Routine, Service, Short, Taken,
};
use run_model::{Class, Kind};
use service_outline::guests::Guest;

/// A call of a visitor.
#[derive(Clone, Copy)]
pub enum VisitorCall {
    /// Gives the word.
    Look,
    /// Stores the word.
    Leave(u32),
    /// Finds an error.
    Stray,
}

/// A call under way.
#[derive(Clone, Copy)]
pub enum VisitorFrame {
    /// Before its one access to the word of this number, where it acts.
    Access(u32, VisitorCall),
    /// Before it reports the error that it found.
    Telling(DevError),
}

/// The error of a call that strays.
const STRAYED: DevError = DevError {
    service: Service::GptInit,
    error: ErrorName::GptParamValue,
    runtime: false,
};

impl Routine for VisitorFrame {
    ghost use Rattle.driver_examples.specs.guest.Visitor.{visitor_move, visitor_left, visitor_gave};

    ghost move_of = { visitor_move };

    ghost left = { visitor_left };

    ghost gave = { visitor_gave };

    fn next(&self) -> Move {
        match self {
            VisitorFrame::Access(word, VisitorCall::Look) => Move::Load(*word),
            VisitorFrame::Access(word, VisitorCall::Leave(value)) => Move::Store(*word, *value),
            VisitorFrame::Access(word, VisitorCall::Stray) => Move::Load(*word),
            VisitorFrame::Telling(error) => Move::Report(*error),
        }
    }

    fn took(&mut self, value: u32) -> Taken {
        match self {
            VisitorFrame::Access(_, VisitorCall::Look) => acts(Some(number(value))),
            VisitorFrame::Access(_, VisitorCall::Leave(_)) => acts(Some(nothing())),
            VisitorFrame::Access(_, VisitorCall::Stray) => {
                *self = VisitorFrame::Telling(STRAYED);
                acts(None)
            }
            VisitorFrame::Telling(_) => Taken {
                event: None,
                ended: Some(nothing()),
            },
        }
    }
}

/// A step at which the call acts, and ends with this answer or goes on.
fn acts(ended: Option<Answer>) -> Taken
    ensures { result ≡ record { event = Some Act; ended = ended } }
{
    Taken {
        event: Some(Event::Act),
        ended,
    }
}

/// The answer of one number.
fn number(value: u32) -> Answer
    ensures { result ≡ number_answer value }
{
    let mut words = Short::new();
    words.push(value);
    Answer {
        head: Head::Numbers,
        words,
    }
}

/// The answer of a call that answers nothing.
fn nothing() -> Answer
    ensures { result ≡ no_answer }
{
    Answer {
        head: Head::Nothing,
        words: Short::new(),
    }
}

/// A guest that works in one driver word.
#[derive(Clone, Copy)]
pub struct Visitor {
    /// The number of the word.
    pub word: u32,
}

impl Guest for Visitor {
    type Call = VisitorCall;

    type Frame = VisitorFrame;

    type State = (u32, u32);

    ghost use Rattle.driver_examples.specs.guest.Visitor.{visitor};
    ghost use Rattle.driver_examples.specs.guest.VisitorLaws.{visitor_right};

    ghost spec = { λ g. visitor g.word };

    fn frame(&self, call: &VisitorCall) -> VisitorFrame {
        VisitorFrame::Access(self.word, *call)
    }

    fn class(&self) -> Class {
        Class {
            kind: Kind::Guarded,
            module: ModuleName::Gpt,
            key: None,
        }
    }

    ghost laws = { λ g fits. visitor_right g.word fits };
}

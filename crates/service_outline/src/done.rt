ghost use Rattle.std.specs.Prelude.{◌≡◌, [], ◌∷◌, Some};
ghost use Rattle.mcal_base.specs.declared.moves.Event.TheVariants.{Act};
ghost use Rattle.run_model.specs.Machine.{no_answer};
ghost use Rattle.run_model.specs.Machine as machine;
ghost use Rattle.service_outline.specs.Done as spec;

use mcal_base::det_errors::reported;
use mcal_base::{Answer, AnswerName, DevError, ErrorName, Event, Head, Notice, Service, Words};
use std::marker::Model;

/// The numbers that a reply carries.
#[derive(Clone, Copy)]
pub enum Carried {
    /// None.
    Nothing,
    /// One number.
    One(u32),
    /// Two numbers.
    Two(u32, u32),
}

/// An answer of at most two numbers, as a frame keeps it; contracts see the answer.
#[derive(Clone, Copy)]
pub struct Reply {
    head: Head,
    numbers: Carried,
}

impl Model for Reply {
    ghost use Rattle.mcal_base.specs.declared.answer.Answer.{Answer};
    ghost use Rattle.std.proofs.Common.{ap};
    ghost use Rattle.service_outline.specs.Carried.{listed, first_two};
    ghost use Rattle.service_outline.specs.laws.Carried.{back};

    ghost Value = { Answer };

    ghost view = { λ r. record { head = r.head; words = listed r.numbers } };

    ghost inverse = { λ a. record { head = a.head; numbers = first_two a.words } };

    ghost inverse_ok = { λ a h. ap (λ n. record a { numbers = n }) (back a.numbers) };
}

impl Reply {
    /// Writes the answer, in full, to a place. Most answers have no numbers.
    pub fn write(&self, place: &mut Option<Answer>)
        ensures { place.new ≡ Some self.now }
    {
        match self.numbers {
            Carried::Nothing => {
                *place = Some(Answer {
                    head: self.head,
                    words: Words::new(),
                });
            }
            _ => *place = Some(self.answer()),
        }
    }

    /// The answer, in full. It isn't inlined, so that an answer without numbers makes no room for its words twice.
    #[inline(never)]
    fn answer(&self) -> Answer
        ensures { result ≡ self.now }
    {
        let mut words = Words::new();
        match self.numbers {
            Carried::Nothing => {}
            Carried::One(number) => words.push(number),
            Carried::Two(first, second) => {
                words.push(first);
                words.push(second);
            }
        }
        Answer {
            head: self.head,
            words,
        }
    }
}

/// What a frame tells after its window.
#[derive(Clone, Copy)]
pub enum Epilogue {
    /// Nothing.
    Nothing,
    /// A development error.
    Error(DevError),
    /// A notice.
    One(Notice),
    /// Two notices, in this order.
    Two(Notice, Notice),
}

/// What stands after the work of a window.
#[derive(Clone, Copy)]
pub struct Done {
    /// The answer that the frame ends with.
    pub answer: Reply,
    /// What it tells before.
    pub owed: Epilogue,
}

/// What a step of a body was, beside its move.
#[derive(Clone, Copy)]
pub struct BodyTaken {
    /// The event that stands at the step.
    pub event: Option<Event>,
    /// What the body is done with, where the step was its last.
    pub done: Option<Done>,
}

/// The answer of a service that answers nothing.
pub fn nothing() -> Reply
    ensures { result ≡ no_answer }
{
    Reply {
        head: Head::Nothing,
        numbers: Carried::Nothing,
    }
}

/// The answer that is a name.
pub fn named(name: AnswerName) -> Reply
    ensures { result ≡ machine.named name }
{
    Reply {
        head: Head::Name(name),
        numbers: Carried::Nothing,
    }
}

/// The answer that is a number.
pub fn number(value: u32) -> Reply
    ensures { result ≡ machine.number value }
{
    Reply {
        head: Head::Numbers,
        numbers: Carried::One(value),
    }
}

/// The answer that is two numbers.
pub fn numbers(first: u32, second: u32) -> Reply
    ensures { result ≡ machine.numbers (first ∷ second ∷ []) }
{
    Reply {
        head: Head::Numbers,
        numbers: Carried::Two(first, second),
    }
}

/// The answer that is a count of 0 and no pointer.
pub fn zero_null() -> Reply
    ensures { result ≡ machine.zero_null }
{
    Reply {
        head: Head::ZeroNull,
        numbers: Carried::Nothing,
    }
}

/// What is told of an error: its report, where a module that detects development errors or doesn't, and classifies state
/// errors so, reports it.
pub fn error(detect: bool, classification: u32, service: Service, error: ErrorName) -> Epilogue
    ensures { result ≡ spec.owed_error (record { detect = detect; classification = classification }) service error }
{
    match reported(detect, classification, error) {
        Some(runtime) => Epilogue::Error(DevError {
            service,
            error,
            runtime,
        }),
        None => Epilogue::Nothing,
    }
}

/// A step of a body that goes on.
pub fn goes() -> BodyTaken
    ensures { result ≡ spec.goes }
{
    BodyTaken {
        event: None,
        done: None,
    }
}

/// The act of a body that goes on.
pub fn acts() -> BodyTaken
    ensures { result ≡ spec.acts }
{
    BodyTaken {
        event: Some(Event::Act),
        done: None,
    }
}

/// The last step of a body.
pub fn ends(event: Option<Event>, answer: Reply, owed: Epilogue) -> BodyTaken
    ensures { result ≡ spec.ends event answer owed }
{
    BodyTaken {
        event,
        done: Some(Done { answer, owed }),
    }
}

/// The last step of a body, with its act.
pub fn acts_with(answer: Reply, owed: Epilogue) -> BodyTaken
    ensures { result ≡ spec.ends (Some Act) answer owed }
{
    ends(Some(Event::Act), answer, owed)
}

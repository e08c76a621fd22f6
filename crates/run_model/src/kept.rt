ghost use Rattle.std.specs.Prelude.{◌≡◌, None, IfSome};
ghost use Rattle.std.specs.Bool.{OnTrue};
ghost use Rattle.run_model.specs.Packing as spec;

use crate::item::{Hardware, Item, Logged, LoggedAnswer, Span, Stepped, What};
use irq_control::Held;
use mcal_base::{Event, Head, Move, Reason};
use std::mem::size_of;

/// What few steps have beside their move, with what that gave.
#[derive(Clone, Copy)]
pub struct Rest {
    /// What a read or a load gave, and 0 for other moves.
    pub value: u32,
    /// The incoming word of a write that begins a serial word, and 0 for other moves.
    pub received: u32,
    /// The event that stood at the step.
    pub event: Option<Event>,
    /// The answer, where the frame ended with the step.
    pub ended: Option<LoggedAnswer>,
}

impl Rest {
    /// The rest of a step that has none.
    fn none() -> Rest
        ensures { result ≡ spec.no_rest }
    {
        Rest {
            value: 0,
            received: 0,
            event: None,
            ended: None,
        }
    }

    /// The rest of a step at which the call acts, and that has nothing else.
    fn act() -> Rest
        ensures { result ≡ spec.act_rest }
    {
        Rest {
            value: 0,
            received: 0,
            event: Some(Event::Act),
            ended: None,
        }
    }

    /// The rest of a step that ends its frame with an answer without numbers, and has nothing else.
    fn end(head: Head) -> Rest
        ensures { result ≡ spec.end_rest head }
    {
        Rest {
            value: 0,
            received: 0,
            event: None,
            ended: Some(LoggedAnswer {
                head,
                words: Span { at: 0, count: 0 },
            }),
        }
    }

    /// The rest of this number.
    fn at(rests: &[Rest], number: u32) -> Rest
        ensures { result ≡ spec.rest_at rests.now number }
    {
        match rests.get(number as usize) {
            Some(rest) => *rest,
            None => Rest::none(),
        }
    }

    /// The step that made a move which gave this value, with this rest.
    fn step(self, made: Move, value: u32) -> Logged
        ensures { result ≡ spec.step_with made value self }
    {
        Logged {
            made,
            value,
            received: self.received,
            event: self.event,
            ended: self.ended,
        }
    }
}

/// What an item says, in few bytes. What few steps have beside their move stands in a list of rests.
#[derive(Clone, Copy)]
pub enum KeptWhat {
    /// The hardware moved, or something was shown.
    Happened(Hardware),
    /// A call or a handler began.
    Begun,
    /// A directive was held, with its first cause.
    Held(Held),
    /// The top frame made a move, which gave this value, and its step has nothing else.
    Stepped(Move, u32),
    /// The top frame made a move, which gave this value, and the call acted; its step has nothing else.
    Acted(Move, u32),
    /// The top frame made a move and ended with an answer without numbers; its step has nothing else.
    Ended(Move, Head),
    /// The top frame made a move, and its step has the rest of this number.
    SteppedWith(Move, u32),
    /// The chip was reset, and so many frames were dropped.
    Reset(Reason, u32),
}

/// Whether a step has no rest.
pub(crate) fn is_plain(stepped: &Stepped) -> bool
    ensures { OnTrue result (spec.plain_step stepped.now.made stepped.now.value ≡ stepped.now) }
{
    stepped.received == 0 && stepped.event.is_none() && stepped.ended.is_none()
}

/// Whether the call acts at a step, which has nothing else beside its move and its value.
pub(crate) fn acts_alone(stepped: &Stepped) -> bool
    ensures { OnTrue result (spec.acting_step stepped.now.made stepped.now.value ≡ stepped.now) }
{
    stepped.received == 0 && matches!(stepped.event, Some(Event::Act)) && stepped.ended.is_none()
}

/// Whether a step has nothing beside its move but an answer.
fn has_but_answer(stepped: &Stepped) -> bool
    ensures value { OnTrue result (stepped.now.value ≡ 0) }
    ensures received { OnTrue result (stepped.now.received ≡ 0) }
    ensures event { OnTrue result (stepped.now.event ≡ None) }
{
    stepped.value == 0 && stepped.received == 0 && stepped.event.is_none()
}

/// What the answer of a step begins with that ends its frame with one without numbers, and has nothing else beside its
/// move.
pub(crate) fn bare_end(stepped: &Stepped) -> Option<Head>
    ensures { IfSome result (λ head. spec.ending_step stepped.now.made head ≡ stepped.now) }
{
    match &stepped.ended {
        Some(answer) if answer.words.len() == 0 && has_but_answer(stepped) => Some(answer.head),
        _ => None,
    }
}

/// An item of a journal, in few bytes.
#[derive(Clone, Copy)]
pub struct Kept {
    /// The script line of its directive.
    pub line: u32,
    /// The number of frames before it.
    pub depth: u32,
    /// What it says.
    pub what: KeptWhat,
}

impl Kept {
    /// What it says, where these are the rests of its journal.
    pub fn says(&self, rests: &[Rest]) -> What
        ensures { result ≡ spec.what_of rests.now self.now.what }
    {
        match self.what {
            KeptWhat::Happened(hardware) => What::Happened(hardware),
            KeptWhat::Begun => What::Begun,
            KeptWhat::Held(cause) => What::Held(cause),
            KeptWhat::Stepped(made, value) => What::Stepped(Rest::none().step(made, value)),
            KeptWhat::Acted(made, value) => What::Stepped(Rest::act().step(made, value)),
            KeptWhat::Ended(made, head) => What::Stepped(Rest::end(head).step(made, 0)),
            KeptWhat::SteppedWith(made, number) => {
                let rest = Rest::at(rests, number);
                What::Stepped(rest.step(made, rest.value))
            }
            KeptWhat::Reset(reason, dropped) => What::Reset(reason, dropped),
        }
    }

    /// The item, where these are the rests of its journal.
    pub fn item(&self, rests: &[Rest]) -> Item
        ensures { result ≡ spec.item_of rests.now self.now }
    {
        Item {
            line: self.line,
            depth: self.depth,
            what: self.says(rests),
        }
    }
}

/// The lists in which a journal stands.
#[derive(Clone, Copy)]
pub struct JournalLists<'a> {
    /// Its items.
    pub items: &'a [Kept],
    /// The rests of their steps.
    pub rests: &'a [Rest],
    /// The words of their lists.
    pub words: &'a [u32],
}

const _: () = prove!(size_of::<Kept>() <= 32);

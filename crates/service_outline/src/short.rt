ghost use Rattle.std.specs.Prelude.{◌≡◌, None, Some};
ghost use Rattle.mcal_base.specs.declared.moves.Event.{Event};
ghost use Rattle.run_model.specs.Machine.{no_answer};
ghost use Rattle.service_outline.specs.declared.short.Short.TheVariants.{Returning};
ghost use Rattle.service_outline.specs.Short as spec;

use crate::body::{Body, Looked, Service};
use crate::done::{BodyTaken, Done, Epilogue, Reply, nothing};
use mcal_base::{Answer, Event, Move, Routine, Taken};
use std::mem;

/// A frame of a short service or of a handler.
#[derive(Drop)]
pub enum Short<C, B> {
    /// A call, before its window.
    Calling(C),
    /// A call in its window, before the load of the state word.
    Loading(C),
    /// A handler, before its window.
    Entering(B),
    /// The body.
    Inside(B),
    /// The work is done, and the mask is closed.
    Opening(Done),
    /// It tells what it owes.
    Telling(Done),
    /// The closing load.
    Returning(Reply),
}

impl<C: Service> Routine for Short<C, C::Body> {
    ghost use Rattle.service_outline.specs.Short.{short_move, short_left, ending_gave};

    ghost move_of = { short_move C.WORD C.Body.work_of };

    ghost left = { short_left C.looked_of C.Body.takes };

    ghost gave = { ending_gave C.looked_of C.Body.takes C.ends_with };

    fn next(&self) -> Move {
        match self {
            Short::Calling(_) | Short::Entering(_) => Move::Mask,
            Short::Loading(_) | Short::Returning(_) => Move::Load(C::WORD),
            Short::Inside(body) => body.next(),
            Short::Opening(_) => Move::Unmask,
            Short::Telling(done) => match done.owed {
                Epilogue::Nothing => Move::Load(C::WORD),
                Epilogue::Error(error) => Move::Report(error),
                Epilogue::One(notice) | Epilogue::Two(notice, _) => Move::Note(notice),
            },
        }
    }

    fn took(&mut self, value: u32) -> Taken {
        let mut ended = None;
        let event = self.took_into(value, &mut ended);
        Taken { event, ended }
    }

    #[inline(never)]
    fn took_into(&mut self, value: u32, ended: &mut Option<Answer>) -> Option<Event> {
        match self {
            Short::Inside(body) => {
                let BodyTaken { event, done } = body.took(value);
                match done {
                    Some(done) => *self = Short::Opening(done),
                    None => C::finish(body, ended),
                }
                event
            }
            _ => self.outside(value, ended),
        }
    }
}

/// The steps outside the body. They aren't inlined, so that a step of the body, of which there are most, makes no room
/// for what they hold.
impl<C: Service> Short<C, C::Body> {
    /// A step outside the body.
    #[inline(never)]
    fn outside(&mut self, value: u32, ended: &mut Option<Answer>) -> Option<Event>
        requires outside { spec.IsOutside self.old }
        requires free { ended.old ≡ None }
        ensures state { self.new ≡ spec.short_left C.looked_of C.Body.takes self.old value }
        ensures event { result ≡ (spec.ending_gave C.looked_of C.Body.takes C.ends_with self.old value).event }
        ensures answer { ended.new ≡ (spec.ending_gave C.looked_of C.Body.takes C.ends_with self.old value).ended }
    {
        match self {
            Short::Calling(_) | Short::Entering(_) => self.begins(),
            Short::Loading(_) => return self.loaded(value),
            Short::Inside(_) => unreachable!(),
            Short::Opening(done) => {
                let done = *done;
                self.opened(done, ended);
            }
            Short::Telling(done) => {
                let done = *done;
                self.told(done, ended);
            }
            Short::Returning(answer) => {
                let answer = *answer;
                self.returned(answer, ended);
            }
        }
        None
    }

    /// The first step of a call or of a handler.
    #[inline(never)]
    fn begins(&mut self)
        ensures { self.new ≡ spec.begun self.old }
    {
        match mem::replace(self, Short::Returning(nothing())) {
            Short::Calling(call) => *self = Short::Loading(call),
            Short::Entering(body) => *self = Short::Inside(body),
            other => *self = other,
        }
    }

    /// The load of the state word, which decides for a call.
    #[inline(never)]
    fn loaded(&mut self, value: u32) -> Option<Event>
        requires loading { spec.IsLoading self.old }
        ensures state { self.new ≡ spec.short_left C.looked_of C.Body.takes self.old value }
        ensures event { result ≡ (spec.ending_gave C.looked_of C.Body.takes C.ends_with self.old value).event }
    {
        let Short::Loading(call) = self else {
            unreachable!()
        };
        match call.look(value) {
            Looked::Refused(done) => {
                *self = Short::Opening(done);
                Some(Event::Act)
            }
            Looked::Goes(body) => {
                *self = Short::Inside(body);
                None
            }
        }
    }

    /// The last opening of the mask.
    #[inline(never)]
    fn opened(&mut self, done: Done, ended: &mut Option<Answer>)
        requires free { ended.old ≡ None }
        ensures state { self.new ≡ spec.left_open done.answer done.owed }
        ensures answer { ended.new ≡ (spec.gave_open done.answer done.owed).ended }
    {
        match done.owed {
            Epilogue::Nothing => self.returned(done.answer, ended),
            _ => *self = Short::Telling(done),
        }
    }

    /// One of what it owes is told.
    #[inline(never)]
    fn told(&mut self, done: Done, ended: &mut Option<Answer>)
        requires free { ended.old ≡ None }
        ensures state { self.new ≡ spec.left_told done.answer done.owed }
        ensures answer { ended.new ≡ (spec.gave_told done.answer done.owed).ended }
    {
        let Done { answer, owed } = done;
        match owed {
            Epilogue::Nothing | Epilogue::Error(_) => self.returned(answer, ended),
            Epilogue::One(_) => *self = Short::Returning(answer),
            Epilogue::Two(_, second) => {
                let owed = Epilogue::One(second);
                *self = Short::Telling(Done { answer, owed });
            }
        }
    }

    /// The frame ends with its answer.
    #[inline(never)]
    fn returned(&mut self, answer: Reply, ended: &mut Option<Answer>)
        ensures state { self.new ≡ Returning no_answer }
        ensures answer { ended.new ≡ Some answer }
    {
        *self = Short::Returning(nothing());
        answer.write(ended);
    }
}

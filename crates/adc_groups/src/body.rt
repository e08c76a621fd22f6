ghost use Rattle.std.specs.Prelude.{◌≡◌, None};
ghost use Rattle.adc_groups.specs.laws.services.BodySteps as spec;

use crate::making::{Continuation, WriteBatch};
use crate::outside::{Outside, Suspended};
use crate::service::read::Newest;
use crate::service::{self, read, request, serve, turn};
use crate::window::Window;
use crate::words::{Phase, Word, rounds_of, word_number};
use adc_machine::AdcTable;
use mcal_base::{Answer, Event, Move, Reg, Routine, Short};
use service_outline::{Body, BodyTaken, Epilogue, ends, goes, nothing};
use word_shapes::streams::Bank;
use word_shapes::{Front, Put, Take, TakePart};

/// What a window has seen of its words.
pub type Snapshot = Short<u32, 6>;

/// A place in a frame of the driver, from the load of the state word on.
#[derive(Drop)]
pub enum Place {
    /// It reads a register that tells whether the line is ready.
    Flag(Window),
    /// It looks at the words that decide, one after the other.
    Looks(Window, Snapshot),
    /// It looks whether this group is under way, and then at the next one.
    Surveys(Window, u8),
    /// It looks which request waits first on a unit.
    Seeks(Window, Front),
    /// It looks for a bank, to take the round of a unit, of this group.
    Chooses(u8, u8, Put),
    /// It pins the newest bank of a group, which has this phase then.
    Pins(u8, Phase),
    /// It reads the bank that it has pinned.
    Reads(Newest),
    /// It aborts a unit's round, if that isn't finished.
    Aborts(Suspended),
    /// It makes its moves.
    Makes(WriteBatch),
    /// It has nothing to serve, and ends with its claim on this unit.
    Quits(u8),
    /// It opens the mask.
    Opens(Outside),
    /// The mask is open.
    Out(Outside),
}

/// What is decided.
pub enum Decided {
    /// The frame is done with the step, at which this event stands.
    Ends(BodyTaken),
    /// It goes on.
    Goes(Place),
}

/// A frame of the driver, from the load of the state word on.
#[derive(Drop)]
pub struct AdcBody {
    /// The driver.
    pub table: AdcTable,
    /// Where it stands.
    pub place: Place,
}

impl Body for AdcBody {
    ghost use Rattle.adc_groups.specs.laws.services.BodySteps.{body_work, body_takes};

    ghost work_of = { body_work };

    ghost takes = { body_takes };

    fn next(&self) -> Move {
        match &self.place {
            Place::Flag(window) => Move::Read(flag_register(*window)),
            Place::Looks(window, seen) => match window.word(seen.len()) {
                Some(word) => Move::Load(word_number(&self.table, word)),
                None => Move::Unmask,
            },
            Place::Surveys(_, group) => Move::Load(word_number(&self.table, Word::Phase(*group))),
            Place::Seeks(_, front) => front.next(),
            Place::Chooses(_, _, put) => put.next(),
            Place::Pins(group, _) => pin_of(&self.table, *group).next(),
            Place::Reads(newest) => newest.next(),
            Place::Aborts(round) => Move::Read(Reg::ConverterAbort(u32::from(round.unit))),
            Place::Makes(making) => making.next(&self.table),
            Place::Quits(unit) => Move::Store(word_number(&self.table, Word::Claim(*unit)), 0),
            Place::Opens(_) => Move::Unmask,
            Place::Out(outside) => outside.next(),
        }
    }

    fn took(&mut self, value: u32) -> BodyTaken {
        match &mut self.place {
            Place::Makes(making) => {
                let event = making.took(value);
                if making.is_over() {
                    self.made(event)
                } else {
                    BodyTaken { event, done: None }
                }
            }
            Place::Looks(window, seen) => {
                if seen.len() < 6 {
                    seen.push(value);
                }
                if window.word(seen.len()).is_none() {
                    self.looked()
                } else {
                    goes()
                }
            }
            Place::Out(outside) => match outside {
                Outside::Copies(copying, copied) => {
                    match copying.after(value) {
                        Some(next) => *copying = next,
                        None => self.place = Place::Out(copied.follows()),
                    }
                    goes()
                }
                _ => self.crosses(value),
            },
            Place::Reads(newest) => newest.took(value),
            Place::Quits(_) => ends(None, nothing(), Epilogue::Nothing),
            Place::Opens(_) => self.crosses(value),
            Place::Seeks(..) | Place::Chooses(..) => self.searches(value),
            Place::Flag(_) | Place::Surveys(..) | Place::Pins(..) | Place::Aborts(_) => {
                self.decides(value)
            }
        }
    }
}

/// The steps that decide what comes next. They aren't inlined, so that the other steps, of which there are most, make no
/// room for what they hold.
impl AdcBody {
    /// All moves of a window were made.
    #[inline(never)]
    fn made(&mut self, event: Option<Event>) -> BodyTaken
        requires making { spec.IsMaking self.old.place }
        ensures state { self.new ≡ record self.old { place = (spec.made self.old.place event).0 } }
        ensures taken { result ≡ (spec.made self.old.place event).1 }
    {
        let Place::Makes(making) = &self.place else {
            unreachable!()
        };
        match making.after {
            Continuation::Ends(done) => BodyTaken {
                event,
                done: Some(done),
            },
            Continuation::Goes(outside) => {
                self.place = Place::Opens(outside);
                BodyTaken { event, done: None }
            }
        }
    }

    /// All words that decide were looked at.
    #[inline(never)]
    fn looked(&mut self) -> BodyTaken
        requires looking { spec.IsLooking self.old.place }
        ensures state { self.new ≡ record self.old { place = (spec.looked self.old.table self.old.place).0 } }
        ensures taken { result ≡ (spec.looked self.old.table self.old.place).1 }
    {
        let Place::Looks(window, seen) = &self.place else {
            unreachable!()
        };
        let decided = service::decided(&self.table, *window, seen.as_slice());
        self.follows(decided)
    }

    /// A step with the mask open, or that opens it.
    #[inline(never)]
    fn crosses(&mut self, value: u32) -> BodyTaken
        requires outside { spec.IsOutside self.old.place }
        ensures state { self.new ≡ (spec.body_takes self.old value).0 }
        ensures taken { result ≡ (spec.body_takes self.old value).1 }
    {
        match &self.place {
            Place::Opens(Outside::Reads(group, bank)) => {
                self.place = Place::Reads(read::reading(&self.table, *group, *bank));
            }
            Place::Opens(outside) => self.place = Place::Out(*outside),
            Place::Out(outside) => self.place = outside.after(&self.table, value),
            _ => unreachable!(),
        }
        goes()
    }

    /// A step of a search for a request or a bank.
    #[inline(never)]
    fn searches(&mut self, value: u32) -> BodyTaken
        requires searching { spec.IsSearching self.old.place }
        ensures state { self.new ≡ (spec.body_takes self.old value).0 }
        ensures taken { result ≡ (spec.body_takes self.old value).1 }
    {
        match &mut self.place {
            Place::Seeks(_, front) => {
                let taken = front.took(value);
                match &taken.ended {
                    Some(found) => self.found(given(found)),
                    None => goes(),
                }
            }
            Place::Chooses(_, _, put) => {
                let taken = put.took(value);
                match &taken.ended {
                    Some(found) => self.found(given(found)),
                    None => goes(),
                }
            }
            _ => unreachable!(),
        }
    }

    /// What was searched for was found.
    #[inline(never)]
    fn found(&mut self, number: u32) -> BodyTaken
        requires searching { spec.IsSearching self.old.place }
        ensures state { self.new ≡ record self.old { place = (spec.found self.old.table self.old.place number).0 } }
        ensures taken { result ≡ (spec.found self.old.table self.old.place number).1 }
    {
        match &self.place {
            Place::Seeks(window, _) => {
                let decided = turn::sought(&self.table, *window, number);
                self.follows(decided)
            }
            Place::Chooses(unit, group, _) => {
                let decided = serve::chosen(*unit, *group, Bank::of(number));
                self.follows(decided)
            }
            _ => unreachable!(),
        }
    }

    /// A step that decides by one value.
    #[inline(never)]
    fn decides(&mut self, value: u32) -> BodyTaken
        requires deciding { spec.IsDeciding self.old.place }
        ensures state { self.new ≡ (spec.body_takes self.old value).0 }
        ensures taken { result ≡ (spec.body_takes self.old value).1 }
    {
        match &self.place {
            Place::Flag(window) => {
                let decided = service::flagged(*window, value);
                self.follows(decided)
            }
            Place::Surveys(window, group) => {
                let decided = request::surveyed(&self.table, *window, *group, value);
                self.follows(decided)
            }
            Place::Pins(group, phase) => {
                self.place = pinned(&self.table, *group, *phase, value);
                goes()
            }
            Place::Aborts(round) => {
                let (event, place) = turn::aborted(&self.table, *round, value);
                self.place = place;
                BodyTaken { event, done: None }
            }
            _ => unreachable!(),
        }
    }
}

impl AdcBody {
    /// Writes the answer of a call that has ended with what it has read.
    pub fn finish(&self, ended: &mut Option<Answer>)
        requires { ended.old ≡ None }
        ensures { ended.new ≡ spec.body_ends self.now }
    {
        if let Place::Reads(newest) = &self.place {
            newest.finish(ended);
        }
    }

    /// What was decided.
    fn follows(&mut self, decided: Decided) -> BodyTaken
        ensures state { self.new ≡ record self.old { place = (spec.follows self.old.place decided).0 } }
        ensures taken { result ≡ (spec.follows self.old.place decided).1 }
    {
        match decided {
            Decided::Ends(taken) => taken,
            Decided::Goes(place) => {
                self.place = place;
                goes()
            }
        }
    }
}

/// The pin of a group's newest bank.
fn pin_of(table: &AdcTable, group: u8) -> Take
    ensures { result ≡ spec.pin_of table.now group }
{
    rounds_of(table, group).trio().take(TakePart::Pin)
}

/// Where a call goes on that pins the newest bank, once it has looked which one it is.
fn pinned(table: &AdcTable, group: u8, phase: Phase, value: u32) -> Place
    ensures { result ≡ spec.pinned table.now group phase value }
{
    let mut take = pin_of(table, group);
    take.took(value);
    read::pin(group, phase, take, Bank::of(value % 4))
}

/// The register that tells whether the line is ready.
fn flag_register(window: Window) -> Reg
    ensures { result ≡ spec.flag_register window }
{
    match window {
        Window::Take(unit) => Reg::ConverterState(u32::from(unit)),
        _ => Reg::TriggerFlags,
    }
}

/// The number that a routine gave.
fn given(answer: &Answer) -> u32
    ensures { result ≡ spec.given answer.now }
{
    match answer.words.as_slice().get(0) {
        Some(number) => *number,
        None => 0,
    }
}

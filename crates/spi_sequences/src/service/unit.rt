ghost use Rattle.std.specs.Prelude.{◌≡◌};
ghost use Rattle.service_outline.specs.Done.{goes};
ghost use Rattle.spi_sequences.specs.declared.service.unit.UnitPlace.TheVariants.{Opens};
ghost use Rattle.spi_sequences.specs.laws.services.UnitSteps as spec;

use crate::service::request::{RequestPlace, Requested};
use crate::service::serve::{Ended, ServePlace, ServeStep};
use crate::service::start::{StartPlace, Started};
use crate::words::STATE;
use mcal_base::{AnswerName, ErrorName, Event, Move, Notice, Service};
use service_outline::{
    Body, BodyTaken, Epilogue, acts, acts_with, ends, error, goes, named, nothing,
};
use spi_machine::SpiTable;

/// What a frame has to do with a unit.
#[derive(Clone, Copy)]
pub enum FrameRole {
    /// `Spi_AsyncTransmit` of this sequence: its request, and a start.
    Transmit(u8),
    /// The handler: a serving, its notices, and a start.
    Handler,
    /// `Spi_MainFunction_Handling` in polling mode: the same of both units.
    Main,
    /// The same of the second unit, where the first one's line was served.
    Rest,
}

/// What is done after the mask was opened.
#[derive(Clone, Copy)]
pub enum After {
    /// The next unit is served.
    Serve,
    /// A job's end is told.
    Tell(Ended),
    /// The unit may start a job.
    Start,
}

/// A place of a frame that starts or serves units.
#[derive(Clone, Copy)]
pub enum UnitPlace {
    /// In the first window of a request.
    Request(RequestPlace),
    /// The main function acts, and ends there where its unit sends by `Spi_SyncTransmit`, as the other one does then.
    Act,
    /// It opens the mask.
    Opens(After),
    /// It tells this, and then the other where there is one.
    Tell(Notice, Option<Notice>),
    /// In the serving window.
    Serve(ServePlace),
    /// In the start window.
    Start(StartPlace),
}

/// A frame that starts or serves units, from the load of the state word on, or from its beginning.
#[derive(Clone, Copy)]
pub struct UnitBody {
    /// The table.
    pub table: SpiTable,
    /// What it has to do.
    pub errand: FrameRole,
    /// The unit.
    pub unit: u8,
    /// Where it stands.
    pub place: UnitPlace,
}

impl Body for UnitBody {
    ghost use Rattle.spi_sequences.specs.laws.services.UnitSteps.{unit_work, unit_takes};

    ghost work_of = { unit_work };

    ghost takes = { unit_takes };

    fn next(&self) -> Move {
        match &self.place {
            UnitPlace::Request(request) => request.next(self.requested()),
            UnitPlace::Act => Move::Load(STATE),
            UnitPlace::Opens(_) => Move::Unmask,
            UnitPlace::Tell(notice, _) => Move::Note(*notice),
            UnitPlace::Serve(serve) => serve.next(&self.table, self.unit),
            UnitPlace::Start(start) => start.next(&self.table, self.unit),
        }
    }

    fn took(&mut self, value: u32) -> BodyTaken {
        let requested = self.requested();
        match &mut self.place {
            UnitPlace::Request(request) => match request.took(&self.table, requested, value) {
                Requested::Goes(event) => passes(event),
                Requested::Held => self.held(),
                Requested::Accepted => self.opens(After::Start),
            },
            UnitPlace::Act if self.table.is_sync(self.unit) => acts_with(
                nothing(),
                Epilogue::Nothing,
            ),
            UnitPlace::Act => {
                self.place = UnitPlace::Opens(After::Serve);
                acts()
            }
            UnitPlace::Opens(after) => {
                let after = *after;
                self.place = opened(after);
                goes()
            }
            UnitPlace::Tell(_, other) => {
                self.place = match *other {
                    Some(notice) => UnitPlace::Tell(notice, None),
                    None => UnitPlace::Start(StartPlace::Shut),
                };
                goes()
            }
            UnitPlace::Serve(serve) => match serve.took(&self.table, self.unit, value) {
                ServeStep::Goes(event) => passes(event),
                ServeStep::Over => self.over(),
                ServeStep::JobOver(ended) => self.opens(After::Tell(ended)),
            },
            UnitPlace::Start(start) => match start.took(&self.table, self.unit, value) {
                Started::Goes(event) => passes(event),
                Started::Over => self.over(),
            },
        }
    }
}

impl UnitBody {
    /// The sequence that is requested, 0 where none is.
    fn requested(&self) -> u8
        ensures { result ≡ spec.requested_by self.now.errand }
    {
        match self.errand {
            FrameRole::Transmit(sequence) => sequence,
            FrameRole::Handler | FrameRole::Main | FrameRole::Rest => 0,
        }
    }

    /// It opens the mask, and goes on so.
    fn opens(&mut self, after: After) -> BodyTaken
        ensures state { self.new ≡ spec.unit_at self.old (Opens after) }
        ensures step { result ≡ goes }
    {
        self.place = UnitPlace::Opens(after);
        goes()
    }

    /// A pending sequence is in the way of the request.
    fn held(&self) -> BodyTaken
        ensures { result ≡ spec.held_by self.now.table }
    {
        let owed = error(
            self.table.detect,
            self.table.classification,
            Service::SpiAsyncTransmit,
            ErrorName::SpiSeqPending,
        );
        acts_with(named(AnswerName::ENotOk), owed)
    }

    /// What is left of both units after the first one: it was served where a further word or a start was the last thing there.
    fn rest(&self) -> FrameRole
        ensures { result ≡ spec.rest_after self.now.place }
    {
        match &self.place {
            UnitPlace::Serve(ServePlace::Stand(_)) | UnitPlace::Start(_) => FrameRole::Rest,
            _ => FrameRole::Main,
        }
    }

    /// The unit has what it needs: the frame ends, or goes on with the other unit.
    fn over(&mut self) -> BodyTaken
        ensures state { self.new ≡ (spec.unit_over self.old self.old.place self.old.errand self.old.unit).0 }
        ensures step { result ≡ (spec.unit_over self.old self.old.place self.old.errand self.old.unit).1 }
    {
        match self.errand {
            FrameRole::Main if self.unit == 0 && !self.table.is_sync(1) => {
                self.errand = self.rest();
                self.unit = 1;
                self.opens(After::Serve)
            }
            FrameRole::Main | FrameRole::Rest | FrameRole::Handler => ends(
                None,
                nothing(),
                Epilogue::Nothing,
            ),
            FrameRole::Transmit(_) => ends(None, named(AnswerName::EOk), Epilogue::Nothing),
        }
    }
}

/// A step that goes on, with an event or none.
fn passes(event: Option<Event>) -> BodyTaken
    ensures { result ≡ spec.passes event }
{
    BodyTaken { event, done: None }
}

/// The place after the opening of the mask.
fn opened(after: After) -> UnitPlace
    ensures { result ≡ spec.opened after }
{
    match after {
        After::Serve => UnitPlace::Serve(ServePlace::Shut),
        After::Start => UnitPlace::Start(StartPlace::Shut),
        After::Tell(ended) => match (ended.job, ended.sequence) {
            (Some(job), sequence) => UnitPlace::Tell(job, sequence),
            (None, Some(sequence)) => UnitPlace::Tell(sequence, None),
            (None, None) => UnitPlace::Start(StartPlace::Shut),
        },
    }
}

ghost use Rattle.std.specs.Prelude.{◌≡◌, slice_index_or, slice_set};
ghost use Rattle.word_shapes.specs.jobs.Parts.{find_gave, has_ended, keep_ends, prepare_ends};
ghost use Rattle.spi_sequences.specs.laws.services.ServeSteps.{begins_of, first_internal};
ghost use Rattle.word_shapes.specs.TripleBuffer.{put_gave};
ghost use Rattle.spi_sequences.specs.laws.services.SyncSteps as spec;

use crate::service::job_end::left_after;
use crate::service::serve::{Arrived, SequenceNext, ServePlace, Served};
use crate::service::start::named as unit_named;
use crate::words::{
    FAILED, NEXTS, PENDING, Position, Running, job_word, position_word, running_word,
    sequence_word, with_next,
};
use mcal_base::{AnswerName, ErrorName, Event, Move, Reg, Routine, Service};
use service_outline::{Body, BodyTaken, Epilogue, acts_with, ends, error, goes, named};
use spi_machine::SpiTable;
use word_shapes::Put;
use word_shapes::jobs::{Find, Keep, Placed, Prepare, Side, Taker, asked, publish, taker_of};

/// A place of `Spi_SyncTransmit`, from the load of the state word on. A job begins in one window, in which the job before
/// it ends, each further word in another one, and the sequence ends in the last one. Between them the mask is open, and
/// the frame waits for the word in transfer.
#[derive(Clone, Copy)]
pub enum SyncPlace {
    /// It loads what the unit runs, and acts there where the unit isn't free.
    Free,
    /// The first word of its job is found; the other is the last word of the job before, where there is one.
    Find(Option<Arrived>, Find),
    /// The job's device is selected.
    Select(Option<Arrived>, u32),
    /// The width of its first channel is set.
    Width(Option<Arrived>, u32),
    /// Its first word begins.
    Begin(Option<Arrived>, u32),
    /// The sequence is pending.
    Pend,
    /// The last word of the job before, which has ended, is kept.
    Keep(Served, Keep),
    /// The received words of its channel at this place become readable.
    Commit(Served, u8, Put),
    /// It has its result.
    Result(Served),
    /// The channel at this place of the job that began is made ready.
    Prepare(u8, Prepare),
    /// The unit runs it.
    Run,
    /// Its first word is in transfer.
    Stand,
    /// It loads the next jobs.
    Nexts,
    /// The job is the sequence's next one.
    Next(u32),
    /// It opens the mask.
    Opens,
    /// It reads whether the word failed, for which it waits until the word is done.
    Wait,
    /// It closes the mask; this says whether the word failed.
    Shut(bool),
    /// It loads what tells where the word goes.
    Taker(bool),
    /// It reads what came in.
    Receive(Served, Taker),
    /// It is in the window of a further word of the job, or of the end.
    Serve(ServePlace),
}

/// `Spi_SyncTransmit`, from the load of the state word on. What it keeps of the unit is true while no other frame may use
/// the unit.
#[derive(Clone, Copy)]
pub struct SyncBody {
    /// The table.
    pub table: SpiTable,
    /// The sequence.
    pub sequence: u8,
    /// Its unit.
    pub unit: u8,
    /// The place of its job in the sequence.
    pub job: u8,
    /// The place of the word in transfer in the job.
    pub at: Position,
    /// The banks that take the received words of the job's channels.
    pub banks: [u8; 4],
    /// Where it stands.
    pub place: SyncPlace,
}

impl Body for SyncBody {
    ghost use Rattle.spi_sequences.specs.laws.services.SyncSteps.{sync_work, sync_takes};

    ghost work_of = { sync_work };

    ghost takes = { sync_takes };

    fn next(&self) -> Move {
        let number = u32::from(self.unit);
        match &self.place {
            SyncPlace::Free => Move::Load(running_word(self.unit)),
            SyncPlace::Find(_, find) => find.next(),
            SyncPlace::Select(..) => {
                Move::Write(
                    Reg::SerialSelect(number),
                    self.table.select(self.running().job),
                )
            }
            SyncPlace::Width(..) => {
                let width = self.channel_at(0).channel.width;
                Move::Write(Reg::SerialWidth(number), u32::from(width))
            }
            SyncPlace::Begin(_, word) => Move::Write(Reg::SerialData(number), *word),
            SyncPlace::Pend => Move::Store(sequence_word(self.sequence), PENDING),
            SyncPlace::Keep(_, keep) => keep.next(),
            SyncPlace::Commit(_, _, put) => put.next(),
            SyncPlace::Result(served) => Move::Store(job_word(served.run.job), 0),
            SyncPlace::Prepare(_, prepare) => prepare.next(),
            SyncPlace::Run => Move::Store(running_word(self.unit), self.running().packed()),
            SyncPlace::Stand => Move::Store(position_word(self.unit), 0),
            SyncPlace::Nexts => Move::Load(NEXTS),
            SyncPlace::Next(nexts) => Move::Store(NEXTS, *nexts),
            SyncPlace::Opens => Move::Unmask,
            SyncPlace::Wait => Move::Read(Reg::SerialWait(number)),
            SyncPlace::Shut(_) => Move::Mask,
            SyncPlace::Taker(_) => asked(self.channel_at(self.at.channel), self.at.word),
            SyncPlace::Receive(..) => Move::Read(Reg::SerialReceived(number)),
            SyncPlace::Serve(serve) => serve.next(&self.table, self.unit),
        }
    }

    fn took(&mut self, value: u32) -> BodyTaken {
        self.place = match self.place {
            SyncPlace::Free if value != 0 => return self.in_process(),
            SyncPlace::Free => self.finds(None),
            SyncPlace::Find(before, find) => found(before, find, value),
            SyncPlace::Select(before, word) => SyncPlace::Width(before, word),
            SyncPlace::Width(before, word) => SyncPlace::Begin(before, word),
            SyncPlace::Begin(before, _) => {
                self.place = self.begun(before);
                return starts(self.unit);
            }
            SyncPlace::Pend | SyncPlace::Result(_) => self.prepares(),
            SyncPlace::Keep(served, keep) => self.kept(served, keep),
            SyncPlace::Commit(served, place, put) => self.committed(served, place, put, value),
            SyncPlace::Prepare(place, prepare) => self.prepared(place, prepare, value),
            SyncPlace::Run => SyncPlace::Stand,
            SyncPlace::Stand => {
                self.at = FIRST;
                SyncPlace::Nexts
            }
            SyncPlace::Nexts => SyncPlace::Next(with_next(value, self.sequence, self.job)),
            SyncPlace::Next(_) => SyncPlace::Opens,
            SyncPlace::Opens => SyncPlace::Wait,
            SyncPlace::Wait => SyncPlace::Shut(value / 4 % 2 == 1),
            SyncPlace::Shut(failed) => SyncPlace::Taker(failed),
            SyncPlace::Taker(failed) => self.comes(failed, value),
            SyncPlace::Receive(served, taker) => self.arrives(Arrived {
                served,
                taker,
                word: value,
            }),
            SyncPlace::Serve(serve) => return self.serves(serve, value),
        };
        goes()
    }
}

/// The place of a job's first word.
const FIRST: Position = Position {
    channel: 0,
    word: 0,
};

impl SyncBody {
    /// The sending of a sequence, which has begun none of its words.
    pub fn new(table: SpiTable, sequence: u8, unit: u8) -> SyncBody
        ensures { result ≡ spec.sync_begins table sequence unit }
    {
        SyncBody {
            table,
            sequence,
            unit,
            job: 0,
            at: FIRST,
            banks: [0; 4],
            place: SyncPlace::Free,
        }
    }

    /// Its job.
    fn running(&self) -> Running
        ensures { result ≡ spec.run_sent self.now }
    {
        Running {
            job: self.table.job_at(self.sequence, self.job),
            sequence: self.sequence,
        }
    }

    /// The channel at a place of its job.
    fn channel_at(&self, place: u8) -> Placed
        ensures { result ≡ spec.channel_sent self.now place }
    {
        self.table.channel_at(self.running().job, place)
    }

    /// The unit carries out a sequence already.
    fn in_process(&self) -> BodyTaken
        ensures { result ≡ spec.in_process self.now.table }
    {
        let owed = error(
            self.table.detect,
            self.table.classification,
            Service::SpiSyncTransmit,
            ErrorName::SpiSeqInProcess,
        );
        acts_with(named(AnswerName::ENotOk), owed)
    }

    /// The first word of its job is looked for.
    fn finds(&self, before: Option<Arrived>) -> SyncPlace
        ensures { result ≡ spec.sync_finds self.now before }
    {
        SyncPlace::Find(before, Find::first(self.channel_at(0)))
    }

    /// What follows the beginning of a job's first word.
    fn begun(&self, before: Option<Arrived>) -> SyncPlace
        ensures { result ≡ spec.sync_begun self.now before }
    {
        match before {
            None => SyncPlace::Pend,
            Some(arrived) => SyncPlace::Keep(arrived.served, arrived.keep(&self.table)),
        }
    }

    /// What follows a step that keeps the last word of the job before.
    fn kept(&self, served: Served, mut keep: Keep) -> SyncPlace
        ensures { result ≡ spec.sync_keeps self.now served keep (keep_ends keep) }
    {
        if keep.took() {
            self.commits(served, 4)
        } else {
            SyncPlace::Keep(served, keep)
        }
    }

    /// The received words of the job before become readable, of the first internal channel among its last places, of
    /// four.
    fn commits(&self, served: Served, count: u8) -> SyncPlace
        ensures { result ≡ spec.sync_commits self.now served (first_internal self.now.table served count) }
    {
        match served.first_internal(&self.table, count) {
            Some(place) => {
                let placed = self.table.channel_at(served.run.job, place);
                let bank = bank_at(&self.banks, place);
                SyncPlace::Commit(served, place, publish(placed, Side::Received, bank))
            }
            None => SyncPlace::Result(served),
        }
    }

    /// What follows a step of such a channel.
    fn committed(&self, served: Served, place: u8, mut put: Put, value: u32) -> SyncPlace
        ensures { result ≡ spec.sync_committed self.now served place put value (has_ended (put_gave put value)) }
    {
        if put.took(value).ended.is_some() {
            self.commits(served, left_after(place))
        } else {
            SyncPlace::Commit(served, place, put)
        }
    }

    /// The channels of the job that began are made ready. Nothing is read any more of an internal one whose only word is
    /// in transfer.
    fn prepares(&self) -> SyncPlace
        ensures { result ≡ spec.sync_prepares self.now }
    {
        let first = self.channel_at(0).channel;
        let begins_whole = first.internal && first.length <= 1;
        self.prepares_at(if begins_whole { 1 } else { 0 })
    }

    /// The channel at a place is made ready, where there is one.
    fn prepares_at(&self, place: u8) -> SyncPlace
        ensures { result ≡ spec.sync_prepares_at self.now place }
    {
        match self.table.channels_of(self.running().job).at(place) {
            Some(number) => SyncPlace::Prepare(place, Prepare::of(self.table.placed(number))),
            None => SyncPlace::Run,
        }
    }

    /// What follows a step that makes a channel ready.
    fn prepared(&self, place: u8, mut prepare: Prepare, value: u32) -> SyncPlace
        ensures { result ≡ spec.sync_prepared self.now place prepare value (prepare_ends prepare value) }
    {
        if !prepare.took(value) {
            return SyncPlace::Prepare(place, prepare);
        }
        if place < 3 {
            self.prepares_at(place + 1)
        } else {
            SyncPlace::Run
        }
    }

    /// What follows the load that tells where the word goes.
    fn comes(&mut self, failed: bool, value: u32) -> SyncPlace
        ensures state { self.new ≡ spec.with_taken self.old (spec.taker_sent self.old value) }
        ensures place { result ≡ spec.sync_comes self.old failed (spec.taker_sent self.old value) }
    {
        let taker = taker_of(self.channel_at(self.at.channel), self.at.word, value);
        let served = Served {
            run: self.running(),
            at: self.at,
            failed,
        };
        if let Taker::Bank(bank) = taker {
            self.banks = with_bank(&self.banks, self.at.channel, bank);
        }
        SyncPlace::Receive(served, taker)
    }

    /// What follows the read of what came in: a further word of the job, the next job, or the end.
    fn arrives(&mut self, arrived: Arrived) -> SyncPlace
        ensures state { self.new ≡ (spec.sync_arrives self.old arrived (begins_of self.old.table arrived)).0 }
        ensures place { result ≡ (spec.sync_arrives self.old arrived (begins_of self.old.table arrived)).1 }
    {
        let serve = arrived.begins(&self.table);
        if matches!(serve, ServePlace::Width(..)) {
            return SyncPlace::Serve(serve);
        }
        if arrived.served.failed {
            return ends_with(arrived, FAILED);
        }
        if self.has_further_job() {
            self.job += 1;
            return self.finds(Some(arrived));
        }
        ends_with(arrived, 0)
    }

    /// Whether a further job of the sequence is there.
    fn has_further_job(&self) -> bool
        ensures { result ≡ spec.has_further_job self.now }
    {
        self.job < 15 && self.job + 1 < self.table.jobs_of(self.sequence).count
    }

    /// What follows a step of a further word's window, or of the last one.
    fn serves(&mut self, mut serve: ServePlace, value: u32) -> BodyTaken
        ensures state { self.new ≡ (spec.sync_serves self.old serve value).0 }
        ensures step { result ≡ (spec.sync_serves self.old serve value).1 }
    {
        match serve {
            ServePlace::End(_, result) => {
                let answer = if result == 0 {
                    AnswerName::EOk
                } else {
                    AnswerName::ENotOk
                };
                return ends(None, named(answer), Epilogue::Nothing);
            }
            ServePlace::Stand(next) => {
                self.at = next;
                self.place = SyncPlace::Opens;
                return goes();
            }
            ServePlace::Width(..)
            | ServePlace::Find(..)
            | ServePlace::Begin(..)
            | ServePlace::Let(..)
            | ServePlace::Keep(..)
            | ServePlace::Acknowledge(..)
            | ServePlace::Free(..)
            | ServePlace::Release(..)
            | ServePlace::KeepLast(..)
            | ServePlace::Commit(..)
            | ServePlace::Result(..) => {}
            // no other place is in one of these windows
            _ => return ends(None, named(AnswerName::ENotOk), Epilogue::Nothing),
        }
        let event = event_at(&serve, self.unit);
        serve.took(&self.table, self.unit, value);
        self.place = SyncPlace::Serve(serve);
        BodyTaken { event, done: None }
    }
}

/// A word begins at the step, on a unit.
fn starts(unit: u8) -> BodyTaken
    ensures { result ≡ spec.sync_starts unit }
{
    BodyTaken {
        event: Some(Event::Start(unit_named(unit))),
        done: None,
    }
}

/// The event at a step of a window: a word begins, or the call acts.
fn event_at(serve: &ServePlace, unit: u8) -> Option<Event>
    ensures { result ≡ spec.sync_event unit serve.now }
{
    match serve {
        ServePlace::Begin(..) => Some(Event::Start(unit_named(unit))),
        ServePlace::Acknowledge(..) => Some(Event::Act),
        _ => None,
    }
}

/// The sequence ends with the word that came, and with this result.
fn ends_with(arrived: Arrived, word: u32) -> SyncPlace
    ensures { result ≡ spec.sync_ends arrived word }
{
    SyncPlace::Serve(ServePlace::Acknowledge(arrived, SequenceNext::Ends(word)))
}

/// What follows a step of the look for a job's first word.
fn found(before: Option<Arrived>, mut find: Find, value: u32) -> SyncPlace
    ensures { result ≡ spec.sync_found before find value (find_gave find value) }
{
    match find.took(value) {
        Some(word) => SyncPlace::Select(before, word),
        None => SyncPlace::Find(before, find),
    }
}

/// The bank of a channel's place in a job, 0 where there is none.
fn bank_at(banks: &[u8; 4], place: u8) -> u8
    ensures { result ≡ slice_index_or banks.now place 0 }
{
    if place < 4 { banks[place as usize] } else { 0 }
}

/// The banks with this one at a place.
fn with_bank(banks: &[u8; 4], place: u8, bank: u8) -> [u8; 4]
    ensures { result ≡ slice_set banks.now place bank }
{
    let mut changed = *banks;
    if place < 4 {
        changed[place as usize] = bank;
    }
    changed
}

ghost use Rattle.std.specs.Prelude.{◌≡◌, ◌-◌, None};
ghost use Rattle.word_shapes.specs.TripleBuffer.{take_gave};
ghost use Rattle.word_shapes.specs.declared.again.Again.TheVariants as agains;
ghost use Rattle.word_shapes.specs.declared.dropped.Dropped.TheVariants as drops;
ghost use Rattle.word_shapes.specs.jobs.Parts.{has_ended, find_gave, finding, keep_ends, taker_of};
ghost use Rattle.spi_sequences.specs.Words.{cancelled_bit, has_mark, order_places, position_in, run_in, search_of};
ghost use Rattle.spi_sequences.specs.declared.service.serve.ServePlace.TheVariants as places;
ghost use Rattle.spi_sequences.specs.declared.service.serve.ServeStep.TheVariants.{Goes};
ghost use Rattle.spi_sequences.specs.laws.services.ServeSteps as spec;

use crate::service::job_end::{committed, kept_last, leaves, released, waits};
use crate::words::{
    MARKS, NEXTS, Position, Running, cancelled_bit, has, job_word, order, position_word,
    running_word, search, sequence_word,
};
use mcal_base::{Event, Move, Notice, Reg, Routine};
use spi_machine::SpiTable;
use word_shapes::jobs::{Commit, Find, Keep, Placed, Side, Taker, asked, release, taker_of};
use word_shapes::{Again, Dropped, Take};

/// The word in transfer that is served.
#[derive(Clone, Copy)]
pub struct Served {
    /// What the unit runs.
    pub run: Running,
    /// The place of the word in the job.
    pub at: Position,
    /// Whether it failed.
    pub failed: bool,
}

/// The same, with where it goes and what came in.
#[derive(Clone, Copy)]
pub struct Arrived {
    /// The word.
    pub served: Served,
    /// Where it goes.
    pub taker: Taker,
    /// What came in.
    pub word: u32,
}

/// How a sequence goes on after its job.
#[derive(Clone, Copy)]
pub enum SequenceNext {
    /// With a further job, of these next jobs.
    Further(u32),
    /// It ends, with this result.
    Ends(u32),
}

/// The last word of a job that ends, and how its sequence goes on.
#[derive(Clone, Copy)]
pub struct Leaving {
    /// The word.
    pub served: Served,
    /// Where it goes.
    pub taker: Taker,
    /// How the sequence goes on.
    pub course: SequenceNext,
}

/// A place of the serving window of a unit.
#[derive(Clone, Copy)]
pub enum ServePlace {
    /// It closes the mask.
    Shut,
    /// It reads whether the word in transfer is done.
    State,
    /// It loads what the unit runs; this says whether the word failed.
    Running(bool),
    /// It loads the place of the word.
    Position(Running, bool),
    /// It loads what tells where the word goes.
    Taker(Served),
    /// It reads what came in.
    Receive(Served, Taker),
    /// A further word is there: the width of its channel is set.
    Width(Arrived, Position),
    /// The further word is found.
    Find(Arrived, Position, Find),
    /// It serves: the further word begins.
    Begin(Arrived, Position, u32),
    /// The pin of its channel ends, of which it is the last word.
    Let(Arrived, Position, Take),
    /// What came in is kept.
    Keep(Keep, Position),
    /// The further word is in transfer.
    Stand(Position),
    /// The job ends: it loads the marks.
    Marks(Arrived),
    /// It loads the next jobs; this says whether the sequence is cancelled.
    Nexts(Arrived, bool),
    /// It serves, and the unit has no word any more.
    Acknowledge(Arrived, SequenceNext),
    /// The unit is free.
    Free(Arrived, SequenceNext),
    /// The job failed: the pin of its channel at this place ends.
    Release(Leaving, u8, Take),
    /// The job ended well: its last word is kept.
    KeepLast(Leaving, Keep),
    /// The received words of its channel at this place become readable.
    Commit(Leaving, u8, Commit),
    /// The job has its result.
    Result(Leaving),
    /// The sequence goes on with a further job, of these next jobs.
    Further(Served, u32),
    /// It waits again.
    Again(Served, Again),
    /// The sequence has ended, with this result.
    End(Served, u32),
    /// It leaves the order.
    Drop(Served, Dropped),
}

/// The notices of the end of a job and of its sequence.
#[derive(Clone, Copy)]
pub struct Ended {
    /// Of the job, where it is told.
    pub job: Option<Notice>,
    /// Of the sequence, where it ended and that is told.
    pub sequence: Option<Notice>,
}

/// What a step of the serving window was.
#[derive(Clone, Copy)]
pub enum ServeStep {
    /// It goes on, with this event.
    Goes(Option<Event>),
    /// It was the last one: nothing was served, or a further word began.
    Over,
    /// It was the last one: a job ended.
    JobOver(Ended),
}

impl ServePlace {
    /// The next move, on a unit.
    pub fn next(&self, table: &SpiTable, unit: u8) -> Move
        ensures { result ≡ spec.serve_move table.now unit self.now }
    {
        let number = u32::from(unit);
        match self {
            ServePlace::Shut => Move::Mask,
            ServePlace::State => Move::Read(Reg::SerialState(number)),
            ServePlace::Running(_) => Move::Load(running_word(unit)),
            ServePlace::Position(..) => Move::Load(position_word(unit)),
            ServePlace::Taker(served) => asked(served.channel(table), served.at.word),
            ServePlace::Receive(..) => Move::Read(Reg::SerialReceived(number)),
            ServePlace::Width(arrived, next) => {
                let placed = table.channel_at(arrived.served.run.job, next.channel);
                Move::Write(Reg::SerialWidth(number), u32::from(placed.channel.width))
            }
            ServePlace::Find(_, _, find) => find.next(),
            ServePlace::Begin(_, _, word) => Move::Write(Reg::SerialData(number), *word),
            ServePlace::Keep(keep, _) | ServePlace::KeepLast(_, keep) => keep.next(),
            ServePlace::Stand(next) => Move::Store(position_word(unit), next.packed()),
            ServePlace::Acknowledge(..) => Move::Write(Reg::SerialAck(number), 1),
            ServePlace::Free(..) => Move::Store(running_word(unit), 0),
            ServePlace::Let(_, _, take) | ServePlace::Release(_, _, take) => take.next(),
            ServePlace::Commit(_, _, commit) => commit.next(),
            ServePlace::Result(leaving) => {
                let served = leaving.served;
                Move::Store(job_word(served.run.job), if served.failed { 1 } else { 0 })
            }
            ServePlace::Marks(_) => Move::Load(MARKS),
            ServePlace::Nexts(..) => Move::Load(NEXTS),
            ServePlace::Further(_, nexts) => Move::Store(NEXTS, *nexts),
            ServePlace::Again(_, again) => again.next(),
            ServePlace::End(served, result) => {
                Move::Store(sequence_word(served.run.sequence), *result)
            }
            ServePlace::Drop(_, dropped) => dropped.next(),
        }
    }

    /// Takes what the move gave.
    pub fn took(&mut self, table: &SpiTable, unit: u8, value: u32) -> ServeStep
        ensures state { self.new ≡ (spec.serve_takes table.now unit self.old value).0 }
        ensures step { result ≡ (spec.serve_takes table.now unit self.old value).1 }
    {
        let serves = ServeStep::Goes(Some(Event::Serve(26 + u32::from(unit))));
        let (after, step) = match *self {
            ServePlace::Shut => goes(ServePlace::State),
            ServePlace::State if value / 2 % 2 == 0 => (*self, ServeStep::Over),
            ServePlace::State => goes(ServePlace::Running(value / 4 % 2 == 1)),
            ServePlace::Running(failed) => runs(failed, value),
            ServePlace::Position(run, failed) => goes(stands(run, failed, value)),
            ServePlace::Taker(served) => goes(served.receives(table, value)),
            ServePlace::Receive(served, taker) => goes(came(served, taker, value).begins(table)),
            ServePlace::Width(arrived, next) => goes(arrived.finds(table, next)),
            ServePlace::Find(arrived, next, find) => found(arrived, next, find, value),
            ServePlace::Begin(arrived, next, _) => (arrived.lets(table, next), serves),
            ServePlace::Let(arrived, next, take) => let_go(table, arrived, next, take, value),
            ServePlace::Keep(keep, next) => kept(keep, next),
            ServePlace::Stand(_) => (*self, ServeStep::Over),
            ServePlace::Marks(arrived) => goes(arrived.marked(value)),
            ServePlace::Nexts(arrived, cancelled) => goes(arrived.frees(table, cancelled, value)),
            ServePlace::Acknowledge(arrived, course) => (ServePlace::Free(arrived, course), serves),
            ServePlace::Free(arrived, course) => goes(arrived.ends(table, course)),
            ServePlace::Release(leaving, place, take) => {
                released(table, leaving, place, take, value)
            }
            ServePlace::KeepLast(leaving, keep) => kept_last(table, leaving, keep),
            ServePlace::Commit(leaving, place, commit) => {
                committed(table, leaving, place, commit, value)
            }
            ServePlace::Result(leaving) => goes(leaving.goes_on()),
            ServePlace::Further(served, _) => goes(served.waits_again(unit)),
            ServePlace::Again(served, again) => waits(table, served, again, value),
            ServePlace::End(served, _) => goes(served.drops(unit)),
            ServePlace::Drop(served, dropped) => leaves(table, served, dropped, value),
        };
        *self = after;
        step
    }
}

/// It goes on at a place, with no event.
pub(super) fn goes(place: ServePlace) -> (ServePlace, ServeStep)
    ensures { result ≡ (place, Goes None) }
{
    (place, ServeStep::Goes(None))
}

/// What follows the load of the word's place.
fn stands(run: Running, failed: bool, value: u32) -> ServePlace
    ensures { result ≡ places.Taker (record { run = run; at = position_in value; failed = failed }) }
{
    let at = Position::unpacked(value);
    ServePlace::Taker(Served { run, at, failed })
}

/// The word that was read, with where it goes.
fn came(served: Served, taker: Taker, word: u32) -> Arrived
    ensures { result ≡ record { served = served; taker = taker; word = word } }
{
    Arrived {
        served,
        taker,
        word,
    }
}

/// What follows the load of what the unit runs.
fn runs(failed: bool, value: u32) -> (ServePlace, ServeStep)
    ensures { result ≡ spec.serve_run failed (run_in value) }
{
    match Running::unpacked(value) {
        Some(run) => goes(ServePlace::Position(run, failed)),
        None => (ServePlace::Running(failed), ServeStep::Over),
    }
}

/// What follows a step of the look for the further word.
fn found(arrived: Arrived, next: Position, mut find: Find, value: u32) -> (ServePlace, ServeStep)
    ensures { result ≡ spec.serve_finds arrived next find value (find_gave find value) }
{
    match find.took(value) {
        Some(word) => goes(ServePlace::Begin(arrived, next, word)),
        None => goes(ServePlace::Find(arrived, next, find)),
    }
}

/// What follows a step that ends the pin of the further word's channel.
fn let_go(
    table: &SpiTable,
    arrived: Arrived,
    next: Position,
    mut take: Take,
    value: u32,
) -> (ServePlace, ServeStep)
    ensures { result ≡ spec.serve_lets table.now arrived next take value (has_ended (take_gave take value)) }
{
    if take.took(value).ended.is_some() {
        goes(ServePlace::Keep(arrived.keep(table), next))
    } else {
        goes(ServePlace::Let(arrived, next, take))
    }
}

/// What follows a step that keeps a word.
fn kept(mut keep: Keep, next: Position) -> (ServePlace, ServeStep)
    ensures { result ≡ spec.serve_keeps keep next (keep_ends keep) }
{
    if keep.took() {
        goes(ServePlace::Stand(next))
    } else {
        goes(ServePlace::Keep(keep, next))
    }
}

impl Served {
    /// The channel of the word.
    fn channel(&self, table: &SpiTable) -> Placed
        ensures { result ≡ spec.channel_served table.now self.now }
    {
        table.channel_at(self.run.job, self.at.channel)
    }

    /// What follows the load of what tells where the word goes.
    fn receives(self, table: &SpiTable, value: u32) -> ServePlace
        ensures { result ≡ places.Receive self (taker_of (spec.channel_served table.now self) self.at.word value) }
    {
        let taker = taker_of(self.channel(table), self.at.word, value);
        ServePlace::Receive(self, taker)
    }

    /// The sequence waits again on the unit.
    fn waits_again(self, unit: u8) -> ServePlace
        ensures { result ≡ places.Again self (agains.Look (order_places unit) self.run.sequence) }
    {
        let again = Again::Look(order(unit), u32::from(self.run.sequence));
        ServePlace::Again(self, again)
    }

    /// The sequence leaves the order of the unit.
    fn drops(self, unit: u8) -> ServePlace
        ensures { result ≡ places.Drop self (drops.Look (search_of unit) self.run.sequence) }
    {
        let dropped = Dropped::Look(search(unit), u32::from(self.run.sequence));
        ServePlace::Drop(self, dropped)
    }

    /// The first place among the last ones of four whose channel is pinned: not all of its words have begun.
    pub(super) fn first_pinned(&self, table: &SpiTable, count: u8) -> Option<u8>
        ensures { result ≡ spec.first_pinned table.now self.now count }
    {
        if count == 0 || 4 < count {
            return None;
        }
        let place = 4 - count;
        match table.channels_of(self.run.job).at(place) {
            Some(number) if self.is_pinned(place, table.placed(number)) => Some(place),
            _ => self.first_pinned(table, count - 1),
        }
    }

    /// Whether the pin of the channel at a place stands.
    fn is_pinned(&self, place: u8, placed: Placed) -> bool
        ensures { result ≡ spec.is_pinned_at self.now place placed }
    {
        placed.channel.internal && !(place == self.at.channel && is_last(placed, self.at.word))
    }

    /// The first place among the last ones of four whose channel is internal.
    pub(crate) fn first_internal(&self, table: &SpiTable, count: u8) -> Option<u8>
        ensures { result ≡ spec.first_internal table.now self.now count }
    {
        if count == 0 || 4 < count {
            return None;
        }
        let place = 4 - count;
        match table.channels_of(self.run.job).at(place) {
            Some(number) if table.placed(number).channel.internal => Some(place),
            _ => self.first_internal(table, count - 1),
        }
    }
}

impl Arrived {
    /// The search for the word at a place, whose channel's width was set.
    fn finds(self, table: &SpiTable, next: Position) -> ServePlace
        ensures { result ≡ places.Find self next (finding (spec.channel_next table.now self next) next.word) }
    {
        let placed = table.channel_at(self.served.run.job, next.channel);
        ServePlace::Find(self, next, Find::of(placed, next.word))
    }

    /// What follows the load of the marks.
    fn marked(self, marks: u32) -> ServePlace
        ensures { result ≡ places.Nexts self (has_mark marks (cancelled_bit self.served.run.sequence)) }
    {
        let cancelled = has(marks, cancelled_bit(self.served.run.sequence));
        ServePlace::Nexts(self, cancelled)
    }

    /// What follows the load of the next jobs.
    fn frees(self, table: &SpiTable, cancelled: bool, nexts: u32) -> ServePlace
        ensures { result ≡ places.Acknowledge self (spec.after_job table.now self.served cancelled nexts) }
    {
        let course = self.served.after_job(table, cancelled, nexts);
        ServePlace::Acknowledge(self, course)
    }

    /// The word that begins next, where one does, or the end of the job.
    pub(crate) fn begins(&self, table: &SpiTable) -> ServePlace
        ensures { result ≡ spec.begins_of table.now self.now }
    {
        if self.served.failed {
            return ServePlace::Marks(*self);
        }
        match self.further(table) {
            Some(next) => ServePlace::Width(*self, next),
            None => ServePlace::Marks(*self),
        }
    }

    /// The place of the word after this one in the job.
    fn further(&self, table: &SpiTable) -> Option<Position>
        ensures { result ≡ spec.further_of table.now self.now }
    {
        let at = self.served.at;
        let most = self.served.channel(table).channel.length;
        let length = match self.taker {
            Taker::Bank(_) => most,
            Taker::SetUp(set_up) => set_up.length.min(most),
        };
        if at.word < 255 && at.word + 1 < length {
            return Some(Position {
                channel: at.channel,
                word: at.word + 1,
            });
        }
        if at.channel < 3 && at.channel + 1 < table.channels_of(self.served.run.job).count {
            return Some(Position {
                channel: at.channel + 1,
                word: 0,
            });
        }
        None
    }

    /// What follows the beginning of the next word: nothing is read any more of a channel whose last word it is.
    fn lets(&self, table: &SpiTable, next: Position) -> ServePlace
        ensures { result ≡ spec.lets_of table.now self.now next }
    {
        let placed = table.channel_at(self.served.run.job, next.channel);
        if placed.channel.internal && is_last(placed, next.word) {
            ServePlace::Let(*self, next, release(placed, Side::Sent))
        } else {
            ServePlace::Keep(self.keep(table), next)
        }
    }

    /// What came in is kept.
    pub(crate) fn keep(&self, table: &SpiTable) -> Keep
        ensures { result ≡ spec.keep_of table.now self.now }
    {
        let placed = self.served.channel(table);
        Keep::of(placed, self.served.at.word, self.taker, self.word)
    }

    /// What follows the end of the job.
    fn ends(&self, table: &SpiTable, course: SequenceNext) -> ServePlace
        ensures { result ≡ spec.ends_of table.now self.now course }
    {
        let leaving = Leaving {
            served: self.served,
            taker: self.taker,
            course,
        };
        if self.served.failed {
            leaving.release_last(table, left_from(self.served.at.channel))
        } else {
            ServePlace::KeepLast(leaving, self.keep(table))
        }
    }
}

/// How many of four places are left from this one on.
fn left_from(place: u8) -> u8
    ensures { result ≡ 4 - place }
{
    if place < 4 { 4 - place } else { 0 }
}

/// Whether a place is the last one of a channel.
fn is_last(placed: Placed, place: u8) -> bool
    ensures { result ≡ spec.is_last_place placed place }
{
    u32::from(placed.channel.length) <= u32::from(place) + 1
}

ghost use Rattle.std.specs.Prelude.{◌≡◌, None};
ghost use Rattle.word_shapes.specs.PriorityQueue.{front_gave, next_gave};
ghost use Rattle.word_shapes.specs.TripleBuffer.{take_gave};
ghost use Rattle.word_shapes.specs.jobs.Parts.{has_ended, find_gave, prepare_ends};
ghost use Rattle.spi_sequences.specs.declared.service.start.Started.TheVariants.{Goes};
ghost use Rattle.spi_sequences.specs.laws.services.StartSteps as spec;

use crate::words::{
    MARKS, NEXTS, Running, has, next_of, position_word, running_word, search, started_bit,
};
use mcal_base::{Event, Move, Reg, Routine, Unit};
use spi_machine::SpiTable;
use word_shapes::jobs::{Find, Prepare, Side, gave, release};
use word_shapes::{Front, Next, Take};

/// The job that is chosen, by these next jobs and marks.
#[derive(Clone, Copy)]
pub struct Chosen {
    /// The job and its sequence.
    pub run: Running,
    /// The places of the next jobs.
    pub nexts: u32,
    /// The marks.
    pub marks: u32,
}

/// A place of the start window of a unit: a free unit starts the next job of the best pending sequence. Up to the start
/// it only looks.
#[derive(Clone, Copy)]
pub enum StartPlace {
    /// It closes the mask.
    Shut,
    /// It loads what the unit runs.
    Running,
    /// It loads the next jobs.
    Nexts,
    /// It loads the marks; these are the next jobs.
    Marks(u32),
    /// It looks for the best sequence; these are the next jobs and the marks.
    Front(u32, u32, Front),
    /// The job's first word is found.
    Find(Chosen, Find),
    /// The job's device is selected.
    Select(Chosen, u32),
    /// The width of its first channel is set.
    Width(Chosen, u32),
    /// Its first word begins.
    Begin(Chosen, u32),
    /// Its sequence waits no longer.
    Choose(Chosen, Next),
    /// The sequence has started.
    Mark(Chosen),
    /// The channel at this place of the job is made ready.
    Prepare(Running, u8, Prepare),
    /// The pin of its first channel ends, which has one word.
    Release(Running, Take),
    /// The unit runs it.
    Run(Running),
    /// Its first word is in transfer.
    Stand,
}

/// What a step of the start window was.
#[derive(Clone, Copy)]
pub enum Started {
    /// It goes on, with this event.
    Goes(Option<Event>),
    /// It was the last one.
    Over,
}

impl StartPlace {
    /// The next move, on a unit.
    pub fn next(&self, table: &SpiTable, unit: u8) -> Move
        ensures { result ≡ spec.start_move table.now unit self.now }
    {
        match self {
            StartPlace::Shut => Move::Mask,
            StartPlace::Running => Move::Load(running_word(unit)),
            StartPlace::Nexts => Move::Load(NEXTS),
            StartPlace::Marks(_) => Move::Load(MARKS),
            StartPlace::Front(_, _, front) => front.next(),
            StartPlace::Find(_, find) => find.next(),
            StartPlace::Select(chosen, _) => Move::Write(
                Reg::SerialSelect(u32::from(unit)),
                table.select(chosen.run.job),
            ),
            StartPlace::Width(chosen, _) => Move::Write(
                Reg::SerialWidth(u32::from(unit)),
                u32::from(table.channel_at(chosen.run.job, 0).channel.width),
            ),
            StartPlace::Begin(_, word) => Move::Write(Reg::SerialData(u32::from(unit)), *word),
            StartPlace::Choose(_, next) => next.next(),
            StartPlace::Mark(chosen) => Move::Store(MARKS, chosen.started()),
            StartPlace::Prepare(_, _, prepare) => prepare.next(),
            StartPlace::Release(_, take) => take.next(),
            StartPlace::Run(run) => Move::Store(running_word(unit), run.packed()),
            StartPlace::Stand => Move::Store(position_word(unit), 0),
        }
    }

    /// Takes what the move gave.
    pub fn took(&mut self, table: &SpiTable, unit: u8, value: u32) -> Started
        ensures state { self.new ≡ (spec.start_takes table.now unit self.old value).0 }
        ensures step { result ≡ (spec.start_takes table.now unit self.old value).1 }
    {
        let (after, step) = match *self {
            StartPlace::Shut => goes(StartPlace::Running),
            StartPlace::Running if value != 0 => (*self, Started::Over),
            StartPlace::Running => goes(StartPlace::Nexts),
            StartPlace::Nexts => goes(StartPlace::Marks(value)),
            StartPlace::Marks(nexts) => {
                let ranks = ranks(table, nexts, value);
                let search = search(unit);
                goes(StartPlace::Front(nexts, value, Front { search, ranks }))
            }
            StartPlace::Front(nexts, marks, front) => looked(table, nexts, marks, front, value),
            StartPlace::Find(chosen, find) => found(chosen, find, value),
            StartPlace::Select(chosen, word) => goes(StartPlace::Width(chosen, word)),
            StartPlace::Width(chosen, word) => goes(StartPlace::Begin(chosen, word)),
            StartPlace::Begin(chosen, _) => {
                let next = Next::Look(search(unit), ranks(table, chosen.nexts, chosen.marks));
                let starts = Started::Goes(Some(Event::Start(named(unit))));
                (StartPlace::Choose(chosen, next), starts)
            }
            StartPlace::Choose(chosen, next) => chose(chosen, next, value),
            StartPlace::Mark(chosen) => goes(prepare(table, chosen.run, 0)),
            StartPlace::Prepare(run, place, part) => readied(table, run, place, part, value),
            StartPlace::Release(run, take) => released(run, take, value),
            StartPlace::Run(_) => goes(StartPlace::Stand),
            StartPlace::Stand => (*self, Started::Over),
        };
        *self = after;
        step
    }
}

/// It goes on at a place, with no event.
fn goes(place: StartPlace) -> (StartPlace, Started)
    ensures { result ≡ (place, Goes None) }
{
    (place, Started::Goes(None))
}

/// What follows a step of the look at the order: the choice of a sequence and its job, where it was the last one.
fn looked(
    table: &SpiTable,
    nexts: u32,
    marks: u32,
    mut front: Front,
    value: u32,
) -> (StartPlace, Started)
    ensures { result ≡ spec.start_looks table.now nexts marks front value (front_gave front value) (has_ended (front_gave front value)) }
{
    let taken = front.took(value);
    if taken.ended.is_none() {
        return goes(StartPlace::Front(nexts, marks, front));
    }
    let entry = gave(&taken);
    if entry >= 8 {
        return (StartPlace::Front(nexts, marks, front), Started::Over);
    }
    let sequence = entry as u8;
    let job = table.job_at(sequence, next_of(nexts, sequence));
    let run = Running { job, sequence };
    let chosen = Chosen { run, nexts, marks };
    let find = Find::first(table.channel_at(job, 0));
    goes(StartPlace::Find(chosen, find))
}

/// What follows a step of the look for the first word.
fn found(chosen: Chosen, mut find: Find, value: u32) -> (StartPlace, Started)
    ensures { result ≡ spec.start_finds chosen find value (find_gave find value) }
{
    match find.took(value) {
        Some(word) => goes(StartPlace::Select(chosen, word)),
        None => goes(StartPlace::Find(chosen, find)),
    }
}

/// What follows a step of the choice.
fn chose(chosen: Chosen, mut next: Next, value: u32) -> (StartPlace, Started)
    ensures { result ≡ spec.start_chooses chosen next value (has_ended (next_gave next value)) }
{
    if next.took(value).ended.is_some() {
        goes(StartPlace::Mark(chosen))
    } else {
        goes(StartPlace::Choose(chosen, next))
    }
}

/// What follows a step that makes a channel ready.
fn readied(
    table: &SpiTable,
    run: Running,
    place: u8,
    mut part: Prepare,
    value: u32,
) -> (StartPlace, Started)
    ensures { result ≡ spec.start_prepares table.now run place part value (prepare_ends part value) }
{
    if !part.took(value) {
        goes(StartPlace::Prepare(run, place, part))
    } else if place < 3 {
        goes(prepare(table, run, place + 1))
    } else {
        goes(prepared(table, run))
    }
}

/// What follows a step of the release.
fn released(run: Running, mut take: Take, value: u32) -> (StartPlace, Started)
    ensures { result ≡ spec.start_releases run take value (has_ended (take_gave take value)) }
{
    if take.took(value).ended.is_some() {
        goes(StartPlace::Run(run))
    } else {
        goes(StartPlace::Release(run, take))
    }
}

impl Chosen {
    /// The marks with that of the sequence, which has started.
    fn started(&self) -> u32
        ensures { result ≡ spec.marks_started self.now }
    {
        self.marks | started_bit(self.run.sequence)
    }
}

/// What is done with the channel at a place of the job, or after the last one.
fn prepare(table: &SpiTable, run: Running, place: u8) -> StartPlace
    ensures { result ≡ spec.prepare_at table.now run place }
{
    match table.channels_of(run.job).at(place) {
        Some(channel) => StartPlace::Prepare(run, place, Prepare::of(table.placed(channel))),
        None => prepared(table, run),
    }
}

/// What follows the last channel: nothing is read any more of a channel whose only word is in transfer.
fn prepared(table: &SpiTable, run: Running) -> StartPlace
    ensures { result ≡ spec.prepared table.now run }
{
    let placed = table.channel_at(run.job, 0);
    if placed.channel.internal && placed.channel.length <= 1 {
        StartPlace::Release(run, release(placed, Side::Sent))
    } else {
        StartPlace::Run(run)
    }
}

/// The ranks of the sequences: one that has started and isn't interruptible stands above the priorities of the others'
/// next jobs.
fn ranks(table: &SpiTable, nexts: u32, marks: u32) -> [u32; 16]
    ensures { result ≡ spec.ranks_in table.now nexts marks }
{
    [
        rank(table, 0, nexts, marks),
        rank(table, 1, nexts, marks),
        rank(table, 2, nexts, marks),
        rank(table, 3, nexts, marks),
        rank(table, 4, nexts, marks),
        rank(table, 5, nexts, marks),
        rank(table, 6, nexts, marks),
        rank(table, 7, nexts, marks),
        0,
        0,
        0,
        0,
        0,
        0,
        0,
        0,
    ]
}

fn rank(table: &SpiTable, sequence: u8, nexts: u32, marks: u32) -> u32
    ensures { result ≡ spec.rank_in table.now nexts marks sequence }
{
    if has(marks, started_bit(sequence)) && !table.is_interruptible(sequence) {
        4
    } else {
        table.priority(table.job_at(sequence, next_of(nexts, sequence)))
    }
}

/// A unit by its number.
pub(crate) fn named(unit: u8) -> Unit
    ensures { result ≡ spec.unit_named unit }
{
    if unit == 0 { Unit::Spi0 } else { Unit::Spi1 }
}

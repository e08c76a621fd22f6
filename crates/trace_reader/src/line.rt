ghost use Rattle.std.specs.Prelude.{◌≡◌, Some};
ghost use Rattle.bench_report.specs.Lines as spec;
ghost use Rattle.trace_reader.specs.Read.{line_of};
ghost use Rattle.trace_reader.specs.Told as tells;

use crate::told::{Mark, Reply, Step, Told};
use bench_report::{Line, RowName, Value, Values};
use mcal_base::{Event, Head, Move, Reg, Service};
use std::fmt;

/// A line of a report as it was read, behind the number of its script line.
#[derive(Drop)]
pub(crate) enum Read {
    /// A line without a list.
    Plain(Line<'static>),
    /// A call returned, with a head and numbers.
    Returns(Service, Head, Vec<u32>),
    /// A row that is shown.
    Shows(RowName, Vec<Value>),
}

impl fmt::Display for Read {
    ghost output = { λ l. Some (spec.line_text (line_of l)) };

    fn fmt<W: fmt::Write>(&self, f: &mut fmt::Formatter<W>) -> fmt::Result {
        match self {
            Read::Plain(line) => write!(f, "{line}"),
            Read::Returns(service, head, words) => {
                let line = Line::Returns(*service, *head, words.as_slice());
                write!(f, "{line}")
            }
            Read::Shows(name, values) => {
                let values = Values(values.as_slice());
                write!(f, "{name}:{values}")
            }
        }
    }
}

/// An event as a report prints it.
fn mark_of(event: Event) -> Mark
    ensures { result ≡ tells.mark_of event }
{
    match event {
        Event::Act => Mark::Act,
        Event::Serve(line) => Mark::Serve(line),
        Event::Abort(_) => Mark::Abort,
        Event::Start(_) => Mark::Start,
    }
}

/// What a read or a load gave.
fn given(made: Move, value: u32) -> u32
    ensures { result ≡ tells.given made value }
{
    match made {
        Move::Read(_) | Move::Load(_) => value,
        _ => 0,
    }
}

/// The word that came in at a write that begins a serial word.
fn incoming(made: Move, received: u32) -> u32
    ensures { result ≡ tells.incoming made received }
{
    match made {
        Move::Write(Reg::SerialData(_), _) => received,
        _ => 0,
    }
}

/// What an answer begins with, as it is printed.
fn printed_head(head: Head) -> Head
    ensures { result ≡ tells.printed_head head }
{
    match head {
        Head::Numbers => Head::Nothing,
        _ => head,
    }
}

/// What a call answered with a head and numbers.
fn reply_of(head: Head, words: &[u32]) -> Reply
    ensures { result ≡ tells.reply_of head words.now }
{
    Reply {
        head: printed_head(head),
        first: words.first().copied(),
        more: words.len() > 1,
    }
}

/// What the line of a step tells: its depth, its move, the value that this gave, the word that came in, and its event.
pub(crate) fn told_step(
    depth: u32,
    made: Move,
    value: u32,
    received: u32,
    event: Option<Event>,
) -> Told
    ensures { result ≡ tells.told (spec.Makes depth made value received event) }
{
    Told::Step(Step {
        depth,
        made,
        value: given(made, value),
        received: incoming(made, received),
        mark: event.map(mark_of),
    })
}

/// What a line tells.
fn line_told(line: Line<'_>) -> Told
    ensures { result ≡ tells.told (spec.line_of line.entry) }
{
    match line {
        Line::Holds(cause) => Told::Held(cause),
        Line::Makes(depth, made, value, received, event) => {
            told_step(depth, made, value, received, event)
        }
        Line::Waits(ticks) => Told::Waited(ticks),
        Line::Notes(notice) => Told::Noted(notice),
        Line::Errs(found) => Told::Erred(found),
        Line::Returns(service, head, words) => Told::Returned(service, reply_of(head, words)),
        Line::Leaves(line) => Told::Left(line),
        Line::Restarts(reason, dropped) => Told::Reset(reason, dropped),
        Line::Done => Told::Done,
    }
}

impl Read {
    /// What it tells.
    pub(crate) fn told(&self) -> Told
        ensures { result ≡ tells.told (line_of self.now) }
    {
        match self {
            Read::Plain(line) => line_told(*line),
            Read::Returns(service, head, words) => {
                Told::Returned(*service, reply_of(*head, words.as_slice()))
            }
            Read::Shows(_, _) => Told::Shown,
        }
    }
}

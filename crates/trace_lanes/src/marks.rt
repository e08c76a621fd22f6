ghost use Rattle.std.specs.Prelude.{◌≡◌, ◌≤◌, Some};
ghost use Rattle.trace_lanes.specs.Marks as spec;

use crate::board::Mark;
use bench_report::Purpose;
use std::fmt;
use trace_forms::kinds::{Ending, Sign, What};
use trace_forms::{Escaped, Sentence};

/// The symbol of a step.
fn event_symbol(mark: Option<trace_reader::Mark>) -> &'static str
    ensures { result.now ≡ spec.event_symbol mark }
{
    match mark {
        None => "step",
        Some(trace_reader::Mark::Act) => "act",
        Some(trace_reader::Mark::Serve(_)) => "serve",
        Some(trace_reader::Mark::Abort) => "abort",
        Some(trace_reader::Mark::Start) => "start",
    }
}

/// The symbol of a sign.
pub(crate) fn symbol(what: What) -> &'static str
    ensures { result.now ≡ spec.symbol what }
{
    match what {
        What::Turn(_) => "turn",
        What::Stepped(step, _) => event_symbol(step.mark),
        What::Held(_) => "held",
        What::Noted(_) => "note",
        What::Erred(_) => "error",
        What::Reset(_, _) => "reset",
        What::Shown => "shown",
        _ => "ok",
    }
}

/// How far below the top of its row a symbol stands.
pub(crate) fn symbol_drop(what: What) -> usize
    ensures drop { result ≡ spec.symbol_drop what }
    ensures within { result ≤ 36 }
{
    match what {
        What::Stepped(_, _) => 23,
        What::Held(_) | What::Noted(_) | What::Erred(_) | What::Reset(_, _) => 19,
        _ => 0,
    }
}

/// The class of a frame.
fn purpose_class(purpose: Purpose) -> &'static str
    ensures { result.now ≡ spec.purpose_class purpose }
{
    match purpose {
        Purpose::Call(_) => "call",
        Purpose::Handler(_) => "handler",
    }
}

/// The class of an ending, with a space before it.
fn ending_class(ending: Ending) -> &'static str
    ensures { result.now ≡ spec.ending_class ending }
{
    match ending {
        Ending::Returned(_) | Ending::Left => "",
        Ending::Dropped => " dropped",
        Ending::Open => " open",
    }
}

/// The class of a box.
pub(crate) fn class(mark: Mark) -> &'static str
    ensures { result.now ≡ spec.class mark }
{
    match mark {
        Mark::Bar(purpose, _) => purpose_class(purpose),
        Mark::Mask => "mask",
        Mark::Wait => "wait",
        Mark::Gap => "gap",
        Mark::Wave(true) => "high",
        Mark::Wave(false) => "low",
        Mark::Symbol(_) => "",
    }
}

/// The second class of a box, with a space before it.
pub(crate) fn second_class(mark: Mark) -> &'static str
    ensures { result.now ≡ spec.second_class mark }
{
    match mark {
        Mark::Bar(_, ending) => ending_class(ending),
        _ => "",
    }
}

/// How far below the top of its row a box begins.
pub(crate) fn drop_of(mark: Mark) -> usize
    ensures drop { result ≡ spec.drop_of mark }
    ensures within { result ≤ 36 }
{
    match mark {
        Mark::Bar(_, _) => 1,
        Mark::Mask => 29,
        Mark::Wait => 17,
        Mark::Wave(true) => 2,
        Mark::Wave(false) => 15,
        Mark::Gap | Mark::Symbol(_) => 0,
    }
}

/// How high a box is, in a page whose rows of frames and values are so high with what is above them.
pub(crate) fn height_of(mark: Mark, reach: usize) -> usize
    ensures { result ≡ spec.height_of mark reach }
{
    match mark {
        Mark::Bar(_, _) => 33,
        Mark::Mask => 4,
        Mark::Wait => 2,
        Mark::Wave(true) => 15,
        Mark::Wave(false) => 2,
        Mark::Gap => reach,
        Mark::Symbol(_) => 0,
    }
}

/// In which layer of the page a shape lies, from the lowest, 0, to the topmost, 2.
pub(crate) fn layer(mark: Mark) -> u8
    ensures { result ≡ spec.layer mark }
{
    match mark {
        Mark::Gap => 0,
        Mark::Bar(_, _) | Mark::Wave(_) => 1,
        Mark::Mask | Mark::Wait | Mark::Symbol(_) => 2,
    }
}

/// What is read where a shape is pointed at.
#[derive(Clone, Copy)]
pub(crate) struct Title(pub(crate) Sign);

impl fmt::Display for Title {
    ghost output = { λ t. Some (spec.title t.0) };

    fn fmt<W: fmt::Write>(&self, f: &mut fmt::Formatter<W>) -> fmt::Result {
        let number = self.0.number;
        let step = self.0.step;
        let sentence = Sentence(self.0.what);
        write!(f, "script line {number}, step {step}: {sentence}")
    }
}

/// A symbol with its title.
#[derive(Clone, Copy)]
pub(crate) struct Point<'a> {
    /// The symbol.
    pub(crate) symbol: &'static str,
    /// Where it stands.
    pub(crate) x: usize,
    /// Where it stands.
    pub(crate) y: usize,
    /// The title.
    pub(crate) title: &'a str,
}

impl fmt::Display for Point<'_> {
    ghost output = { λ p. Some (spec.point_text p.symbol.now p.x p.y p.title.now) };

    fn fmt<W: fmt::Write>(&self, f: &mut fmt::Formatter<W>) -> fmt::Result {
        let symbol = self.symbol;
        let x = self.x;
        let y = self.y;
        let title = Escaped(self.title);
        write!(
            f,
            "<use href='#{symbol}' x='{x}' y='{y}'><title>{title}</title></use>\n"
        )
    }
}

/// A box with its title.
#[derive(Clone, Copy)]
pub(crate) struct Rectangle<'a> {
    /// What it is.
    pub(crate) kind: &'static str,
    /// How it went.
    pub(crate) gone: &'static str,
    /// Where it stands.
    pub(crate) x: usize,
    /// Where it stands.
    pub(crate) y: usize,
    /// How wide it is.
    pub(crate) width: usize,
    /// How high it is.
    pub(crate) height: usize,
    /// The title.
    pub(crate) title: &'a str,
}

impl fmt::Display for Rectangle<'_> {
    ghost output = { λ b. Some (spec.box_text b.kind.now b.gone.now b.x b.y b.width b.height b.title.now) };

    fn fmt<W: fmt::Write>(&self, f: &mut fmt::Formatter<W>) -> fmt::Result {
        let Rectangle {
            kind,
            gone,
            x,
            y,
            width,
            height,
            ..
        } = *self;
        let title = Escaped(self.title);
        write!(
            f,
            "<rect class='{kind}{gone}' x='{x}' y='{y}' width='{width}' height='{height}'><title>{title}</title></rect>\n"
        )
    }
}

/// The words of a label where they stand.
#[derive(Clone, Copy)]
pub(crate) struct Words<'a> {
    /// Where they stand.
    pub(crate) x: usize,
    /// Where they stand.
    pub(crate) y: usize,
    /// What they are.
    pub(crate) text: &'a str,
}

impl fmt::Display for Words<'_> {
    ghost output = { λ l. Some (spec.words_text l.x l.y l.text.now) };

    fn fmt<W: fmt::Write>(&self, f: &mut fmt::Formatter<W>) -> fmt::Result {
        let x = self.x;
        let y = self.y;
        let text = Escaped(self.text);
        write!(f, "<text x='{x}' y='{y}'>{text}</text>\n")
    }
}

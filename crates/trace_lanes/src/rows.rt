ghost use Rattle.std.specs.Prelude.{◌≡◌, ◌<◌, ◌≤◌, Some, length};
ghost use Rattle.trace_lanes.specs.Rows as spec;

use std::fmt;

/// How many rows a page has at most.
pub(crate) const ROWS: usize = 177;

/// A row of the page, from its top to its bottom. Only those that are used are there.
#[derive(Clone, Copy)]
pub enum Row {
    /// What the page is of.
    Title,
    /// Errors and resets.
    Errors,
    /// Callbacks.
    Notices,
    /// Directives that were held.
    Held,
    /// Ticks.
    Ticks,
    /// The calls at a level, 0 to 7.
    Level(u32),
    /// The handler of a line, 0 to 31.
    Handler(u32),
    /// The outside level of a pin, 0 to 63.
    Pin(u32),
    /// The value of an analog input, 0 to 31.
    Analog(u32),
    /// The level that was read from a pulse output, 0 to 7.
    Output(u32),
    /// The duty that was written for a pulse output, 0 to 7.
    Duty(u32),
    /// The period that was written for a pulse output, 0 to 7.
    Period(u32),
    /// The directives of the script: nine rows, so that directives that are close together have room.
    Script(u32),
    /// What the colors stand for.
    Colors,
    /// What the symbols stand for.
    Symbols,
    /// How much was drawn.
    Tally,
}

/// What the name of a row is put together from.
#[derive(Clone, Copy)]
enum Parts {
    /// A name without a number.
    Plain(&'static str),
    /// What stands before a number.
    Numbered(&'static str, u32),
    /// The number of a pulse output, and what the row shows of it.
    Pulse(u32, &'static str),
}

/// The parts of a row's name.
fn parts_of(row: Row) -> Parts
    ensures { spec.parts_text result ≡ spec.name row }
{
    match row {
        Row::Title | Row::Colors | Row::Symbols | Row::Tally => Parts::Plain(""),
        Row::Errors => Parts::Plain("errors, resets"),
        Row::Notices => Parts::Plain("callbacks"),
        Row::Held => Parts::Plain("held"),
        Row::Ticks => Parts::Plain("ticks"),
        Row::Script(_) => Parts::Plain("script line"),
        Row::Level(level) => Parts::Numbered("level", level),
        Row::Handler(line) => Parts::Numbered("handler of line", line),
        Row::Pin(pin) => Parts::Numbered("pin", pin),
        Row::Analog(input) => Parts::Numbered("analog", input),
        Row::Output(output) => Parts::Pulse(output, "level"),
        Row::Duty(output) => Parts::Pulse(output, "duty"),
        Row::Period(output) => Parts::Pulse(output, "period"),
    }
}

/// The name of a row that has one.
impl fmt::Display for Row {
    ghost output = { λ r. Some (spec.name r) };

    fn fmt<W: fmt::Write>(&self, f: &mut fmt::Formatter<W>) -> fmt::Result {
        match parts_of(*self) {
            Parts::Plain(name) => f.write_str(name),
            Parts::Numbered(before, number) => write!(f, "{before} {number}"),
            Parts::Pulse(output, what) => write!(f, "pulse {output} {what}"),
        }
    }
}

impl Row {
    /// Whether its name stands at its left.
    pub(crate) fn has_name(self) -> bool
        ensures { result ≡ spec.has_name self }
    {
        match self {
            Row::Title | Row::Colors | Row::Symbols | Row::Tally => false,
            Row::Script(row) => row == 0,
            _ => true,
        }
    }

    /// Its number among the rows, from the top.
    pub(crate) fn slot(self) -> usize
        ensures slot { result ≡ spec.slot self }
        ensures within { result < 177 }
    {
        match self {
            Row::Title => 0,
            Row::Errors => 1,
            Row::Notices => 2,
            Row::Held => 3,
            Row::Ticks => 4,
            Row::Level(level) => 5 + level.min(7) as usize,
            Row::Handler(line) => 13 + line.min(31) as usize,
            Row::Pin(pin) => 45 + pin.min(63) as usize,
            Row::Analog(input) => 109 + input.min(31) as usize,
            Row::Output(output) => 141 + output.min(7) as usize,
            Row::Duty(output) => 149 + output.min(7) as usize,
            Row::Period(output) => 157 + output.min(7) as usize,
            Row::Script(row) => 165 + row.min(8) as usize,
            Row::Colors => 174,
            Row::Symbols => 175,
            Row::Tally => 176,
        }
    }
}

/// How high the row of a number is.
fn pitch(slot: usize) -> usize
    ensures pitch { result ≡ spec.pitch slot }
    ensures within { result ≤ 36 }
{
    if slot == 0 {
        24
    } else if slot < 5 {
        22
    } else if slot < 45 {
        36
    } else if slot < 165 {
        20
    } else {
        14
    }
}

/// Where the row of a number begins: below those above it that are used.
#[tactic(auto, unfolding(crate::specs::Rows::top))]
pub(crate) fn top(used: &[bool], slot: usize) -> usize
    requires few { slot ≤ length used.now }
    requires rows { length used.now ≤ 177 }
    ensures top { result ≡ spec.top used.now slot }
    ensures within { result ≤ 6380 }
{
    let mut y = 8;
    for row in 0..slot {
        if used[row] {
            y += pitch(row);
        }
    }
    y
}

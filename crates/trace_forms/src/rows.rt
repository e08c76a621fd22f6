ghost use Rattle.std.specs.Prelude.{◌≡◌, ◌-◌, ◌++◌, Some, IfOk, OnOk, min, replicate, string_bytes};
ghost use Rattle.trace_forms.specs.Rows as spec;

use crate::kinds::{Ending, Sign, What};
use crate::sentences::Sentence;
use std::alloc::{AllocError, Global};
use std::fmt;
use trace_reader::Mark;

/// What the rows have in their columns.
const HEAD: &str = "  step   line 12345678 mask\n";

/// What the characters in the columns stand for.
const FOOT: &str = "\
A column for each of eight frames. + begins, * makes a step, a acts, s serves, x aborts, ^ starts, - ends,
R is dropped by a reset, ? is under way at the end, | is there, . is not. # is a row with the mask closed.
";

/// The spaces before a number, so that those below 100,000 end in one column.
fn indent(number: u64) -> &'static str
    ensures { result.now ≡ spec.indent number }
{
    if number < 10 {
        "     "
    } else if number < 100 {
        "    "
    } else if number < 1_000 {
        "   "
    } else if number < 10_000 {
        "  "
    } else if number < 100_000 {
        " "
    } else {
        ""
    }
}

/// The number of a step, in the row of a step alone.
#[derive(Clone, Copy)]
struct StepCell(usize, What);

impl fmt::Display for StepCell {
    ghost output = { λ c. Some (spec.step_cell c.0 c.1) };

    fn fmt<W: fmt::Write>(&self, f: &mut fmt::Formatter<W>) -> fmt::Result {
        let step = self.0;
        match self.1 {
            What::Stepped(_, _) => {
                let indent = indent(step as u64);
                write!(f, "{indent}{step}")
            }
            _ => f.write_str("      "),
        }
    }
}

/// The character of an event.
fn event_character(mark: Option<Mark>) -> &'static str
    ensures { result.now ≡ spec.event_character mark }
{
    match mark {
        None => "*",
        Some(Mark::Act) => "a",
        Some(Mark::Serve(_)) => "s",
        Some(Mark::Abort) => "x",
        Some(Mark::Start) => "^",
    }
}

/// The character of an ending.
fn ending_character(ending: Ending) -> &'static str
    ensures { result.now ≡ spec.ending_character ending }
{
    match ending {
        Ending::Returned(_) | Ending::Left => "-",
        Ending::Dropped => "R",
        Ending::Open => "?",
    }
}

/// The character of a sign in the column of the topmost frame.
fn character(what: What) -> &'static str
    ensures { result.now ≡ spec.character what }
{
    match what {
        What::Begins(_) => "+",
        What::Stepped(step, _) => event_character(step.mark),
        What::Gone(_, ending) => ending_character(ending),
        _ => "|",
    }
}

/// So many columns of frames below the topmost, at most eight.
fn below(count: usize) -> &'static str
    ensures { result.now ≡ replicate (min count 8) 124 }
{
    match count {
        0 => "",
        1 => "|",
        2 => "||",
        3 => "|||",
        4 => "||||",
        5 => "|||||",
        6 => "||||||",
        7 => "|||||||",
        _ => "||||||||",
    }
}

/// The columns of frames that are not there, above so many that are.
fn above(count: usize) -> &'static str
    ensures { result.now ≡ replicate (8 - count) 46 }
{
    match count {
        0 => "........",
        1 => ".......",
        2 => "......",
        3 => ".....",
        4 => "....",
        5 => "...",
        6 => "..",
        7 => ".",
        _ => "",
    }
}

/// Eight columns: the frames below the topmost, the topmost with its character, and those that are not there.
#[derive(Clone, Copy)]
struct Columns(usize, &'static str);

impl fmt::Display for Columns {
    ghost output = { λ c. Some (spec.columns c.0 c.1.now) };

    fn fmt<W: fmt::Write>(&self, f: &mut fmt::Formatter<W>) -> fmt::Result {
        let depth = self.0;
        let top = self.1;
        if depth == 0 {
            return f.write_str("........");
        }
        let below = below(depth - 1);
        let above = above(depth);
        write!(f, "{below}{top}{above}")
    }
}

/// The column of the mask.
fn mask_cell(closed: bool) -> &'static str
    ensures { result.now ≡ spec.mask_cell closed }
{
    if closed { "#" } else { " " }
}

/// The row of a sign.
#[derive(Clone, Copy)]
struct Row(Sign);

impl fmt::Display for Row {
    ghost output = { λ r. Some (spec.row r.0) };

    fn fmt<W: fmt::Write>(&self, f: &mut fmt::Formatter<W>) -> fmt::Result {
        let sign = self.0;
        let number = self.0.number;
        let step = StepCell(sign.step, sign.what);
        let indent = indent(number as u64);
        let columns = Columns(sign.depth, character(sign.what));
        let mask = mask_cell(sign.closed);
        let sentence = Sentence(sign.what);
        write!(f, "{step} {indent}{number} {columns} {mask} {sentence}\n")
    }
}

/// Puts the row of a sign.
fn put_row(text: &mut String, sign: Sign) -> Result<(), AllocError>
    ensures { OnOk result (string_bytes text.new ≡ string_bytes text.old ++ spec.row sign) }
{
    let row = Row(sign);
    write!(text, "{row}")
}

/// The rows of all signs, behind what their columns have.
fn all_rows(alloc: Global, signs: &[Sign]) -> Result<String, AllocError>
    ensures { IfOk result (λ text. string_bytes text ≡ spec.sign_rows signs.now) }
{
    let mut text = String::from_str(alloc, HEAD)?;
    for sign in signs {
        put_row(&mut text, *sign)?;
    }
    Ok(text)
}

/// The signs as rows of characters.
pub fn rows_of(alloc: Global, signs: &[Sign]) -> Result<String, AllocError>
    ensures { IfOk result (λ text. string_bytes text ≡ spec.rows signs.now) }
{
    let mut text = all_rows(alloc, signs)?;
    text.push_str(FOOT)?;
    Ok(text)
}

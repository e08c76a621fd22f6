ghost use Rattle.std.specs.Prelude.{◌≡◌, ◌==◌, ◌<◌, [], ◌∷◌, IfOk, IfSome, MatchOption, length, bytes_eq, map};
ghost use Rattle.std.specs.List.{slice_split};
ghost use Rattle.trace_reader.specs.Guess.{words_of, guess as guess_of};
ghost use Rattle.trace_reader.specs.Read.{line_of};
ghost use Rattle.trace_reader.specs.Reading as spec;
ghost use Rattle.trace_reader.specs.declared.read.TraceFault.TheVariants.{NoMemory};

use crate::line::Read;
use crate::lists::guess;
use crate::numbers::{number, place_of};
use crate::scan::step_line;
use crate::tally::tally_of;
use crate::told::TraceLine;
use std::alloc::{AllocError, AllocFailed, Global};

/// Why a text is not read as a trace.
#[derive(Clone, Copy)]
pub enum TraceFault {
    /// The line of this number, from 1, is none of a report, or not the last one that it must have.
    Line(usize),
    /// Memory was not found.
    NoMemory,
}

impl From<AllocError> for TraceFault {
    ghost from_gives = { λ _ e. e ≡ NoMemory };

    fn from(_error: AllocError) -> TraceFault {
        TraceFault::NoMemory
    }
}

impl<T: Drop> From<AllocFailed<T>> for TraceFault {
    ghost from_gives = { λ _ e. e ≡ NoMemory };

    fn from(_error: AllocFailed<T>) -> TraceFault {
        TraceFault::NoMemory
    }
}

/// A text up to the first such byte, and what is behind that.
fn cut_at(mark: u8, text: &[u8]) -> Option<(&[u8], &[u8])>
    ensures parts { MatchOption result (slice_split (λ b. b == mark) text.now ≡ text.now ∷ []) (λ p. slice_split (λ b. b == mark) text.now ≡ p.0.now ∷ slice_split (λ b. b == mark) p.1.now) }
    ensures shorter { IfSome result (λ p. length p.1.now < length text.now) }
{
    match place_of(mark, text) {
        Some(place) => Some((&text[..place], &text[place + 1..])),
        None => None,
    }
}

/// How many words most lines have at most.
const FEW_WORDS: usize = 8;

/// The words of a line, between its spaces.
fn words<'a>(alloc: Global, line: &'a [u8]) -> Result<Vec<&'a [u8]>, AllocError>
    ensures { IfOk result (λ v. map (λ w. w.now) v.items ≡ words_of line.now) }
{
    let mut words = Vec::with_capacity(alloc, FEW_WORDS)?;
    let mut rest = line;
    while let Some((word, behind)) = cut_at(b' ', rest) {
        words.push(word)?;
        rest = behind;
    }
    words.push(rest)?;
    Ok(words)
}

/// Whether a line with its number prints a text, but for the line feed at its end.
fn prints(alloc: Global, number: u32, line: &Read, text: &[u8]) -> Result<bool, AllocError>
    ensures { IfOk result (λ b. b ≡ bytes_eq (spec.line_with number (line_of line.now)) text.now) }
{
    let mut printed = String::with_capacity(alloc, text.len())?;
    write!(printed, "{number} {line}")?;
    Ok(printed.as_bytes() == text)
}

/// What is told by the line that words behind a number may be, where it prints the text.
fn read_behind(
    alloc: Global,
    number: u32,
    words: &[&[u8]],
    text: &[u8],
) -> Result<Option<TraceLine>, AllocError>
    ensures { IfOk result (λ r. r ≡ spec.told_where number text.now (guess_of (map (λ w. w.now) words.now))) }
{
    let Some(line) = guess(alloc, words)? else {
        return Ok(None);
    };
    if !prints(alloc, number, &line, text)? {
        return Ok(None);
    }
    let told = line.told();
    Ok(Some(TraceLine { number, told }))
}

/// What is told by the line that words may be, where it prints the text.
fn read_words(alloc: Global, words: &[&[u8]], text: &[u8]) -> Result<Option<TraceLine>, AllocError>
    ensures { IfOk result (λ r. r ≡ spec.read_words (map (λ w. w.now) words.now) text.now) }
{
    match words {
        [first, behind @ ..] => match number(first) {
            Some(number) => read_behind(alloc, number, behind, text),
            None => Ok(None),
        },
        [] => Ok(None),
    }
}

/// What is told by the line that prints a text, but for the line feed at its end; none where no line of a report does.
/// `reads_traces` says which lines are read.
pub fn read_line(alloc: Global, text: &[u8]) -> Result<Option<TraceLine>, AllocError>
    ensures { IfOk result (λ r. r ≡ spec.read_line text.now) }
{
    if let Some(line) = step_line(text) {
        return Ok(Some(line));
    }
    let words = words(alloc, text)?;
    read_words(alloc, words.as_slice(), text)
}

/// The lines of a trace where what is behind them is its last line; else the number of the first line that is wrong.
fn ended(alloc: Global, lines: Vec<TraceLine>, rest: &[u8]) -> Result<Vec<TraceLine>, TraceFault>
    ensures { spec.Ends (λ v. v.items) result (spec.ended lines.items rest.now) }
{
    let tally = tally_of(lines.as_slice());
    let end = format!(in alloc; "{tally}")?;
    let end = end.as_bytes();
    if rest == end {
        return Ok(lines);
    }
    if rest.len() >= end.len() && &rest[..end.len()] == end {
        return Err(TraceFault::Line(lines.len() + 2));
    }
    Err(TraceFault::Line(lines.len() + 1))
}

/// The lines of the text of a traced report, of which the last one counts the others; else the number of the first line,
/// from 1, that is none of a report, or not the last one where that must be.
#[tactic(auto, using(crate::proofs::LineByLine::read_more, crate::proofs::LineByLine::read_last, crate::proofs::LineByLine::read_none))]
pub fn read_trace(alloc: Global, text: &[u8]) -> Result<Vec<TraceLine>, TraceFault>
    ensures { spec.Ends (λ v. v.items) result (spec.read_trace text.now) }
{
    let mut lines = Vec::new(alloc);
    let mut rest = text;
    while let Some((line, behind)) = cut_at(b'\n', rest) {
        match read_line(alloc, line)? {
            Some(told) => lines.push(told)?,
            None => return ended(alloc, lines, rest),
        }
        rest = behind;
    }
    Err(TraceFault::Line(lines.len() + 1))
}

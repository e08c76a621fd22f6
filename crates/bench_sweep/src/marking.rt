ghost use Rattle.std.specs.Prelude.{◌≡◌, ℕ, ◌<◌, ◌≤◌, ◌^◌, ◌+◌, ◌++◌, IfOk, IfSome, OnOk, length, map, option_map, option_to_list, vec_len};
ghost use Rattle.std.specs.List.{All};
ghost use Rattle.bench_sweep.specs.Faults.{ends_text, mark_text};
ghost use Rattle.bench_sweep.specs.Marks as spec;
ghost use Rattle.bench_sweep.specs.Reactions as reactions;

use crate::fault::SweepFault;
use crate::lines::{asked, place_of, split_line, split_word};
use crate::outcomes::is_digit;
use std::alloc::{AllocError, Global};

/// A word that stands alone on its line, and ends a part of a sweep's script.
#[derive(Clone, Copy)]
pub enum Mark {
    /// `sweep`: what is placed comes next.
    Sweep,
    /// `and`: what is placed a second time comes next.
    And,
    /// `over`: the block comes next.
    Over,
    /// `end`: the block ends.
    End,
}

impl Mark {
    /// The word.
    pub fn text(self) -> &'static str
        ensures { result.now ≡ mark_text self }
    {
        match self {
            Mark::Sweep => "sweep",
            Mark::And => "and",
            Mark::Over => "over",
            Mark::End => "end",
        }
    }
}

/// The mark that a word is.
fn mark_named(word: &[u8]) -> Option<Mark>
    ensures { result ≡ spec.mark_named word.now }
{
    if word == b"sweep".as_slice() {
        Some(Mark::Sweep)
    } else if word == b"and".as_slice() {
        Some(Mark::And)
    } else if word == b"over".as_slice() {
        Some(Mark::Over)
    } else if word == b"end".as_slice() {
        Some(Mark::End)
    } else {
        None
    }
}

/// The mark that a line is.
fn mark_on(line: &[u8]) -> Option<Mark>
    ensures { result ≡ spec.mark_on line.now }
{
    mark_named(asked(line))
}

/// A part of a sweep's script.
#[derive(Clone, Copy)]
pub enum Part {
    /// What runs before the block.
    Before,
    /// What is placed.
    Swept,
    /// What is placed a second time.
    Second,
    /// What it is placed in.
    Block,
    /// What runs behind the block.
    Behind,
}

impl Part {
    /// The marks that may end the part, as they are printed.
    pub fn ends_text(self) -> &'static str
        ensures { result.now ≡ ends_text self }
    {
        match self {
            Part::Before => "sweep",
            Part::Swept => "and or over",
            Part::Second => "over",
            Part::Block => "end",
            Part::Behind => "none",
        }
    }
}

/// The part that a mark begins behind another; none where it may not stand there.
fn part_behind(part: Part, mark: Mark) -> Option<Part>
    ensures { result ≡ spec.part_behind part mark }
{
    match (part, mark) {
        (Part::Before, Mark::Sweep) => Some(Part::Swept),
        (Part::Swept, Mark::And) => Some(Part::Second),
        (Part::Swept | Part::Second, Mark::Over) => Some(Part::Block),
        (Part::Block, Mark::End) => Some(Part::Behind),
        _ => None,
    }
}

/// The lines on which the marks of a sweep stand. Without an `and` nothing is placed a second time.
#[derive(Clone, Copy)]
pub struct Marks {
    /// The line of `sweep`.
    pub sweep: u32,
    /// The line of `and`.
    pub second: Option<u32>,
    /// The line of `over`.
    pub over: u32,
    /// The line of `end`.
    pub end: u32,
}

impl Marks {
    /// No marks yet.
    fn none() -> Marks
        ensures { result ≡ spec.no_marks }
    {
        Marks {
            sweep: 0,
            second: None,
            over: 0,
            end: 0,
        }
    }

    /// One mark more, on a line.
    fn with(self, mark: Mark, line: u32) -> Marks
        ensures { result ≡ spec.with_mark self mark line }
    {
        match mark {
            Mark::Sweep => Marks {
                sweep: line,
                ..self
            },
            Mark::And => Marks {
                second: Some(line),
                ..self
            },
            Mark::Over => Marks { over: line, ..self },
            Mark::End => Marks { end: line, ..self },
        }
    }
}

/// What a line makes of the part that it stands in and of the marks before it.
fn with_line(
    line: u32,
    mark: Option<Mark>,
    part: Part,
    marks: Marks,
) -> Result<(Part, Marks), SweepFault>
    ensures { result ≡ spec.with_line line mark (part, marks) }
{
    let Some(mark) = mark else {
        return Ok((part, marks));
    };
    match part_behind(part, mark) {
        Some(next) => Ok((next, marks.with(mark, line))),
        None => Err(SweepFault::Misplaced(line, mark, part)),
    }
}

/// The marks of a script that ends in a part.
fn ended_in(last: u32, part: Part, marks: Marks) -> Result<Marks, SweepFault>
    ensures { result ≡ spec.ended_in last part marks }
{
    match part {
        Part::Behind => Ok(marks),
        _ => Err(SweepFault::Unended(last, part)),
    }
}

/// The marks of a script, which stand in their order and once each.
pub fn marks_of(text: &[u8]) -> Result<Marks, SweepFault>
    requires { length text.now < 2 ^ 32 }
    ensures { result ≡ spec.marks_of text.now }
{
    let mut marks = Marks::none();
    let mut part = Part::Before;
    let mut rest = text;
    let mut line = 0;
    while !rest.is_empty() {
        line += 1;
        let (first, behind) = split_line(rest);
        match with_line(line, mark_on(first), part, marks) {
            Ok((next, more)) => {
                part = next;
                marks = more;
            }
            Err(fault) => return Err(fault),
        }
        rest = behind;
    }
    ended_in(line, part, marks)
}

/// A line that says what follows a notice: `on CALLBACK ID do L SERVICE ..`.
#[derive(Clone, Copy)]
pub struct ReactionLine<'a> {
    /// Its number, from 1.
    pub line: u32,
    /// The callback's name.
    pub callback: &'a [u8],
    /// The number of the object that the notice speaks of.
    pub object: &'a [u8],
    /// What follows the notice.
    pub order: &'a [u8],
}

/// Whether a text begins with a decimal digit.
fn begins_number(text: &[u8]) -> bool
    ensures { result ≡ reactions.begins_number text.now }
{
    match text {
        [byte, ..] => is_digit(*byte),
        [] => false,
    }
}

impl ReactionLine<'_> {
    /// Whether the call is without a level, which is a number.
    pub fn lacks_level(&self) -> bool
        ensures { result ≡ reactions.lacks_level self.now.order.now }
    {
        let (first, rest) = split_word(self.order);
        let (level, _) = split_word(rest);
        first == b"do".as_slice() && !begins_number(level)
    }
}

/// Whether a text says what follows a notice.
fn is_reaction(text: &[u8]) -> bool
    ensures { result ≡ reactions.is_reaction text.now }
{
    let (first, _) = split_word(text);
    first == b"on".as_slice()
}

/// What a text says behind `on`.
fn reacting(text: &[u8], number: u32) -> ReactionLine<'_>
    ensures is { reactions.found_on result ≡ reactions.reacting_by number text.now }
    ensures within { length result.order.now ≤ length text.now }
{
    let (callback, rest) = split_word(text);
    let (object, order) = split_word(rest);
    ReactionLine {
        line: number,
        callback,
        object,
        order,
    }
}

/// What a line says that follows a notice, where it says so.
pub fn reaction_on(line: &[u8], number: u32) -> Option<ReactionLine<'_>>
    ensures is { option_map (λ r. reactions.found_on r) result ≡ reactions.reaction_on number line.now }
    ensures within { IfSome result (λ r. length r.order.now ≤ length line.now) }
{
    let asked = asked(line);
    if !is_reaction(asked) {
        return None;
    }
    let (_, said) = split_word(asked);
    Some(reacting(said, number))
}

/// Keeps what a line says that follows a notice, where it says so.
fn keep_reaction<'a>(
    found: &mut Vec<ReactionLine<'a>>,
    line: &'a [u8],
    number: u32,
) -> Result<(), AllocError>
    ensures is { OnOk result (map (λ r. reactions.found_on r) found.new.items ≡ map (λ r. reactions.found_on r) found.old.items ++ option_to_list (reactions.reaction_on number line.now)) }
    ensures within { (most : ℕ) → length line.now ≤ most → All (reactions.IsWithin most) found.old.items → OnOk result (All (reactions.IsWithin most) found.new.items) }
{
    if let Some(reaction) = reaction_on(line, number) {
        found.push(reaction)?;
    }
    Ok(())
}

/// The lines of a script that say what follows a notice.
pub fn reaction_lines(alloc: Global, text: &[u8]) -> Result<Vec<ReactionLine<'_>>, AllocError>
    requires { length text.now < 2 ^ 32 }
    ensures is { IfOk result (λ found. map (λ r. reactions.found_on r) found.items ≡ reactions.reactions_in text.now) }
    ensures within { IfOk result (λ found. All (reactions.IsWithin (length text.now)) found.items) }
{
    let mut found = Vec::new(alloc);
    let mut rest = text;
    let mut line = 0;
    while !rest.is_empty() {
        line += 1;
        let (first, behind) = split_line(rest);
        keep_reaction(&mut found, first, line)?;
        rest = behind;
    }
    Ok(found)
}

/// Whether a line is none of the bench language, but of a sweep.
fn is_of_sweep(line: &[u8]) -> bool
    ensures { result ≡ reactions.is_of_sweep line.now }
{
    mark_on(line).is_some() || is_reaction(asked(line))
}

/// Puts a line behind others, as a comment where it is of a sweep.
#[tactic(auto, using(crate::proofs::Commented::empty_kept, crate::proofs::Commented::sweep_kept))]
fn keep_line(bytes: &mut Vec<u8>, line: &[u8]) -> Result<(), AllocError>
    ensures is { OnOk result (bytes.new.items ≡ bytes.old.items ++ reactions.kept_line line.now) }
    ensures length { OnOk result (vec_len bytes.new ≡ vec_len bytes.old + length line.now) }
{
    match line {
        [_, behind @ ..] if is_of_sweep(line) => {
            bytes.push(b'#')?;
            bytes.extend_from_slice(behind)
        }
        _ => bytes.extend_from_slice(line),
    }
}

/// A script in which the lines that are of a sweep alone are comments.
#[tactic(auto, using(crate::proofs::Commented::kept_last))]
pub fn without_marks(alloc: Global, text: &[u8]) -> Result<Vec<u8>, AllocError>
    ensures is { IfOk result (λ bytes. bytes.items ≡ reactions.without_marks text.now) }
    ensures length { IfOk result (λ bytes. vec_len bytes ≡ length text.now) }
{
    let mut bytes = Vec::new(alloc);
    let mut rest = text;
    while let Some(feed) = place_of(b'\n', rest) {
        keep_line(&mut bytes, &rest[..feed])?;
        bytes.push(b'\n')?;
        rest = &rest[feed + 1..];
    }
    keep_line(&mut bytes, rest)?;
    Ok(bytes)
}

ghost use Rattle.std.specs.Prelude.{◌≡◌, ◌↔◌, ◌++◌, [], ◌∷◌, Some, None, MatchOption, IsTrue, IsSomeAnd, IfOk, OnOk, nat_le, slice_get, bytes_eq, codes, string_bytes};
ghost use Rattle.std.specs.List.{list_any, position};
ghost use Rattle.bench_sweep.specs.Lines.{or_length};
ghost use Rattle.bench_sweep.specs.Outcomes as spec;
ghost use Rattle.bench_sweep.specs.Reports as reports;

use std::alloc::{AllocError, Global};

/// What the directive of a line of the file printed: each line, with a line feed behind it.
#[derive(Drop)]
pub struct Told {
    /// The line of the file.
    pub line: u32,
    /// What it printed.
    pub text: String,
}

/// What a run printed, by the lines of the file, which rise.
#[derive(Drop)]
pub struct Outcome {
    /// What each printed that printed something.
    pub told: Vec<Told>,
}

/// Whether a line says no more than that something was done.
fn is_silent(text: &str) -> bool
    ensures { result ≡ bytes_eq text.now (codes "ok") }
{
    text == "ok"
}

impl Told {
    /// One more printed line.
    fn add(&mut self, text: &str) -> Result<(), AllocError>
        ensures line { self.new.line ≡ self.old.line }
        ensures text { OnOk result (string_bytes self.new.text ≡ string_bytes self.old.text ++ text.now ++ 10 ∷ []) }
    {
        self.text.push_str(text)?;
        self.text.push_str("\n")
    }
}

/// Whether two say the same.
fn is_told(told: &Told, other: &Told) -> bool
    ensures { result ≡ spec.is_told told.now other.now }
{
    told.line == other.line && told.text.as_str() == other.text.as_str()
}

/// Whether two outcomes say the same, line by line.
#[tactic(auto, using(crate::proofs::Telling::told_apart))]
fn are_told(told: &[Told], others: &[Told]) -> bool
    ensures { result ≡ spec.are_told told.now others.now }
{
    if told.len() != others.len() {
        return false;
    }
    for place in 0..told.len() {
        if !is_told(&told[place], &others[place]) {
            return false;
        }
    }
    true
}

impl Outcome {
    /// Nothing was told.
    fn new(alloc: Global) -> Outcome
        ensures { spec.telling result ≡ [] }
    {
        Outcome {
            told: Vec::new(alloc),
        }
    }

    /// The place of the first line from this one on.
    fn first_from(&self, line: u32) -> Option<usize>
        ensures { result ≡ position (λ t. nat_le line t.line) self.now.told.items }
    {
        self.told.iter().position(|told| line <= told.line)
    }

    /// Where the line stands, or is to stand.
    fn place_of(&self, line: u32) -> usize
        ensures { result ≡ or_length self.now.told.items (position (λ t. nat_le line t.line) self.now.told.items) }
    {
        match self.first_from(line) {
            Some(place) => place,
            None => self.told.len(),
        }
    }

    /// What is told at a place, where that is of the line.
    fn is_at(&self, place: usize, line: u32) -> bool
        ensures { IsTrue result ↔ IsSomeAnd (slice_get self.now.told.items place) (λ t. t.line ≡ line) }
    {
        place < self.told.len() && self.told[place].line == line
    }

    /// One more printed line.
    fn tell(&mut self, alloc: Global, line: u32, text: &str) -> Result<(), AllocError>
        ensures { OnOk result (spec.telling self.new ≡ reports.with_told line text.now (spec.telling self.old)) }
    {
        let place = self.place_of(line);
        if self.is_at(place, line) {
            return self.told[place].add(text);
        }
        let mut told = Told {
            line,
            text: String::new(alloc),
        };
        told.add(text)?;
        self.told.insert(place, told)?;
        Ok(())
    }

    /// Whether it tells this.
    pub fn tells(&self, told: &Told) -> bool
        ensures { result ≡ list_any (λ other. spec.is_told other told.now) self.now.told.items }
    {
        self.told.iter().any(|other| is_told(told, other))
    }

    /// Whether two outcomes are the same.
    pub fn is_same(&self, other: &Outcome) -> bool
        ensures { result ≡ spec.is_same self.now other.now }
    {
        are_told(&self.told, &other.told)
    }
}

/// Whether a byte is a decimal digit.
pub(crate) fn is_digit(byte: u8) -> bool
    ensures { result ≡ reports.is_digit byte }
{
    b'0' <= byte && byte <= b'9'
}

/// The number that a word writes in decimal digits: none where it has more of them than any line has.
fn number_of(word: &[u8]) -> Option<usize>
    ensures { result ≡ reports.number_on 0 word.now }
{
    let mut rest = word;
    let mut number = 0usize;
    while let [byte, behind @ ..] = rest {
        if !is_digit(*byte) || number > 1_000_000_000 {
            return None;
        }
        number = number * 10 + (*byte - b'0') as usize;
        rest = behind;
    }
    Some(number)
}

/// The line of the file from which the directive of a number came, from 1.
fn line_at(lines: &[u32], number: usize) -> Option<u32>
    ensures { result ≡ reports.line_at lines.now number }
{
    if number == 0 {
        return None;
    }
    lines.get(number - 1).copied()
}

/// The line of the file and the text, of a line of the report of a flat script that came from these lines. The last line
/// of a report is of no directive.
fn told_at_line<'a>(line: &'a str, lines: &[u32]) -> Option<(u32, &'a str)>
    ensures { MatchOption result (reports.told_at_line lines.now line.now ≡ None) (λ t. reports.told_at_line lines.now line.now ≡ Some (t.0, t.1.now)) }
{
    let (number, text) = line.split_once(' ')?;
    let number = number_of(number.as_bytes())?;
    let line = line_at(lines, number)?;
    Some((line, text))
}

impl Outcome {
    /// Tells what a line of a report says, unless that is no more than that something was done.
    fn read(&mut self, alloc: Global, line: &str, lines: &[u32]) -> Result<(), AllocError>
        ensures { OnOk result (spec.telling self.new ≡ reports.told_more (reports.told_at_line lines.now line.now) (spec.telling self.old)) }
    {
        match told_at_line(line, lines) {
            Some((line, text)) if !is_silent(text) => self.tell(alloc, line, text),
            _ => Ok(()),
        }
    }
}

/// What the report of a flat script says that came from these lines of the file.
pub fn outcome_of(alloc: Global, report: &str, lines: &[u32]) -> Result<Outcome, AllocError>
    ensures { IfOk result (λ outcome. spec.telling outcome ≡ reports.telling_of lines.now report.now) }
{
    let mut outcome = Outcome::new(alloc);
    for line in report.lines() {
        outcome.read(alloc, line, lines)?;
    }
    Ok(outcome)
}

/// The place of an outcome among others, where it is there.
fn place_among(all: &[Outcome], outcome: &Outcome) -> Option<usize>
    ensures { result ≡ position (λ other. spec.is_same other outcome.now) all.now }
{
    all.iter().position(|other| other.is_same(outcome))
}

/// The number of an outcome among others, behind which it is put where it is new.
pub fn number_among(all: &mut Vec<Outcome>, outcome: Outcome) -> Result<usize, AllocError>
    ensures number { IfOk result (λ n. n ≡ spec.number_of outcome all.old.items) }
    ensures all { OnOk result (all.new.items ≡ spec.with_outcome outcome all.old.items) }
{
    match place_among(all, &outcome) {
        Some(number) => Ok(number),
        None => {
            all.push(outcome)?;
            Ok(all.len() - 1)
        }
    }
}

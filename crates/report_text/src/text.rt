ghost use Rattle.std.specs.Prelude.{◌≡◌, ◌+◌, ◌<◌, ◌++◌, ◌==◌, IfOk, MatchOption, IfSome, OnOk, List, ℕ, [], ◌∷◌, length, take, drop, false, true, count_by, codes, decimal, string_bytes};
ghost use Rattle.bench_report.specs.Lines.{line_of, line_text, numbered};
ghost use Rattle.bench_report.specs.Numbers.{IsNumber};
ghost use Rattle.report_text.specs.reading.Blocks.{own_lines};
ghost use Rattle.trace_reader.specs.Reading.{parts_of};
ghost use Rattle.report_text.specs.Unread as spec;

use crate::ending::Ending;
use bench_report::{Line, Tally};
use itoa::Buffer;
use memchr::memchr;
use std::alloc::{AllocError, Global};
use std::marker::Model;
use std::mem::swap;
use trace_reader::{MOST_MOVING, Told, read_line};

/// The line of a directive that makes no step, behind its number.
const DONE: &[u8] = b"ok\n";

/// A report as far as it isn't read yet, with the number of the script line whose block is read.
#[derive(Drop)]
pub struct Report<'a> {
    left: &'a [u8],
    // How many lines were read.
    read: u32,
    number: u32,
    // The number with a space, as the lines of the block begin.
    mark: String,
    // What was printed last.
    printed: String,
}

impl<'a> Model for Report<'a> {
    ghost use Rattle.std.specs.Prelude.{◌≡◌, ◌+◌, ◌<◌, ◌++◌, length, codes, decimal, string_bytes};
    ghost use Rattle.report_text.specs.Unread as unread;

    ghost Value = { unread.Unread };

    ghost view = { λ r. record { left = r.left.now; read = r.read; number = r.number } };

    ghost invariant = { λ r. (string_bytes r.mark ≡ decimal r.number ++ codes " ") × (r.read + length r.left.now < 4294967295) };
}

/// What is behind a text at the front of another; none where it doesn't stand there.
fn behind<'a>(front: &[u8], text: &'a [u8]) -> Option<&'a [u8]>
    ensures { MatchOption result (spec.comes front.now text.now ≡ false) (λ rest. (spec.comes front.now text.now ≡ true) × (rest.now ≡ drop (length front.now) text.now) × (length rest.now + length front.now ≡ length text.now)) }
{
    text.strip_prefix(front)
}

/// Where the first line of a text ends, before its line feed; none where no whole line comes.
fn line_end(text: &[u8]) -> Option<usize>
    ensures line { MatchOption result (parts_of text.now ≡ text.now ∷ []) (λ end. parts_of text.now ≡ take end text.now ∷ parts_of (drop (end + 1) text.now)) }
    ensures within { IfSome result (λ end. end < length text.now) }
{
    memchr(b'\n', text)
}

/// The letter with which a line begins behind its number, where it tells of a frame's end; none of others. Each step of a
/// frame that has acted asks for that line.
fn first_letter(line: Line<'_>) -> Option<u8>
    ensures { IfSome result (λ letter. (rest : List ℕ) × (line_text (line_of line.entry) ≡ letter ∷ rest)) }
{
    match line {
        Line::Returns(..) => Some(b'r'),
        Line::Leaves(_) => Some(b'l'),
        _ => None,
    }
}

/// Whether a text surely doesn't begin with a line, as its first letter tells. So the line needn't be printed.
fn is_other(line: Line<'_>, text: &[u8]) -> bool
    ensures { result ≡ true → spec.comes (line_text (line_of line.entry) ++ codes "\n") text.now ≡ false }
{
    let Some(letter) = first_letter(line) else {
        return false;
    };
    match text {
        [next, ..] => *next != letter,
        [] => false,
    }
}

/// How a line of the block of a script line begins.
fn mark_of(alloc: Global, number: u32) -> Result<String, AllocError>
    ensures { IfOk result (λ mark. string_bytes mark ≡ decimal number ++ codes " ") }
{
    format!(in alloc; "{number} ")
}

impl<'a> Report<'a> {
    /// A report of which nothing was read. No block is begun: that of line 0 stands in its place.
    pub fn new(alloc: Global, text: &'a [u8]) -> Result<Report<'a>, AllocError>
        requires { length text.now < 4294967295 }
        ensures { IfOk result (λ report. report ≡ spec.unread text.now) }
    {
        let mark = mark_of(alloc, 0)?;
        Ok(Report {
            left: text,
            read: 0,
            number: 0,
            mark,
            printed: String::new(alloc),
        })
    }

    /// The number, from 1, of the line that comes next.
    pub fn next_line(&self) -> u32
        ensures { result ≡ self.now.read + 1 }
    {
        self.read + 1
    }

    /// The block of a script line begins. How its lines begin is printed where a line was printed last, so it takes no new memory.
    pub fn begin(&mut self, number: u32) -> Result<(), AllocError>
        ensures { OnOk result (self.new ≡ spec.begun number self.old) }
    {
        let mut digits = Buffer::new();
        self.printed.clear();
        self.printed.push_str(digits.format(number))?;
        self.printed.push(' ')?;
        swap(&mut self.mark, &mut self.printed);
        self.number = number;
        Ok(())
    }

    /// Where the next line ends, before its line feed; none where no whole line of the block comes.
    fn own_end(&self) -> Option<usize>
        ensures line { MatchOption result (spec.own self.now ≡ []) (λ end. spec.own self.now ≡ take end self.now.left ∷ own_lines self.now.number (parts_of (drop (end + 1) self.now.left))) }
        ensures within { IfSome result (λ end. end < length self.now.left) }
    {
        let end = line_end(self.left)?;
        let _rest = behind(self.mark.as_bytes(), &self.left[..end])?;
        Some(end)
    }

    /// Whether no more line of the block comes. Where something else follows, its end isn't looked for.
    pub fn block_is_over(&self) -> bool
        ensures { result ≡ spec.is_empty (spec.own self.now) }
    {
        let Some(_text) = behind(self.mark.as_bytes(), self.left) else {
            return true;
        };
        match self.own_end() {
            Some(_) => false,
            None => true,
        }
    }

    /// What the next line of the block tells, which is then taken; none where no such line comes, or one that is longer than
    /// any that tells a step, a wait or a reset, or none of a report's.
    pub fn take_told(&mut self, alloc: Global) -> Result<Option<Told>, AllocError>
        ensures told { IfOk result (λ told. told ≡ spec.told_next self.old) }
        ensures taken { IfOk result (λ told. self.new ≡ spec.after_told self.old told) }
        ensures number { IfOk result (λ _. IsNumber self.old.number) }
    {
        let Some(end) = self.own_end() else {
            return Ok(None);
        };
        if end > MOST_MOVING {
            return Ok(None);
        }
        match read_line(alloc, &self.left[..end])? {
            Some(line) => {
                self.left = &self.left[end + 1..];
                self.read += 1;
                Ok(Some(line.told))
            }
            None => Ok(None),
        }
    }

    /// What is behind a line at the front of a text, where it stands there as it is printed; none where another does. It isn't
    /// inlined, so that the line that isn't printed makes no room for what printing needs.
    #[inline(never)]
    fn behind_printed(
        &mut self,
        line: Line<'_>,
        text: &'a [u8],
    ) -> Result<Option<&'a [u8]>, AllocError>
        ensures left { IfOk result (λ left. MatchOption left (spec.comes (line_text (line_of line.entry) ++ codes "\n") text.now ≡ false)
            (λ rest. (spec.comes (line_text (line_of line.entry) ++ codes "\n") text.now ≡ true) × (rest.now ≡ drop (length (line_text (line_of line.entry) ++ codes "\n")) text.now)
            × (length rest.now + length (line_text (line_of line.entry) ++ codes "\n") ≡ length text.now))) }
        ensures same { self.new ≡ self.old }
    {
        self.printed.clear();
        write!(self.printed, "{line}\n")?;
        Ok(behind(self.printed.as_bytes(), text))
    }

    /// The same. The line of a directive that makes no step is the same everywhere, and isn't printed.
    fn behind_text(
        &mut self,
        line: Line<'_>,
        text: &'a [u8],
    ) -> Result<Option<&'a [u8]>, AllocError>
        ensures left { IfOk result (λ left. MatchOption left (spec.comes (line_text (line_of line.entry) ++ codes "\n") text.now ≡ false)
            (λ rest. (spec.comes (line_text (line_of line.entry) ++ codes "\n") text.now ≡ true) × (rest.now ≡ drop (length (line_text (line_of line.entry) ++ codes "\n")) text.now)
            × (length rest.now + length (line_text (line_of line.entry) ++ codes "\n") ≡ length text.now))) }
        ensures same { self.new ≡ self.old }
    {
        match line {
            Line::Done => Ok(behind(DONE, text)),
            _ => self.behind_printed(line, text),
        }
    }

    /// What is left behind the next line, where it is this one, with the number of the block; none where it is another.
    fn behind_line(&mut self, line: Line<'_>) -> Result<Option<&'a [u8]>, AllocError>
        ensures left { IfOk result (λ left. MatchOption left (spec.comes (numbered self.old.number (line_of line.entry)) self.old.left ≡ false)
            (λ rest. (spec.comes (numbered self.old.number (line_of line.entry)) self.old.left ≡ true) × (rest.now ≡ drop (length (numbered self.old.number (line_of line.entry))) self.old.left)
            × (length rest.now + length (numbered self.old.number (line_of line.entry)) ≡ length self.old.left))) }
        ensures same { self.new ≡ self.old }
    {
        let Some(text) = behind(self.mark.as_bytes(), self.left) else {
            return Ok(None);
        };
        if is_other(line, text) {
            return Ok(None);
        }
        self.behind_text(line, text)
    }

    /// Whether the next line is this one, with the number of the block; then it is taken.
    pub fn takes(&mut self, line: Line<'_>) -> Result<bool, AllocError>
        ensures right { IfOk result (λ right. right ≡ spec.comes (numbered self.old.number (line_of line.entry)) self.old.left) }
        ensures taken { IfOk result (λ right. self.new ≡ spec.taken right (numbered self.old.number (line_of line.entry)) 1 self.old) }
        ensures number { IfOk result (λ _. IsNumber self.old.number) }
    {
        let _number = self.number;
        match self.behind_line(line)? {
            Some(left) => {
                self.left = left;
                self.read += 1;
                Ok(true)
            }
            None => Ok(false),
        }
    }

    /// Whether the lines of a text come next; then they are taken.
    pub fn takes_text(&mut self, text: &str) -> bool
        ensures right { result ≡ spec.comes text.now self.old.left }
        ensures taken { self.new ≡ spec.taken result text.now (count_by (λ b. b == 10) text.now) self.old }
    {
        let text = text.as_bytes();
        match behind(text, self.left) {
            Some(left) => {
                let lines = text.iter().filter(|byte| **byte == b'\n').count();
                self.left = left;
                self.read += lines as u32;
                true
            }
            None => false,
        }
    }

    /// What is left where the last line must come, which counts the others.
    pub fn end(&mut self, tally: &Tally) -> Result<Ending, AllocError>
        ensures ending { IfOk result (λ ending. spec.Ends tally.now self.old.left ending) }
        ensures left { self.new ≡ self.old }
    {
        self.printed.clear();
        write!(self.printed, "{tally}")?;
        match behind(self.printed.as_bytes(), self.left) {
            Some([]) => Ok(Ending::Alone),
            Some(_) => Ok(Ending::Followed),
            None => Ok(Ending::Missing),
        }
    }
}

ghost use Rattle.std.specs.Prelude.{ℕ, Bool, List, ◌≡◌, [], OnOk, IfOk, Some, None, Err, false, map, string_bytes};
ghost use Rattle.std.specs.Bool.{OnTrue};
ghost use Rattle.mcal_base.specs.declared.directive.Directive.{Directive};
ghost use Rattle.run_model.specs.Entry.{entry_at, words_at, answer_at, step_at};
ghost use Rattle.run_model.specs.Packing.{item_of, entries_in};
ghost use Rattle.run_model.specs.declared.kept.JournalLists.{JournalLists};
ghost use Rattle.bench_report.specs.Lines.{line_of};
ghost use Rattle.bench_report.specs.Report as spec;
ghost use Rattle.bench_report.specs.Pages as pages;

use crate::frames::{Frames, Purpose, purpose_of};
use crate::limit::ReportEnd;
use crate::lines::Line;
use crate::page::Page;
use mcal_base::{Directive, Move};
use run_model::{Hardware, JournalLists, Kept, KeptWhat, Logged, LoggedAnswer, Span, What};
use std::alloc::{AllocError, Global};
use std::marker::Model;

/// A stretch of words.
fn stretch(words: &[u32], span: Span) -> &[u32]
    ensures { result.now ≡ words_at words.now span }
{
    let at = words.len().min(span.at as usize);
    let rest = &words[at..];
    &rest[..rest.len().min(span.count as usize)]
}

/// Whether an item is a step.
fn is_step(item: &Kept) -> bool
    ensures { (lists : JournalLists) → result ≡ spec.is_stepped (entry_at lists.words.now (item_of lists.rests.now item.now)).said }
{
    matches!(
        item.what,
        KeptWhat::Stepped(..)
            | KeptWhat::Acted(..)
            | KeptWhat::Ended(..)
            | KeptWhat::SteppedWith(..)
    )
}

/// Whether the next item is a step of a directive at this line.
fn steps_next(line: u32, items: &[Kept]) -> bool
    ensures { (lists : JournalLists) → result ≡ spec.steps_next (spec.own_entries line (entries_in lists items.now)) }
{
    match items {
        [item, ..] => item.line == line && is_step(item),
        [] => false,
    }
}

/// Whether an item is a step that prints nothing where steps aren't traced. One that ends its frame or has a rest isn't
/// looked at.
fn is_silent(item: &Kept) -> bool
    ensures { (directive : Directive) (c : pages.ReportWriter) (next : Bool) (lists : JournalLists) → OnTrue result (pages.entry_put false directive c next (entry_at lists.words.now (item_of lists.rests.now item.now)) ≡ c) }
{
    match item.what {
        KeptWhat::Stepped(made, _) | KeptWhat::Acted(made, _) => {
            !matches!(made, Move::Note(_) | Move::Report(_))
        }
        _ => false,
    }
}

/// A report under way: its lines, what the frames were begun for, whether the directive printed nothing but steps and waits
/// yet, and the lines of the shows to come.
#[derive(Drop)]
pub(crate) struct ReportWriter<'a> {
    page: Page,
    frames: Frames,
    silent: bool,
    shows: &'a [String],
}

impl<'a> Model for ReportWriter<'a> {
    ghost use Rattle.std.specs.Prelude.{map, string_bytes};
    ghost use Rattle.bench_report.specs.Pages as pages;

    ghost Value = { pages.ReportWriter };

    ghost view = { λ c. record { page = c.page; frames = c.frames; silent = c.silent; shows = map string_bytes c.shows.now } };
}

impl<'a> ReportWriter<'a> {
    /// The beginning of a report, with the lines of its shows.
    pub(crate) fn new(alloc: Global, shows: &'a [String]) -> ReportWriter<'a>
        ensures { result ≡ pages.beginning (map string_bytes shows.now) }
    {
        ReportWriter {
            page: Page::new(alloc),
            frames: Frames::new(alloc),
            silent: true,
            shows,
        }
    }

    /// Prints a line.
    fn say(&mut self, number: u32, line: Line<'_>) -> Result<(), AllocError>
        ensures { OnOk result (self.new ≡ pages.say self.old number (line_of line.entry)) }
    {
        self.silent = self.silent && matches!(line, Line::Makes(..) | Line::Waits(_));
        self.page.put(number, line)
    }

    /// Prints the line of a step itself, where the report is traced.
    fn traced(
        &mut self,
        traced: bool,
        number: u32,
        depth: u32,
        logged: &Logged,
    ) -> Result<(), AllocError>
        ensures { (words : List ℕ) → OnOk result (self.new ≡ pages.say_all self.old number (spec.step_lines traced depth (step_at words logged.now))) }
    {
        if traced {
            self.say(
                number,
                Line::Makes(
                    depth,
                    logged.made,
                    logged.value,
                    logged.received,
                    logged.event,
                ),
            )?;
        }
        Ok(())
    }

    /// Prints the line of a move.
    fn moved(&mut self, number: u32, made: Move) -> Result<(), AllocError>
        ensures { OnOk result (self.new ≡ pages.say_all self.old number (spec.move_lines made)) }
    {
        match made {
            Move::Note(notice) => self.say(number, Line::Notes(notice)),
            Move::Report(found) => self.say(number, Line::Errs(found)),
            _ => Ok(()),
        }
    }

    /// Takes the topmost frame off, and prints the line of its end.
    fn left(&mut self, number: u32, words: &[u32], answer: LoggedAnswer) -> Result<(), AllocError>
        ensures { OnOk result (self.new ≡ pages.end_put self.old number (answer_at words.now (Some answer))) }
    {
        match self.frames.end() {
            Some(Purpose::Call(service)) => {
                let words = stretch(words, answer.words);
                self.say(number, Line::Returns(service, answer.head, words))
            }
            Some(Purpose::Handler(line)) => self.say(number, Line::Leaves(line)),
            None => Ok(()),
        }
    }

    /// Prints the lines of a step.
    fn step(
        &mut self,
        traced: bool,
        number: u32,
        depth: u32,
        words: &[u32],
        logged: &Logged,
    ) -> Result<(), AllocError>
        ensures { OnOk result (self.new ≡ pages.step_put traced self.old number depth (step_at words.now logged.now)) }
    {
        self.traced(traced, number, depth, logged)?;
        self.moved(number, logged.made)?;
        match logged.ended {
            Some(answer) => self.left(number, words, answer),
            None => Ok(()),
        }
    }

    /// Prints the lines of the show that comes next.
    fn show(&mut self) -> Result<(), AllocError>
        ensures { OnOk result (self.new ≡ pages.text_put self.old self.old.shows) }
    {
        let [text, later @ ..] = self.shows else {
            return Ok(());
        };
        self.shows = later;
        self.silent = self.silent && text.as_str().is_empty();
        self.page.paste(text.as_str())
    }

    /// Prints the line of ticks, where a step waited for them.
    fn waited(&mut self, waited: bool, number: u32, ticks: u32) -> Result<(), AllocError>
        ensures { OnOk result (self.new ≡ pages.say_all self.old number (spec.wait_lines waited ticks)) }
    {
        if waited {
            self.say(number, Line::Waits(ticks))?;
        }
        Ok(())
    }

    /// Prints the lines of an item of a directive that isn't silent, with those behind it.
    fn told(
        &mut self,
        traced: bool,
        directive: &Directive,
        lists: &JournalLists<'_>,
        item: &Kept,
        after: &[Kept],
    ) -> Result<(), AllocError>
        ensures { OnOk result (self.new ≡ pages.entry_put traced directive.now self.old (spec.steps_next (spec.own_entries directive.now.line (entries_in lists.now after.now))) (entry_at lists.now.words.now (item_of lists.now.rests.now item.now))) }
    {
        let number = directive.line;
        match item.says(lists.rests) {
            What::Happened(Hardware::Show(_)) => self.show(),
            What::Happened(Hardware::Tick(ticks)) => {
                self.waited(traced && steps_next(number, after), number, ticks)
            }
            What::Happened(_) => Ok(()),
            What::Begun => self.frames.begin(purpose_of(&directive.order)),
            What::Held(cause) => self.say(number, Line::Holds(cause)),
            What::Stepped(logged) => self.step(traced, number, item.depth, lists.words, &logged),
            What::Reset(reason, dropped) => {
                self.frames.clear();
                self.say(number, Line::Restarts(reason, dropped))
            }
        }
    }

    /// Prints the lines of an item of a directive, with those behind it.
    fn entry(
        &mut self,
        traced: bool,
        directive: &Directive,
        lists: &JournalLists<'_>,
        item: &Kept,
        after: &[Kept],
    ) -> Result<(), AllocError>
        ensures { OnOk result (self.new ≡ pages.entry_put traced directive.now self.old (spec.steps_next (spec.own_entries directive.now.line (entries_in lists.now after.now))) (entry_at lists.now.words.now (item_of lists.now.rests.now item.now))) }
    {
        if !traced && is_silent(item) {
            return Ok(());
        }
        self.told(traced, directive, lists, item, after)
    }

    /// Prints the lines of the items that stand next with the line of a directive, and gives those behind them.
    fn entries<'b>(
        &mut self,
        traced: bool,
        directive: &Directive,
        lists: &JournalLists<'_>,
        items: &'b [Kept],
    ) -> Result<&'b [Kept], AllocError>
        ensures put { OnOk result (self.new ≡ pages.entries_put traced directive.now self.old (spec.own_entries directive.now.line (entries_in lists.now items.now))) }
        ensures rest { IfOk result (λ later. entries_in lists.now later.now ≡ spec.later_entries directive.now.line (entries_in lists.now items.now)) }
    {
        let mut rest = items;
        while let [item, after @ ..] = rest {
            if item.line != directive.line {
                break;
            }
            self.entry(traced, directive, lists, item, after)?;
            rest = after;
        }
        Ok(rest)
    }

    /// Prints `ok` where the directive printed nothing but steps and waits.
    fn close(&mut self, number: u32) -> Result<(), AllocError>
        ensures { OnOk result (self.new ≡ pages.closed number self.old) }
    {
        if self.silent {
            self.say(number, Line::Done)?;
        }
        Ok(())
    }

    /// Prints the lines of a directive, and gives the items behind its own.
    pub(crate) fn chapter<'b>(
        &mut self,
        traced: bool,
        directive: &Directive,
        lists: &JournalLists<'_>,
        items: &'b [Kept],
    ) -> Result<&'b [Kept], AllocError>
        ensures put { OnOk result (self.new ≡ pages.chapter_put traced directive.now self.old (entries_in lists.now items.now)) }
        ensures rest { IfOk result (λ later. entries_in lists.now later.now ≡ spec.later_entries directive.now.line (entries_in lists.now items.now)) }
    {
        self.silent = true;
        let rest = self.entries(traced, directive, lists, items)?;
        self.close(directive.line)?;
        Ok(rest)
    }

    /// The whole text.
    pub(crate) fn end(self) -> Result<String, ReportEnd>
        ensures text { IfOk result (λ s. pages.ended self.entry.page ≡ Some (string_bytes s)) }
        ensures too_long { result ≡ Err ReportEnd.TooLong → pages.ended self.entry.page ≡ None }
    {
        self.page.end()
    }
}

ghost use Rattle.std.specs.Prelude.{◌≡◌, OnOk};
ghost use Rattle.bench_report.specs.Lines.{line_of};
ghost use Rattle.live_session.specs.Pages as spec;

use bench_report::{Line, Tally};
use std::alloc::{AllocError, Global};
use std::marker::Model;

/// What is to be written, and what its lines count.
#[derive(Drop)]
pub(crate) struct Page {
    /// What is to be written.
    pub(crate) text: String,
    /// The number of the line that is answered.
    pub(crate) number: u32,
    /// What the lines count since the beginning.
    pub(crate) tally: Tally,
    /// Whether the line that is answered printed nothing but steps and waits yet.
    pub(crate) silent: bool,
}

impl Model for Page {
    ghost use Rattle.std.specs.Prelude.{string_bytes};
    ghost use Rattle.live_session.specs.Pages as spec;

    ghost Value = { spec.Page };

    ghost view = { λ p. record { text = string_bytes p.text; number = p.number; tally = p.tally; silent = p.silent } };
}

/// One more.
fn grow(count: &mut u64)
    ensures { count.new ≡ spec.grown count.old }
{
    *count = count.saturating_add(1);
}

/// Counts a line.
fn count(tally: &mut Tally, line: &Line<'_>)
    ensures { tally.new ≡ spec.counted tally.old (line_of line.now) }
{
    match line {
        Line::Holds(_) => grow(&mut tally.held),
        Line::Notes(_) => grow(&mut tally.notes),
        Line::Errs(_) => grow(&mut tally.errors),
        Line::Returns(..) => grow(&mut tally.calls),
        Line::Leaves(_) => grow(&mut tally.handlers),
        Line::Makes(..) | Line::Waits(_) | Line::Restarts(..) | Line::Done => {}
    }
}

impl Page {
    /// Nothing.
    pub(crate) fn new(alloc: Global) -> Page {
        Page {
            text: String::new(alloc),
            number: 0,
            tally: Tally::default(),
            silent: true,
        }
    }

    /// The next line is answered.
    pub(crate) fn begin(&mut self)
        ensures { self.new ≡ spec.begun self.old }
    {
        self.number = self.number.saturating_add(1);
        self.silent = true;
    }

    /// Writes a line of a report, and counts it.
    pub(crate) fn say(&mut self, line: Line<'_>) -> Result<(), AllocError>
        ensures { OnOk result (self.new ≡ spec.say self.old (line_of line.entry)) }
    {
        let number = self.number;
        self.silent = self.silent && matches!(line, Line::Makes(..) | Line::Waits(_));
        count(&mut self.tally, &line);
        write!(self.text, "{number} {line}\n")
    }

    /// Writes `ok` where nothing but steps and waits was printed.
    pub(crate) fn close(&mut self) -> Result<(), AllocError>
        ensures { OnOk result (self.new ≡ spec.closed self.old) }
    {
        if self.silent {
            self.say(Line::Done)?;
        }
        Ok(())
    }

    /// Writes that a line is refused, and why.
    pub(crate) fn refuse(&mut self, reason: &str) -> Result<(), AllocError>
        ensures { OnOk result (self.new ≡ spec.refused self.old reason.now) }
    {
        let number = self.number;
        self.silent = false;
        write!(self.text, "{number} fault {reason}\n")
    }
}

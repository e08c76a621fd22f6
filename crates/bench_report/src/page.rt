ghost use Rattle.std.specs.Prelude.{◌≡◌, Some, None, Err, OnOk, IfOk, string_bytes};
ghost use Rattle.bench_report.specs.Lines.{line_of};
ghost use Rattle.bench_report.specs.Pages.{blank, put, paste, ended};

use crate::limit::{MOST_BYTES, ReportEnd};
use crate::lines::Line;
use crate::tally::Tally;
use std::alloc::{AllocError, Global};
use std::marker::Model;

/// The lines of a report so far, and what they count, as far as a report may be long: once that is passed nothing more
/// is written.
#[derive(Drop)]
pub(crate) struct Page {
    text: String,
    tally: Tally,
}

impl Model for Page {
    ghost use Rattle.std.specs.Prelude.{Option, string_bytes, string_len, ◌+◌, ◌≤◌};
    ghost use Rattle.bench_report.specs.Pages as pages;

    ghost Value = { Option pages.Page };

    ghost view = { λ p. pages.fitting (record { text = string_bytes p.text; tally = p.tally }) };

    ghost invariant = { λ p. p.tally.calls + p.tally.handlers + p.tally.held + p.tally.errors + p.tally.notes ≤ string_len p.text };
}

impl Page {
    /// No lines.
    pub(crate) fn new(alloc: Global) -> Page
        ensures { result ≡ Some blank }
    {
        Page {
            text: String::new(alloc),
            tally: Tally::default(),
        }
    }

    /// Writes a line with its number, and counts it.
    pub(crate) fn put(&mut self, number: u32, line: Line<'_>) -> Result<(), AllocError>
        ensures { OnOk result (self.new ≡ put self.old number (line_of line.entry)) }
    {
        if self.text.len() > MOST_BYTES {
            return Ok(());
        }
        if let Err(error) = write!(self.text, "{number} {line}\n") {
            // A page that was cut off counts nothing.
            self.tally = Tally::default();
            return Err(error);
        }
        match line {
            Line::Holds(_) => self.tally.held += 1,
            Line::Notes(_) => self.tally.notes += 1,
            Line::Errs(_) => self.tally.errors += 1,
            Line::Returns(..) => self.tally.calls += 1,
            Line::Leaves(_) => self.tally.handlers += 1,
            Line::Makes(..) | Line::Waits(_) | Line::Restarts(..) | Line::Done => {}
        }
        Ok(())
    }

    /// Writes the lines of a show.
    pub(crate) fn paste(&mut self, text: &str) -> Result<(), AllocError>
        ensures { OnOk result (self.new ≡ paste self.old text.now) }
    {
        if self.text.len() > MOST_BYTES {
            return Ok(());
        }
        self.text.push_str(text)
    }

    /// The text with its last line.
    pub(crate) fn end(self) -> Result<String, ReportEnd>
        ensures text { IfOk result (λ s. ended self ≡ Some (string_bytes s)) }
        ensures too_long { result ≡ Err ReportEnd.TooLong → ended self ≡ None }
    {
        let Page { mut text, tally } = self;
        if text.len() > MOST_BYTES {
            return Err(ReportEnd::TooLong);
        }
        if write!(text, "{tally}").is_err() {
            return Err(ReportEnd::NoMemory);
        }
        if text.len() > MOST_BYTES {
            return Err(ReportEnd::TooLong);
        }
        Ok(text)
    }
}

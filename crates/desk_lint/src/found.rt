use desk_findings::places::{Places, Span};
use desk_findings::{Finding, Severity};
use std::alloc::{AllocError, Global};
use std::fmt::Display;

/// The findings of a file, while it is looked through.
#[derive(Drop)]
pub(crate) struct Found {
    pub(crate) alloc: Global,
    pub(crate) errors: Vec<Finding>,
    pub(crate) warnings: Vec<Finding>,
}

impl Found {
    /// Nothing is found yet.
    pub(crate) fn new(alloc: Global) -> Found {
        Found {
            alloc,
            errors: Vec::new(alloc),
            warnings: Vec::new(alloc),
        }
    }

    /// Keeps an error: what was found, and what is allowed or to be written there.
    pub(crate) fn error<What: Display + Drop, Help: Display + Drop>(
        &mut self,
        span: Span,
        what: What,
        help: Help,
    ) -> Result<(), AllocError> {
        let finding = finding(self.alloc, Severity::Error, span, what, help)?;
        self.errors.push(finding)?;
        Ok(())
    }

    /// Keeps an error that has to do with another place.
    pub(crate) fn error_of_two<What: Display + Drop>(
        &mut self,
        span: Span,
        other: Span,
        what: What,
    ) -> Result<(), AllocError> {
        let mut finding = finding(self.alloc, Severity::Error, span, what, "")?;
        finding.other = Some(other);
        self.errors.push(finding)?;
        Ok(())
    }

    /// Keeps a warning.
    pub(crate) fn warning<What: Display + Drop, Help: Display + Drop>(
        &mut self,
        span: Span,
        what: What,
        help: Help,
    ) -> Result<(), AllocError> {
        let finding = finding(self.alloc, Severity::Warning, span, what, help)?;
        self.warnings.push(finding)?;
        Ok(())
    }
}

/// A finding with its texts.
pub(crate) fn finding<What: Display + Drop, Help: Display + Drop>(
    alloc: Global,
    severity: Severity,
    span: Span,
    what: What,
    help: Help,
) -> Result<Finding, AllocError> {
    let what = String::format(alloc, what)?;
    let help = String::format(alloc, help)?;
    Ok(Finding {
        severity,
        span,
        what,
        help,
        other: None,
    })
}

/// Where the key is that a path leads to, or else the table or array around it.
pub(crate) fn key_at(places: &Places, path: &str) -> Span {
    match places.near(path) {
        Some(placed) => placed.key,
        None => Span { start: 0, end: 0 },
    }
}

/// Where the value is that a path leads to, or else the table or array around it.
pub(crate) fn value_at(places: &Places, path: &str) -> Span {
    match places.at(path) {
        Some(placed) => placed.value,
        None => key_at(places, path),
    }
}

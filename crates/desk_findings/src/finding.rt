use crate::places::Span;
use std::alloc::AllocError;

/// How much a finding counts.
#[derive(Clone, Copy)]
pub enum Severity {
    /// The bench refuses the file.
    Error,
    /// The bench takes the file, and a person may not have meant it.
    Warning,
}

impl Severity {
    /// The word for it.
    pub fn text(self) -> &'static str {
        match self {
            Severity::Error => "error",
            Severity::Warning => "warning",
        }
    }
}

/// What is found at a place of a text.
#[derive(Drop)]
pub struct Finding {
    /// How much it counts.
    pub severity: Severity,
    /// The part of the text that it is about.
    pub span: Span,
    /// What was found.
    pub what: String,
    /// What is allowed, or what to write; empty where nothing is to be said.
    pub help: String,
    /// Another part of the text that has to do with it.
    pub other: Option<Span>,
}

/// Findings in the order of their places.
pub fn sorted(mut findings: Vec<Finding>) -> Result<Vec<Finding>, AllocError> {
    findings.sort_by_key(|finding| finding.span.start)?;
    Ok(findings)
}

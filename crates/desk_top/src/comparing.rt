use crate::as_json::differences_json;
use crate::junit::suite;
use crate::running::run_bench;
use crate::told::{Style, Told};
use desk_reports::{Difference, differences, put_difference, report_lines};
use std::alloc::{AllocError, Global};

/// The status where two reports differ.
const DIFFERENT: u8 = 8;

/// Two reports, of which the one is what was expected.
#[derive(Clone, Copy)]
pub struct Comparison<'a> {
    /// What the test is called.
    pub name: &'a str,
    /// What was expected.
    pub expected: &'a str,
    /// What was printed.
    pub printed: &'a str,
}

/// Differences for a person.
fn page(alloc: Global, found: &[Difference<'_>]) -> Result<String, AllocError> {
    let mut text = String::new(alloc);
    for difference in found {
        put_difference(&mut text, *difference)?;
    }
    Ok(text)
}

/// Differences as a suite of one test.
fn tested(alloc: Global, name: &str, found: &[Difference<'_>]) -> Result<String, AllocError> {
    let failure = page(alloc, found)?;
    suite(alloc, name, failure.as_str())
}

/// Differences as they are told.
fn told(
    alloc: Global,
    name: &str,
    found: &[Difference<'_>],
    style: Style,
) -> Result<Told, AllocError> {
    let status = if found.is_empty() { 0 } else { DIFFERENT };
    let text = match style {
        Style::Plain => page(alloc, found),
        Style::Json => differences_json(alloc, name, found),
        Style::Junit => tested(alloc, name, found),
    };
    Ok(Told {
        status,
        text: text?,
    })
}

/// Tells where two reports differ, by the lines of their script. The status is 8 where they do.
pub fn compared(
    alloc: Global,
    comparison: Comparison<'_>,
    style: Style,
) -> Result<Told, AllocError> {
    let expected = report_lines(alloc, comparison.expected)?;
    let printed = report_lines(alloc, comparison.printed)?;
    let found = differences(alloc, &expected, &printed)?;
    told(alloc, comparison.name, &found, style)
}

/// Runs a file, and tells where what it prints is not what is expected. Where the bench refuses it, that is told, with its
/// status.
pub fn expected(
    alloc: Global,
    name: &str,
    bytes: &[u8],
    is_traced: bool,
    report: &str,
    style: Style,
) -> Result<Told, AllocError> {
    let ran = run_bench(alloc, bytes, is_traced)?;
    if ran.status != 0 {
        return Ok(ran);
    }
    let comparison = Comparison {
        name,
        expected: report,
        printed: ran.text.as_str(),
    };
    compared(alloc, comparison, style)
}

use desk_findings::Finding;
use desk_findings::places::{Lines, Position};
use desk_reports::{Difference, ReportLine};
use json::Writer;
use std::alloc::{AllocError, Global};

/// Writes a text behind its key.
fn put_text(out: &mut Writer, key: &str, text: &str) -> Result<(), AllocError> {
    out.key(key)?;
    out.string(text)
}

/// Writes a number behind its key.
fn put_number(out: &mut Writer, key: &str, number: usize) -> Result<(), AllocError> {
    out.key(key)?;
    out.u64(number as u64)
}

/// What is told of a finding.
#[derive(Clone, Copy)]
struct Shown<'a> {
    start: Position,
    end: Position,
    severity: &'a str,
    what: &'a str,
    help: &'a str,
}

/// Writes what is told of a finding as an object.
fn put_shown(out: &mut Writer, shown: Shown<'_>) -> Result<(), AllocError> {
    out.begin_object()?;
    put_number(out, "column", shown.start.column)?;
    put_number(out, "end_column", shown.end.column)?;
    put_number(out, "end_line", shown.end.line)?;
    put_text(out, "help", shown.help)?;
    put_number(out, "line", shown.start.line)?;
    put_text(out, "severity", shown.severity)?;
    put_text(out, "what", shown.what)?;
    out.end_object()
}

/// What is told of a finding.
fn shown_of<'a>(lines: &Lines<'_>, finding: &'a Finding) -> Shown<'a> {
    Shown {
        start: lines.position(finding.span.start),
        end: lines.position(finding.span.end),
        severity: finding.severity.text(),
        what: finding.what.as_str(),
        help: finding.help.as_str(),
    }
}

/// Writes findings as objects.
fn put_findings(
    out: &mut Writer,
    lines: &Lines<'_>,
    findings: &[Finding],
) -> Result<(), AllocError> {
    for finding in findings {
        put_shown(out, shown_of(lines, finding))?;
    }
    Ok(())
}

/// What was written, as a line.
fn line_of(alloc: Global, out: Writer) -> Result<String, AllocError> {
    let mut bytes = out.into_inner();
    bytes.push(b'\n')?;
    String::from_utf8_lossy(alloc, &bytes)
}

/// What is found in a file, as a line of JSON.
pub(crate) fn findings_json(
    alloc: Global,
    name: &str,
    lines: &Lines<'_>,
    errors: &[Finding],
    warnings: &[Finding],
) -> Result<String, AllocError> {
    let mut out = Writer::new(Vec::new(alloc));
    out.begin_object()?;
    put_text(&mut out, "file", name)?;
    out.key("findings")?;
    out.begin_array()?;
    put_findings(&mut out, lines, errors)?;
    put_findings(&mut out, lines, warnings)?;
    out.end_array()?;
    out.end_object()?;
    line_of(alloc, out)
}

/// Writes lines of a report as an array.
fn put_lines(out: &mut Writer, key: &str, lines: &[ReportLine<'_>]) -> Result<(), AllocError> {
    out.key(key)?;
    out.begin_array()?;
    for line in lines {
        out.string(line.text)?;
    }
    out.end_array()
}

/// Writes the number of a line of the script. That at the end has none.
fn put_line_number(out: &mut Writer, number: u32) -> Result<(), AllocError> {
    out.key("script_line")?;
    match number {
        u32::MAX => out.null(),
        number => out.u64(number as u64),
    }
}

/// Writes a difference as an object.
fn put_difference(out: &mut Writer, difference: Difference<'_>) -> Result<(), AllocError> {
    out.begin_object()?;
    put_lines(out, "expected", difference.one)?;
    put_lines(out, "printed", difference.other)?;
    put_line_number(out, difference.number)?;
    out.end_object()
}

/// Differences as a line of JSON.
pub(crate) fn differences_json(
    alloc: Global,
    name: &str,
    differences: &[Difference<'_>],
) -> Result<String, AllocError> {
    let mut out = Writer::new(Vec::new(alloc));
    out.begin_object()?;
    out.key("differences")?;
    out.begin_array()?;
    for difference in differences {
        put_difference(&mut out, *difference)?;
    }
    out.end_array()?;
    put_text(&mut out, "file", name)?;
    out.key("same")?;
    out.boolean(differences.is_empty())?;
    out.end_object()?;
    line_of(alloc, out)
}

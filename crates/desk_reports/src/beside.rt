use crate::parts::{ReportLine, lines_at};
use std::alloc::{AllocError, Global};

/// The most columns that a script has in a listing.
const MOST_COLUMNS: usize = 60;

/// A script that is to be listed with what its lines printed.
#[derive(Clone, Copy)]
pub struct Listing<'a> {
    /// The lines of the script, without comments cut off, from its first one on.
    pub script: &'a [&'a str],
    /// The number of the script's first line in its file.
    pub first: usize,
    /// The lines of the report.
    pub report: &'a [ReportLine<'a>],
}

/// How many columns a text takes, as far as a listing tells.
fn columns(text: &str) -> usize {
    text.chars().count()
}

/// How many columns the script has.
fn width_of(script: &[&str]) -> usize {
    let mut width = 0;
    for line in script {
        let columns = columns(line);
        if columns <= MOST_COLUMNS {
            width = columns.max(width);
        }
    }
    width
}

/// Writes so many spaces.
fn put_spaces(text: &mut String, count: usize) -> Result<(), AllocError> {
    for _ in 0..count {
        text.push(' ')?;
    }
    Ok(())
}

/// Writes a row: a number of a line, the line, and what it printed.
fn put_row(
    text: &mut String,
    number: &str,
    line: &str,
    width: usize,
    printed: &str,
) -> Result<(), AllocError> {
    put_spaces(text, 5usize.saturating_sub(number.len()))?;
    text.push_str(number)?;
    text.push_str(" | ")?;
    text.push_str(line)?;
    if !printed.is_empty() {
        put_spaces(text, width.saturating_sub(columns(line)))?;
        text.push_str(" | ")?;
        text.push_str(printed)?;
    }
    text.push_str("\n")
}

/// What lines print, steps in a row as their number alone.
fn folded(alloc: Global, lines: &[ReportLine<'_>]) -> Result<Vec<String>, AllocError> {
    let mut rows = Vec::new(alloc);
    let mut steps = 0usize;
    for line in lines {
        if line.text.starts_with("step ") {
            steps = steps.saturating_add(1);
            continue;
        }
        if steps > 0 {
            rows.push(steps_text(alloc, steps)?)?;
            steps = 0;
        }
        rows.push(String::from_str(alloc, line.text)?)?;
    }
    if steps > 0 {
        rows.push(steps_text(alloc, steps)?)?;
    }
    Ok(rows)
}

/// So many steps.
fn steps_text(alloc: Global, steps: usize) -> Result<String, AllocError> {
    if steps == 1 {
        String::from_str(alloc, "(1 step)")
    } else {
        format!(in alloc; "({steps} steps)")
    }
}

/// Writes a line of the script with what it printed.
fn put_line(
    alloc: Global,
    text: &mut String,
    number: usize,
    line: &str,
    width: usize,
    rows: &[String],
) -> Result<(), AllocError> {
    let number = format!(in alloc; "{number}")?;
    let Some((first, others)) = rows.split_first() else {
        return put_row(text, number.as_str(), line, width, "");
    };
    if columns(line) > width {
        put_row(text, number.as_str(), line, width, "")?;
        put_row(text, "", "", width, first.as_str())?;
    } else {
        put_row(text, number.as_str(), line, width, first.as_str())?;
    }
    for row in others {
        put_row(text, "", "", width, row.as_str())?;
    }
    Ok(())
}

/// A script, each line with its number in the file, and beside it what it printed.
pub fn listed(alloc: Global, listing: Listing<'_>) -> Result<String, AllocError> {
    let mut text = String::new(alloc);
    let width = width_of(listing.script);
    let mut place = 0usize;
    let mut number = 0u32;
    for line in listing.script {
        number = number.saturating_add(1);
        let own = lines_at(listing.report, place, number);
        place = place.saturating_add(own.len());
        let rows = folded(alloc, own)?;
        let in_file = listing
            .first
            .saturating_add(number as usize)
            .saturating_sub(1);
        put_line(alloc, &mut text, in_file, line, width, &rows)?;
    }
    for line in listing.report.iter().skip(place) {
        text.push_str(line.text)?;
        text.push_str("\n")?;
    }
    Ok(text)
}

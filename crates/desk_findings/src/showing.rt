use crate::finding::Finding;
use crate::places::{Lines, Span, characters};
use std::alloc::{AllocError, Global};

/// Writes so many of a character.
fn put_many(text: &mut String, character: char, count: usize) -> Result<(), AllocError> {
    for _ in 0..count {
        text.push(character)?;
    }
    Ok(())
}

/// How many columns a number takes.
fn columns_of(alloc: Global, number: usize) -> Result<usize, AllocError> {
    let text = format!(in alloc; "{number}")?;
    Ok(text.len())
}

/// Writes what is as wide as some bytes, and empty: tabs stay tabs.
fn put_blank(text: &mut String, bytes: &[u8]) -> Result<(), AllocError> {
    for byte in bytes {
        if *byte == b'\t' {
            text.push('\t')?;
        } else if *byte & 0xC0 != 0x80 {
            text.push(' ')?;
        }
    }
    Ok(())
}

/// The line that a part begins in, and below it marks under what it has of the part.
fn put_marked(
    alloc: Global,
    text: &mut String,
    lines: &Lines<'_>,
    span: Span,
    note: &str,
) -> Result<(), AllocError> {
    let at = lines.position(span.start);
    let line = lines.line(at.line);
    let shown = String::from_utf8_lossy(alloc, line)?;
    let number = at.line;
    let width = columns_of(alloc, number)?;
    put_many(text, ' ', width)?;
    text.push_str(" |\n")?;
    write!(text, "{number} | {shown}\n")?;
    put_many(text, ' ', width)?;
    text.push_str(" | ")?;
    let start = span.start.saturating_sub(lines.start_of(at.line));
    let end = span.end.saturating_sub(lines.start_of(at.line));
    put_blank(text, line.get(..start).unwrap_or(&[]))?;
    let marked = line.get(start..end.min(line.len())).unwrap_or(&[]);
    put_many(text, '^', characters(marked).max(1))?;
    if !note.is_empty() {
        write!(text, " {note}")?;
    }
    text.push_str("\n")?;
    Ok(())
}

/// Writes where a part begins.
fn put_place(
    alloc: Global,
    text: &mut String,
    name: &str,
    lines: &Lines<'_>,
    span: Span,
) -> Result<(), AllocError> {
    let at = lines.position(span.start);
    let line = at.line;
    let column = at.column;
    let width = columns_of(alloc, line)?;
    put_many(text, ' ', width)?;
    write!(text, "--> {name}:{line}:{column}\n")?;
    Ok(())
}

/// A finding as compilers show them: what was found, where, the line with marks under the place, and what is allowed.
pub fn shown(
    alloc: Global,
    name: &str,
    lines: &Lines<'_>,
    finding: &Finding,
) -> Result<String, AllocError> {
    let severity = finding.severity.text();
    let what = finding.what.as_str();
    let mut text = format!(in alloc; "{severity}: {what}\n")?;
    put_place(alloc, &mut text, name, lines, finding.span)?;
    put_marked(alloc, &mut text, lines, finding.span, finding.help.as_str())?;
    if let Some(other) = finding.other {
        put_place(alloc, &mut text, name, lines, other)?;
        put_marked(alloc, &mut text, lines, other, "the other one stands here")?;
    }
    Ok(text)
}

use crate::found::Found;
use crate::split::before_comment;
use desk_findings::places::{Lines, Span};
use desk_tables::{DirectiveRow, directives};
use std::alloc::AllocError;

/// The line that stands between configuration and script.
const SEPARATOR: &[u8] = b"---";

/// The number of the first line that is the separator between configuration and script, from 1; `None` where there is none.
pub fn script_line(lines: &Lines<'_>) -> Option<usize> {
    for number in 1..lines.count().saturating_add(1) {
        if lines.line(number) == SEPARATOR {
            return Some(number);
        }
    }
    None
}

/// Whether a line has the separator's signs, and something else.
fn is_almost(line: &[u8]) -> bool {
    line != SEPARATOR && line.trim_ascii() == SEPARATOR
}

/// The first word of a line, empty where it has none.
fn first_word(line: &[u8]) -> &[u8] {
    let text = before_comment(line);
    let mut start = 0usize;
    for (place, byte) in text.iter().enumerate() {
        if matches!(*byte, b' ' | b'\t') {
            if start < place {
                return text.get(start..place).unwrap_or(&[]);
            }
            start = place.saturating_add(1);
        }
    }
    text.get(start..).unwrap_or(&[])
}

/// Whether a line reads as a directive: a directive's word, and no `=` behind it.
fn is_directive(line: &[u8]) -> bool {
    let first = first_word(line);
    for DirectiveRow(word, _) in directives() {
        if word.as_bytes() == first {
            return !line.contains(&b'=');
        }
    }
    false
}

/// Says what stands in place of a separator, or where one is to stand.
pub(crate) fn no_separator(found: &mut Found, lines: &Lines<'_>) -> Result<(), AllocError> {
    for number in 1..lines.count().saturating_add(1) {
        if is_almost(lines.line(number)) {
            return found.error(
                lines.span_of(number),
                "this line is no separator",
                "it has to be `---` alone, without a space",
            );
        }
    }
    for number in 1..lines.count().saturating_add(1) {
        if is_directive(lines.line(number)) {
            return found.error(
                lines.span_of(number),
                "no line `---` stands before the script",
                "put a line `---` before this one",
            );
        }
    }
    found.error(
        Span { start: 0, end: 0 },
        "no line `---` ends the configuration",
        "the smallest file is a line `---`: the default board, and no directive",
    )
}

use crate::parts::{ReportLine, lines_at};
use std::alloc::{AllocError, Global};

/// What two reports print for one line of a script, where they print other things.
#[derive(Clone, Copy)]
pub struct Difference<'a> {
    /// The number of the script line; of the last lines, the most that there is.
    pub number: u32,
    /// What the one prints.
    pub one: &'a [ReportLine<'a>],
    /// What the other prints.
    pub other: &'a [ReportLine<'a>],
}

/// The number of the line at a place, the most that there is where there is none.
fn number_at(lines: &[ReportLine<'_>], place: usize) -> u32 {
    match lines.get(place) {
        Some(line) => line.number,
        None => u32::MAX,
    }
}

/// Whether lines say the same.
fn are_same(one: &[ReportLine<'_>], other: &[ReportLine<'_>]) -> bool {
    for (line, other) in one.iter().zip(other) {
        if line.text != other.text {
            return false;
        }
    }
    one.len() == other.len()
}

/// Where two reports differ, by the lines of their script.
pub fn differences<'a>(
    alloc: Global,
    one: &'a [ReportLine<'a>],
    other: &'a [ReportLine<'a>],
) -> Result<Vec<Difference<'a>>, AllocError> {
    let mut found = Vec::new(alloc);
    let mut place = 0usize;
    let mut other_place = 0usize;
    for _ in 0..one.len().saturating_add(other.len()) {
        let number = number_at(one, place).min(number_at(other, other_place));
        let own = lines_at(one, place, number);
        let others = lines_at(other, other_place, number);
        if own.is_empty() && others.is_empty() {
            break;
        }
        if !are_same(own, others) {
            found.push(Difference {
                number,
                one: own,
                other: others,
            })?;
        }
        place = place.saturating_add(own.len());
        other_place = other_place.saturating_add(others.len());
    }
    Ok(found)
}

/// Writes lines behind a mark.
fn put_lines(text: &mut String, mark: &str, lines: &[ReportLine<'_>]) -> Result<(), AllocError> {
    for line in lines {
        text.push_str(mark)?;
        text.push_str(line.text)?;
        text.push_str("\n")?;
    }
    Ok(())
}

/// Writes a difference: the line of the script, what the one prints behind `-`, and what the other prints behind `+`.
pub fn put_difference(text: &mut String, difference: Difference<'_>) -> Result<(), AllocError> {
    let number = difference.number;
    if number == u32::MAX {
        text.push_str("at the end\n")?;
    } else {
        write!(text, "script line {number}\n")?;
    }
    put_lines(text, "- ", difference.one)?;
    put_lines(text, "+ ", difference.other)
}

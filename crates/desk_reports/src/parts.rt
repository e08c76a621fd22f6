use std::alloc::{AllocError, Global};

/// A line of a report.
#[derive(Clone, Copy)]
pub struct ReportLine<'a> {
    /// The number of its script line; of the last line, which has none, the most that there is.
    pub number: u32,
    /// What it says.
    pub text: &'a str,
}

/// The line of a report that a line of text is.
fn line_of(line: &str) -> ReportLine<'_> {
    if let Some((front, text)) = line.split_once(' ') {
        if let Ok(number) = front.parse::<u32>() {
            return ReportLine { number, text };
        }
    }
    ReportLine {
        number: u32::MAX,
        text: line,
    }
}

/// The lines of a report.
pub fn report_lines(alloc: Global, report: &str) -> Result<Vec<ReportLine<'_>>, AllocError> {
    let mut lines = Vec::new(alloc);
    for line in report.lines() {
        lines.push(line_of(line))?;
    }
    Ok(lines)
}

/// The lines of a script line, of those from a place on that begin with them.
pub(crate) fn lines_at<'a>(
    lines: &'a [ReportLine<'a>],
    place: usize,
    number: u32,
) -> &'a [ReportLine<'a>] {
    let rest = lines.get(place..).unwrap_or(&[]);
    for (count, line) in rest.iter().enumerate() {
        if line.number != number {
            return rest.get(..count).unwrap_or(&[]);
        }
    }
    rest
}

use crate::running::run_bench;
use crate::told::Told;
use desk_findings::places::Lines;
use desk_lint::script_line;
use desk_reports::{Listing, listed, report_lines};
use std::alloc::{AllocError, Global};
use std::str;

/// The number of the first line of the script, which is behind the file's last line where the separator is that one.
fn first_line(lines: &Lines<'_>) -> usize {
    match script_line(lines) {
        Some(number) => number.saturating_add(1),
        None => 1,
    }
}

/// The lines of a file from one on, without an empty one at its end.
fn script_lines<'a>(
    alloc: Global,
    lines: &Lines<'a>,
    first: usize,
) -> Result<Vec<&'a str>, AllocError> {
    let mut script = Vec::new(alloc);
    for number in first..lines.count().saturating_add(1) {
        let line = lines.line(number);
        if number < lines.count() || !line.is_empty() {
            script.push(str::from_utf8(line).unwrap_or("(not UTF-8)"))?;
        }
    }
    Ok(script)
}

/// A file's script with what each line printed in a report beside it.
fn page(alloc: Global, bytes: &[u8], report: &str) -> Result<String, AllocError> {
    let lines = Lines::of(alloc, bytes)?;
    let first = first_line(&lines);
    let script = script_lines(alloc, &lines, first)?;
    let report = report_lines(alloc, report)?;
    listed(
        alloc,
        Listing {
            script: &script,
            first,
            report: &report,
        },
    )
}

/// A file's script with what each line printed beside it, steps folded. Where the bench refuses the file, that is told.
pub fn list(alloc: Global, bytes: &[u8], is_traced: bool) -> Result<Told, AllocError> {
    let ran = run_bench(alloc, bytes, is_traced)?;
    if ran.status != 0 {
        return Ok(ran);
    }
    let text = page(alloc, bytes, ran.text.as_str())?;
    Ok(Told { status: 0, text })
}

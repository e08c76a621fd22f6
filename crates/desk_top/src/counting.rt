ghost use Rattle.std.specs.Prelude.{length, ◌≤◌};

use crate::bounds::bounds;
use crate::running::run_bench;
use crate::told::Told;
use bench_top::read_file;
use desk_reports::{report_lines, stats_page, tally, waits_in};
use mcal_base::Directive;
use std::alloc::{AllocError, Global};

/// The most bytes that a bench file may have.
const LIMIT: usize = 1_048_576;

/// The counts of a script's report, where frames have these bounds.
fn page(
    alloc: Global,
    script: &[Directive],
    bounds: &[u32],
    report: &str,
) -> Result<String, AllocError> {
    let report = report_lines(alloc, report)?;
    let tallies = tally(alloc, script, bounds, &report)?;
    let waits = waits_in(alloc, script, &report)?;
    stats_page(alloc, &tallies, &waits)
}

/// The counts of the report of a file's run.
fn counted(alloc: Global, bytes: &[u8], report: &str) -> Result<String, AllocError>
    requires { length bytes.now ≤ 1048576 }
{
    let Ok(read) = read_file(alloc, bytes) else {
        return Err(AllocError);
    };
    let bounds = bounds(alloc, &read.config, &read.script)?;
    page(alloc, &read.script, &bounds, report)
}

/// The counts of a file's run: frames with their steps and windows beside the bounds, what was held, and waits. Where the
/// bench refuses the file, that is told.
pub fn stats(alloc: Global, bytes: &[u8]) -> Result<Told, AllocError> {
    let ran = run_bench(alloc, bytes, true)?;
    if ran.status != 0 || LIMIT < bytes.len() {
        return Ok(ran);
    }
    let text = counted(alloc, bytes, ran.text.as_str())?;
    Ok(Told { status: 0, text })
}

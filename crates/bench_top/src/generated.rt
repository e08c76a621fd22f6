ghost use Rattle.std.specs.Prelude.{◌≡◌, ◌++◌, [], false, IfOk, List, string_bytes};
ghost use Rattle.bench_generator.specs.Generated as spec;
ghost use Rattle.bench_report.specs.Report.{end_of, report_lines};
ghost use Rattle.bench_report.specs.Rows.{Row};

use bench_generator::first_line;
use mcal_base::Directive;
use report_end::end_line;
use run_model::Journal;
use std::alloc::{AllocError, Global};

/// The two lines that tell of a generated bench: what it was generated from, and the last line of its report.
pub(crate) fn generated_text(
    alloc: Global,
    seed: u32,
    count: u32,
    script: &[Directive],
    journal: &Journal,
) -> Result<String, AllocError>
    ensures { (shows : List (List Row)) → IfOk result (λ text. string_bytes text ≡ spec.first_line seed count ++ end_of (report_lines false [] shows script.now journal.now.entries)) }
{
    let mut text = first_line(alloc, seed, count)?;
    let last = end_line(alloc, script, journal)?;
    text.push_str(last.as_str())?;
    Ok(text)
}

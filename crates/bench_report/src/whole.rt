ghost use Rattle.std.specs.Prelude.{ℕ, List, ◌≡◌, ◌<◌, ◌≤◌, [], Err, IfOk, length, map, string_bytes, string_len};
ghost use Rattle.bench_report.specs.Limit.{most_bytes};
ghost use Rattle.bench_report.specs.Report as spec;
ghost use Rattle.bench_report.specs.Rows.{Row};
ghost use Rattle.bench_report.specs.Shown.{kept, texts_of};
ghost use Rattle.bench_report.specs.Pages as pages;
ghost use Rattle.run_model.specs.Packing.{entries_in};

use crate::course::ReportWriter;
use crate::limit::ReportEnd;
use crate::shown::ShownTexts;
use mcal_base::Directive;
use run_model::{Journal, JournalLists};
use std::alloc::{AllocError, Global};

/// Writes the lines of a script, directive by directive.
fn written<'a>(
    alloc: Global,
    script: &[Directive],
    lists: &JournalLists<'_>,
    shows: &'a [String],
    traced: bool,
) -> Result<ReportWriter<'a>, AllocError>
    ensures { IfOk result (λ c. c ≡ pages.script_put traced (pages.beginning (map string_bytes shows.now)) script.now (entries_in lists.now lists.now.items.now)) }
{
    let mut course = ReportWriter::new(alloc, shows);
    let mut rest = lists.items;
    for directive in script {
        rest = course.chapter(traced, directive, lists, rest)?;
    }
    Ok(course)
}

/// The report of a script whose run left a journal and showed these texts, with a line for each step where it is traced.
pub fn report(
    alloc: Global,
    script: &[Directive],
    journal: &Journal,
    shown: &ShownTexts,
    traced: bool,
) -> Result<String, ReportEnd>
    ensures text { (shows : List (List Row)) → shown.now ≡ kept (texts_of journal.now.entries shows) →
        IfOk result (λ text. string_bytes text ≡ spec.report traced script.now journal.now.entries shows) }
    ensures within { IfOk result (λ text. string_len text ≤ most_bytes) }
    // All items are those of the script, so that all that was shown is printed.
    ensures too_long { (shows : List (List Row)) → shown.now ≡ kept (texts_of journal.now.entries shows) → spec.left_over script.now journal.now.entries ≡ [] →
        result ≡ Err ReportEnd.TooLong → most_bytes < length (spec.report traced script.now journal.now.entries shows) }
{
    let Some(shows) = shown.texts() else {
        return Err(ReportEnd::TooLong);
    };
    match written(alloc, script, &journal.lists(), shows, traced) {
        Ok(course) => course.end(),
        Err(_) => Err(ReportEnd::NoMemory),
    }
}

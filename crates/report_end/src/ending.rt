ghost use Rattle.std.specs.Prelude.{List, ◌≡◌, IfOk, [], false, string_bytes};
ghost use Rattle.run_model.specs.Packing.{entries_in};
ghost use Rattle.bench_report.specs.Report.{end_of, report_lines};
ghost use Rattle.bench_report.specs.Rows.{Row};
ghost use Rattle.report_end.specs.Counts as spec;

use crate::counting::Counting;
use bench_report::Tally;
use mcal_base::Directive;
use run_model::{Journal, JournalLists};
use std::alloc::{AllocError, Global};

/// Counts the lines of a script, directive by directive.
fn counted(
    alloc: Global,
    script: &[Directive],
    lists: &JournalLists<'_>,
) -> Result<Tally, AllocError>
    ensures { IfOk result (λ tally. tally ≡ (spec.script_counted spec.beginning script.now (entries_in lists.now lists.now.items.now)).tally) }
{
    let mut counting = Counting::new(alloc);
    let mut rest = lists.items;
    for directive in script {
        rest = counting.items(directive, lists, rest)?;
    }
    Ok(counting.tally())
}

/// The end line of the report of a script whose run left a journal. What was shown makes no difference to it.
pub fn end_line(
    alloc: Global,
    script: &[Directive],
    journal: &Journal,
) -> Result<String, AllocError>
    ensures { (shows : List (List Row)) → IfOk result (λ text. string_bytes text ≡ end_of (report_lines false [] shows script.now journal.now.entries)) }
{
    let tally = counted(alloc, script, &journal.lists())?;
    format!(in alloc; "{tally}")
}

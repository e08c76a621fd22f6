//! What is printed of a small journal.

ghost use Rattle.std.specs.Prelude.{◌≡◌, true, false, []};
ghost use Rattle.bench_report.specs.Report.{report};
ghost use Rattle.worked_examples.specs.Printed.{small_script, small_journal, small_report, small_trace};

/// The report of a call that returns a number, ticks and a held serving. The trace of it has a line for each step
/// besides.
pub fn report_of_a_small_journal()
    ensures plain { report false small_script small_journal [] ≡ small_report }
    ensures traced { report true small_script small_journal [] ≡ small_trace }
{}

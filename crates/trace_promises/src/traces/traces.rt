//! The traces of journals, which are read.

ghost use Rattle.std.specs.Prelude.{◌≡◌, ◌≤◌, List, [], true, Ok, length, map};
ghost use Rattle.bench_report.specs.Limit.{most_bytes};
ghost use Rattle.bench_report.specs.Numbers.{Each};
ghost use Rattle.bench_report.specs.Report.{report, report_lines};
ghost use Rattle.bench_report.specs.Rows.{Row};
ghost use Rattle.trace_reader.specs.Reading.{read_trace};
ghost use Rattle.trace_reader.specs.Told.{told_line};
ghost use Rattle.trace_promises.specs.traces.Numbers.{RowsFit};

use crate::traces::numbers::{journal_fits, script_fits};
use mcal_base::Directive;
use run_model::Journal;

/// The report of a traced run is read as what its lines tell, whatever its script and its journal: their numbers are those
/// of their types. It is no longer than a report may be, and what was shown has numbers of 32 bits too.
#[tactic(auto, using(crate::proofs::Read::report_is_read))]
pub fn reads_journals(script: &[Directive], journal: &Journal)
    ensures { (shows : List (List Row)) → Each RowsFit shows → length (report true script.now journal.now.entries shows) ≤ most_bytes →
        read_trace (report true script.now journal.now.entries shows) ≡ Ok (map told_line (report_lines true [] shows script.now journal.now.entries)) }
{
    script_fits(script);
    journal_fits(journal);
}

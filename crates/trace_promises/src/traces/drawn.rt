//! The traces of legal runs, which are read and drawn.

ghost use Rattle.std.specs.Prelude.{◌≤◌, List, true, length};
ghost use Rattle.chip_model.specs.Chip.{Chip};
ghost use Rattle.script_runner.specs.Scripts.{IsRun, IsScript};
ghost use Rattle.bench_report.specs.Limit.{most_bytes};
ghost use Rattle.bench_report.specs.Numbers.{Each};
ghost use Rattle.bench_report.specs.Report.{report};
ghost use Rattle.bench_report.specs.Rows.{Row};
ghost use Rattle.trace_promises.specs.traces.Drawn.{IsDrawn};
ghost use Rattle.trace_promises.specs.traces.Lines.{HasLines};
ghost use Rattle.trace_promises.specs.traces.Numbers.{RowsFit};

use crate::traces::numbers::{few_steps, journal_fits, script_fits};
use mcal_base::Directive;
use run_model::Journal;
use script_runner::Caller;

/// The trace of each legal run of a script over a driver is read as what its lines tell, and drawn, where its report is
/// no longer than it may be: each line belongs to a directive, frames nest, steps are made by the topmost, and what ends
/// is what began. The lines that the driver uses are those of a chip, and what was shown has numbers of 32 bits.
pub fn draws_runs<M: Caller>(script: &[Directive], journal: &Journal)
    ensures { (driver : M) (first : Chip) (shows : List (List Row)) → HasLines (M.spec driver).setting → IsScript script.now → IsRun (M.spec driver).setting first (M.call_of driver) script.now journal.now.entries
        → Each RowsFit shows → length (report true script.now journal.now.entries shows) ≤ most_bytes → IsDrawn script.now journal.now.entries shows }
{
    script_fits(script);
    journal_fits(journal);
    few_steps(journal);
}

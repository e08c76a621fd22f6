ghost use Rattle.std.specs.Prelude.{◌≡◌, ℕ, List};
ghost use Rattle.bench_top.specs.Calls.{Call};
ghost use Rattle.bench_top.specs.Contract.{KeepsContract};
ghost use Rattle.bench_top.specs.declared.words.Form.TheVariants.{Audit};
ghost use Rattle.trace_promises.specs.audits.Passed.{AuditsTrace, IsGiven, IsPassedExactly, PassesTrace, PrintsTrace};

use crate::traces::journal_fits;
use run_model::Journal;

/// What a call of `bench` with `run --trace` has printed with status 0 is passed: a call with `audit` that is given the bench
/// file, the mark of a report and that text, with as many serial devices as the first had before its run, ends with status 0
/// and says how many lines the text has, where no fault is met, memory is found, and the input is no longer than it may be.
pub fn printed_traces_pass(journal: &Journal)
    ensures { (run audit : Call) (bench text : List ℕ) → KeepsContract run → KeepsContract audit → run.outcome.journal.entries ≡ journal.now.entries →
        PrintsTrace run bench text → AuditsTrace run audit bench text → PassesTrace audit text }
{
    journal_fits(journal);
}

/// A call of `bench` with `audit` that meets no fault and finds memory ends with status 0 exactly where the report in its
/// input is the trace of a legal run of all modules that follows the script before it, with what that run shows; and that
/// is then the run of one journal, which keeps all that is promised of runs.
pub fn passed_reports_are_of_runs()
    ensures { (call : Call) (bytes : List ℕ) → KeepsContract call → IsGiven call Audit bytes → IsPassedExactly call bytes }
{}

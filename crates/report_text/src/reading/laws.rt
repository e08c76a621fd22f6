ghost use Rattle.bench_report.specs.Showing.{Showing};
ghost use Rattle.mcal_base.specs.declared.directive.Request.{Request};
ghost use Rattle.run_model.specs.Moment.{Setting};
ghost use Rattle.report_text.specs.reading.Audits.{AnswersOnce, PassesRuns, RunsPass};
ghost use Rattle.report_text.specs.reading.Reading.{ReadsBack, ReadsOnce, ReadsReports};
ghost use Rattle.report_text.specs.reading.Steps.{PrintsThese};

/// What reports are of: machines, calls and what is shown. Contracts alone name it.
pub trait Run {
    /// A service with its arguments.
    type Call: Drop;

    /// The state of the machine.
    type State;

    /// What runs are over.
    ghost setting: { Setting Self.State Self.Call };

    /// The call that a request asks for.
    ghost call_of: { Request → Self.Call };

    /// What a state shows.
    ghost showing: { Showing Self.State };
}

/// The items of a directive are read back from what their lines tell, a block has those of one list alone, and the journal of
/// a run is read from its traced report.
pub fn reports_are_read<R: Run>()
    ensures back { ReadsBack R.setting R.call_of R.showing }
    ensures once { ReadsOnce R.setting R.call_of R.showing }
    ensures reports { ReadsReports R.setting R.call_of R.showing }
    ensures steps { PrintsThese R.setting R.call_of }
{}

/// The audit of a report answers one verdict; what it passes is the report of a run, whose journal it tells, and it passes the
/// report of each run.
pub fn reports_are_judged<R: Run>()
    ensures answers { AnswersOnce R.setting R.call_of R.showing }
    ensures passes { PassesRuns R.setting R.call_of R.showing }
    ensures runs { RunsPass R.setting R.call_of R.showing }
{}

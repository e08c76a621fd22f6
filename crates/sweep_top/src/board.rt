ghost use Rattle.std.specs.Prelude.{◌≡◌, ◌<◌, ℕ, List, [], Some, false, length, true, IfErr, IfOk, string_bytes, vec_len};
ghost use Rattle.bench_report.specs.Limit.{most_bytes};
ghost use Rattle.bench_report.specs.Report as spec;
ghost use Rattle.bench_report.specs.Rows.{Row};
ghost use Rattle.bench_report.specs.Shown.{kept, texts_of};
ghost use Rattle.config_facts.specs.Valid.{IsValid};
ghost use Rattle.mcal_config.specs.Whole.{record_of};
ghost use Rattle.script_runner.specs.Scripts.{IsScript};
ghost use Rattle.sweep_top.specs.Reported.{IsAtLimit, IsReported, IsReportedOn};
ghost use Rattle.sweep_trials.specs.Stops.{Unless};
ghost use Rattle.sweep_trials.specs.declared.stop.Stop.TheVariants as stops;

use crate::may_run::may_run;
use crate::seeing::{moves_named, steps_among, waiting_among};
use bench_report::{ReportEnd, report};
use bench_top::run::{Ran, run};
use mcal_base::{Config, Directive};
use mcal_config::read_config;
use serial_devices::SerialDevice;
use std::alloc::Global;
use sweep_trials::{RunSeen, Runs, Stop};

/// Runs scripts over the modules of a configuration, without devices.
#[derive(Clone, Copy)]
pub struct Board<'a> {
    /// The text of the configuration.
    pub configuration: &'a [u8],
}

/// The configuration of a text that was read before: it has no fault, so that memory is all that may be wanting.
fn configuration(alloc: Global, text: &[u8]) -> Result<Config, Stop>
    ensures valid { IfOk result IsValid }
    ensures read { IfOk result (λ config. record_of text.now ≡ Some config) }
    ensures memory { IfErr result (λ stop. stop ≡ stops.NoMemory) }
{
    match read_config(alloc, text) {
        Ok(config) => Ok(config),
        Err(_) => Err(Stop::NoMemory),
    }
}

/// The report of a run.
fn told(alloc: Global, script: &[Directive], ran: &Ran) -> Result<String, Stop>
    ensures text { (shows : List (List Row)) → ran.now.shown ≡ kept (texts_of ran.now.journal.entries shows) → IfOk result (λ text. string_bytes text ≡ spec.report false script.now ran.now.journal.entries shows) }
    ensures stopped { (shows : List (List Row)) → ran.now.shown ≡ kept (texts_of ran.now.journal.entries shows) → spec.left_over script.now ran.now.journal.entries ≡ [] →
        IfErr result (Unless (λ stop. (stop ≡ stops.TooLongReport) × (most_bytes < length (spec.report false script.now ran.now.journal.entries shows)))) }
{
    match report(alloc, script, &ran.journal, &ran.shown, false) {
        Ok(text) => Ok(text),
        Err(ReportEnd::TooLong) => Err(Stop::TooLongReport),
        Err(ReportEnd::NoMemory) => Err(Stop::NoMemory),
    }
}

/// Runs a script from power on over a configuration.
#[tactic(auto, using(bench_top::proofs::Scripts::may_ask))]
fn run_on(alloc: Global, config: Config, script: &[Directive], named: bool) -> Result<RunSeen, Stop>
    requires valid { IsValid config }
    requires script { IsScript script.now }
    ensures seen { IfOk result (λ seen. IsReportedOn config script.now seen) }
    ensures named { named ≡ true → IfOk result (λ seen. vec_len seen.moves ≡ vec_len seen.steps) }
    ensures stopped { (text : List ℕ) → record_of text ≡ Some config → IfErr result (Unless (IsAtLimit text script.now)) }
{
    let mut rack: Vec<Box<dyn SerialDevice>> = Vec::new(alloc);
    let Ok(ran) = run(alloc, config, script, &mut rack) else {
        return Err(Stop::NoMemory);
    };
    if ran.too_long {
        return Err(Stop::TooManySteps);
    }
    if ran.lost {
        return Err(Stop::NoMemory);
    }
    let report = told(alloc, script, &ran)?;
    let lists = ran.journal.lists();
    let moves = moves_named(alloc, &lists, named)?;
    let steps = steps_among(alloc, &lists)?;
    let waiting = waiting_among(alloc, &lists)?;
    Ok(RunSeen {
        steps,
        moves,
        waiting,
        report,
    })
}

impl Runs for Board<'_> {
    ghost is_seen = { λ board script seen. IsReported board.configuration.now script seen };

    ghost at_limit = { λ board script stop. IsAtLimit board.configuration.now script stop };

    fn run(&self, alloc: Global, script: &[Directive], named: bool) -> Result<RunSeen, Stop> {
        let text = self.configuration;
        if !may_run(script) {
            return Err(Stop::TooManyDirectives);
        }
        let config = configuration(alloc, text)?;
        run_on(alloc, config, script, named)
    }
}

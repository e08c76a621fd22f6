ghost use Rattle.std.specs.Prelude.{◌≡◌, List, true, IfErr, IfOk, vec_len};
ghost use Rattle.mcal_base.specs.declared.directive.Directive as records;
ghost use Rattle.sweep_trials.specs.Stops.{Unless};
ghost use Rattle.sweep_trials.specs.declared.seen.RunSeen as seen_records;
ghost use Rattle.sweep_trials.specs.declared.stop.Stop as stop_records;

use crate::stop::Stop;
use mcal_base::{Directive, Notice};
use std::alloc::Global;

/// A step of a run.
#[derive(Clone, Copy)]
pub struct StepSeen {
    /// The line of its directive.
    pub line: u32,
    /// The notice that it gives, if it gives one.
    pub notice: Option<Notice>,
}

/// What is seen of a run.
#[derive(Drop)]
pub struct RunSeen {
    /// Its steps, in their order.
    pub steps: Vec<StepSeen>,
    /// The moves of these steps, as a trace prints them; none where they were not asked for.
    pub moves: Vec<String>,
    /// The lines of the directives that were held, and wait: what is masked, of too low a level or must not nest may
    /// begin later.
    pub waiting: Vec<u32>,
    /// Its report.
    pub report: String,
}

/// What runs a script from power on.
pub trait Runs {
    /// Whether this is what is seen of a script's run.
    ghost is_seen: { Self → List records.Directive → seen_records.RunSeen → Type 0 };

    /// Whether a script's run stops so, at a limit of its own.
    ghost at_limit: { Self → List records.Directive → stop_records.Stop → Type 0 };

    /// Runs a script to its end. The moves of its steps are kept where they are to be named.
    fn run(&self, alloc: Global, script: &[Directive], named: bool) -> Result<RunSeen, Stop>
        ensures seen { IfOk result (λ seen. is_seen self.now script.now seen) }
        ensures named { named ≡ true → IfOk result (λ seen. vec_len seen.moves ≡ vec_len seen.steps) }
        ensures stopped { IfErr result (Unless (at_limit self.now script.now)) };
}

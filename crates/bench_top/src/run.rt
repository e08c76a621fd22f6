ghost use Rattle.std.specs.Prelude.{◌≡◌, ◌<◌, IfOk, OnOk, Some, length, map, slice_get, vec_len, MatchResult};
ghost use Rattle.std.specs.Bool.{OnFalse, OnTrue};
ghost use Rattle.config_facts.specs.Valid.{IsValid};
ghost use Rattle.script_runner.specs.Scripts.{IsScript, AllOffered};
ghost use Rattle.bench_report.specs.Shown.{kept};
ghost use Rattle.run_model.specs.Exchanges.{AreToldBy};
ghost use Rattle.mcal_system.specs.Runs.{AddsItems, IsSameRun, SystemRun};
ghost use Rattle.mcal_system.specs.Setting.{has_service};
ghost use Rattle.bench_top.specs.Runs as spec;
ghost use Rattle.bench_top.specs.Runs.{IsWholeRun, IsStoppedRun, IsShown, IsKept};

use bench_report::ShownTexts;
use mcal_base::{Config, Directive, NoMemory, Order, Shown};
use mcal_system::System;
use run_model::Journal;
use serial_devices::SerialDevice;
use shown_rows::shown_text;
use std::alloc::{AllocError, Global};

/// How a run ended.
#[derive(Drop)]
pub struct Ran {
    /// All that was done.
    pub journal: Journal,
    /// What was shown.
    pub shown: ShownTexts,
    /// Whether the run stopped, since one more step than the most would have been taken.
    pub too_long: bool,
    /// Whether memory was not found for what was shown.
    pub lost: bool,
}

/// The directive at a place of a script.
fn directive_at(script: &[Directive], at: usize) -> &Directive
    requires { at < length script.now }
    ensures { slice_get script.now at ≡ Some result.now }
{
    &script[at]
}

/// What an order shows, where it is a show.
fn shown_by(order: &Order) -> Option<Shown>
    ensures { result ≡ spec.shown_by order.now }
{
    match order {
        Order::Show(what) => Some(*what),
        _ => None,
    }
}

/// Keeps what a directive has shown that was obeyed just now.
fn keep_shown(
    alloc: Global,
    system: &System<'_>,
    directive: &Directive,
    shown: &mut ShownTexts,
) -> Result<(), AllocError>
    requires valid { IsValid system.now.config }
    ensures { (before : SystemRun) → IsSameRun before system.now → AddsItems directive.now before system.now → IsKept before shown.old → OnOk result (IsKept system.now shown.new) }
{
    let Some(what) = shown_by(&directive.order) else {
        return Ok(());
    };
    let Some(rest) = system.at_rest() else {
        return Ok(());
    };
    if shown.is_full() {
        return Ok(());
    }
    shown.push(shown_text(alloc, &rest, directive.line, what)?)
}

/// Runs a script over all modules of a configuration: to its end, or until one more step than the most would be taken.
/// Memory that is wanting for what is shown doesn't stop the run, for the journal is to tell of all that the devices were sent.
pub fn run(
    alloc: Global,
    config: Config,
    script: &[Directive],
    rack: &mut Vec<Box<dyn SerialDevice>>,
) -> Result<Ran, NoMemory>
    requires valid { IsValid config }
    requires script { IsScript script.now }
    requires offered { AllOffered has_service script.now }
    ensures whole { IfOk result (λ ran. OnFalse ran.too_long (IsWholeRun (vec_len rack.old) config script.now ran.journal.entries)) }
    ensures stopped { IfOk result (λ ran. OnTrue ran.too_long (IsStoppedRun (vec_len rack.old) config script.now ran.journal.entries)) }
    // What was shown is kept, as far as a report may have it.
    ensures shown { IfOk result (λ ran. OnFalse ran.too_long (OnFalse ran.lost (IsShown (vec_len rack.old) config script.now ran.journal.entries ran.shown))) }
    // The devices were called by the run's steps, and where no run began they were not.
    ensures told { MatchResult result
        (λ ran. AreToldBy (vec_len rack.old) ran.journal.entries (map (λ d. line d) rack.old.items) (map (λ d. line d) rack.new.items))
        (λ e. map (λ d. line d) rack.new.items ≡ map (λ d. line d) rack.old.items) }
{
    let mut system = System::new(alloc, config, script, rack.len())?;
    let mut shown = ShownTexts::new(alloc);
    let mut lost = false;
    for at in 0..script.len() {
        let directive = directive_at(script, at);
        if system.obey(directive, rack).is_err() {
            return Ok(Ran {
                journal: system.into_journal(),
                shown,
                too_long: true,
                lost,
            });
        }
        if !lost && keep_shown(alloc, &system, directive, &mut shown).is_err() {
            lost = true;
        }
    }
    Ok(Ran {
        journal: system.into_journal(),
        shown,
        too_long: false,
        lost,
    })
}

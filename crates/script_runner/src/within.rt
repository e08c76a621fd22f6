ghost use Rattle.std.specs.Prelude.{◌≡◌, ◌<◌, ◌≤◌, ◌+◌, ◌*◌, min, length, IfOk, Some, slice_get, false, vec_len};
ghost use Rattle.std.specs.Bool.{OnFalse, OnTrue};
ghost use Rattle.mcal_base.specs.Layout.{WithinLimits};
ghost use Rattle.run_model.specs.Stops.{steps_in};
ghost use Rattle.script_runner.specs.Runs.{IsSameRun, room_for};
ghost use Rattle.script_runner.specs.Scripts.{IsScript, IsRun, IsStopped, AllOffered, chip_for, script_bound};

use crate::caller::Caller;
use crate::engine::Engine;
use mcal_base::{Config, Directive, NoMemory};
use run_model::Journal;
use serial_devices::SerialDevice;
use std::alloc::Global;

/// How a run ended.
#[derive(Drop)]
pub struct Ran {
    /// All that was done.
    pub journal: Journal,
    /// Whether the run stopped, since one more step than the most would have been taken.
    pub too_long: bool,
}

/// The directive at a place of a script.
fn directive_at(script: &[Directive], at: usize) -> &Directive
    requires { at < length script.now }
    ensures { slice_get script.now at ≡ Some result.now }
{
    &script[at]
}

/// Obeys all directives, and tells whether one more step than the most would have been taken.
fn obey_all<M: Caller>(
    engine: &mut Engine<M>,
    script: &[Directive],
    rack: &mut Vec<Box<dyn SerialDevice>>,
) -> bool
    requires begun { (engine.old.obeyed ≡ 0) × (engine.old.too_long ≡ false) }
    requires script { script.now ≡ engine.old.script }
    requires hung { vec_len rack.old ≡ engine.old.chip.devices }
    ensures same { IsSameRun engine.old engine.new }
    ensures stopped { engine.new.too_long ≡ result }
    ensures all { OnFalse result (engine.new.obeyed ≡ length engine.new.script) }
{
    for at in 0..script.len() {
        if engine.obey(directive_at(script, at), rack).is_err() {
            return true;
        }
    }
    false
}

/// Runs a script over a driver without serial devices, from power on, in at most so many steps. All memory is taken before the first
/// directive, for no more steps than the limit, and for no more than the script's frames can take.
pub fn run_within<M: Caller>(
    alloc: Global,
    driver: M,
    config: Config,
    script: &[Directive],
    limit: u32,
) -> Result<Ran, NoMemory>
    requires fits { (M.spec driver).fits }
    requires config { WithinLimits config }
    requires wired { (M.spec driver).wired (chip_for 0 config script.now) }
    requires script { IsScript script.now }
    requires offered { AllOffered (M.has_service driver) script.now }
    requires limit { limit < 4294967295 }
    ensures whole { let setting = (M.spec driver).setting in
        let first = chip_for 0 config script.now in
        IfOk result (λ ran. OnFalse ran.too_long (IsRun setting first (M.call_of driver) script.now ran.journal.entries)) }
    ensures few { IfOk result (λ ran. steps_in ran.journal.entries ≤ limit) }
    ensures stopped { let setting = (M.spec driver).setting in
        let first = chip_for 0 config script.now in let calls = M.call_of driver in
        IfOk result (λ ran. OnTrue ran.too_long (IsStopped setting first calls limit script.now ran.journal.entries)) }
    // The room is for no more steps than the limit, and than those frames may take, which are at most 66,656 each.
    ensures room { let bound = script_bound (M.spec driver).setting (M.call_of driver) script.now in
        IfOk result (λ ran. ran.journal.room ≡ room_for (min limit bound) (length script.now)) }
    ensures small { IfOk result (λ ran. ran.journal.room ≤ 99987 * length script.now) }
    // The limit is not met where the bounds of all frames that may begin are within it.
    ensures within { let bound = script_bound (M.spec driver).setting (M.call_of driver) script.now in
        IfOk result (λ ran. OnTrue ran.too_long (limit < bound)) }
{
    let mut engine = Engine::new(alloc, driver, config, script, limit, 0)?;
    let mut none = Vec::new(alloc);
    let too_long = obey_all(&mut engine, script, &mut none);
    Ok(Ran {
        journal: engine.into_journal(),
        too_long,
    })
}

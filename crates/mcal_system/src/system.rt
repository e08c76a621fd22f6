ghost use Rattle.std.specs.Prelude.{◌≡◌, ◌<◌, ◌≤◌, ◌+◌, [], length, map, vec_len, take, true, false, IfOk, OnOk, OnErr, MatchOption, Some, slice_get};
ghost use Rattle.std.specs.Option.{IfSome};
ghost use Rattle.std.specs.Bool.{OnFalse, OnTrue};
ghost use Rattle.config_facts.specs.Valid.{IsValid};
ghost use Rattle.run_model.specs.Follows.{Follows};
ghost use Rattle.run_model.specs.Legal.{IsLegal};
ghost use Rattle.run_model.specs.Moment.{start_moment};
ghost use Rattle.run_model.specs.Script.{deeds_of};
ghost use Rattle.run_model.specs.Stops.{FollowsToStop, steps_in};
ghost use Rattle.script_runner.specs.Scripts.{IsScript, IsRun, IsStopped, AllOffered, chip_for};
ghost use Rattle.mcal_system.specs.Runs.{most_steps, bound_of, run_start, moment_of, resting, IsSameRun, AddsItems, CallsDevices};
ghost use Rattle.mcal_drivers.specs.Setting.{system_setting, call_of, has_service};

use crate::at_rest::AtRest;
use mcal_base::{Config, Directive, NoMemory};
use mcal_drivers::Drivers;
use run_model::Journal;
use script_runner::{Engine, TooLong};
use serial_devices::SerialDevice;
use std::alloc::Global;
use std::marker::Model;

/// The most steps of a run.
pub const MOST_STEPS: u32 = 1_000_000;

/// A run of a script over all modules of a configuration, from power on. It obeys one directive after another, and
/// keeps the journal. All memory is taken before the first.
#[derive(Drop)]
pub struct System<'s> {
    engine: Engine<'s, Drivers>,
}

impl<'s> Model for System<'s> {
    ghost use Rattle.mcal_system.specs.Runs.{IsOver, SystemRun};

    ghost Value = { SystemRun };

    ghost view = { λ s. record { config = s.engine.config; script = s.engine.script; devices = s.engine.devices; obeyed = s.engine.obeyed; too_long = s.engine.too_long; journal = s.engine.journal } };

    ghost invariant = { λ s. IsOver s.engine };
}

impl<'s> System<'s> {
    /// A run before its first directive.
    pub fn new(
        alloc: Global,
        config: Config,
        script: &'s [Directive],
        devices: usize,
    ) -> Result<System<'s>, NoMemory>
        requires valid { IsValid config }
        requires script { IsScript script.now }
        requires offered { AllOffered has_service script.now }
        ensures { IfOk result (λ run. run ≡ run_start config script.now devices) }
    {
        let drivers = Drivers::new(&config);
        let engine = Engine::new(alloc, drivers, config, script, MOST_STEPS, devices)?;
        Ok(System { engine })
    }

    /// Obeys the next directive of the script, unless one more step than the most would be taken: then the run is over.
    /// It takes no memory. The rack has as many devices as there are in the world.
    pub fn obey(
        &mut self,
        directive: &Directive,
        rack: &mut Vec<Box<dyn SerialDevice>>,
    ) -> Result<(), TooLong>
        requires goes { self.old.too_long ≡ false }
        requires next { slice_get self.old.script self.old.obeyed ≡ Some directive.now }
        requires hung { vec_len rack.old ≡ (moment_of self.old).world.devices }
        ensures same { IsSameRun self.old self.new }
        ensures obeyed { OnOk result ((self.new.too_long ≡ false) × (self.new.obeyed ≡ self.old.obeyed + 1)) }
        ensures stopped { OnErr result ((self.new.too_long ≡ true) × (self.new.obeyed ≡ self.old.obeyed)) }
        ensures adds { OnOk result (AddsItems directive.now self.old self.new) }
        ensures hung { vec_len rack.new ≡ (moment_of self.new).world.devices }
        // Each device is called by the steps that begin a word under its select, once by each, and by nothing else.
        ensures calls { CallsDevices self.old self.new (map (λ d. line d) rack.old.items) (map (λ d. line d) rack.new.items) }
    {
        self.engine.bus();
        let obeyed = self.engine.obey(directive, rack);
        self.engine.bus();
        obeyed
    }

    /// What was done: what the directives so far ask for, and all of it legal.
    pub fn journal(&self) -> &Journal
        ensures journal { result.now ≡ self.now.journal }
        ensures follows { let setting = system_setting self.now.config in
            let start = start_moment setting (chip_for self.now.devices self.now.config self.now.script) in
            let so_far = take self.now.obeyed self.now.script in
            OnFalse self.now.too_long (Follows setting call_of start so_far result.now.entries) }
        ensures stops { let setting = system_setting self.now.config in
            let start = start_moment setting (chip_for self.now.devices self.now.config self.now.script) in
            OnTrue self.now.too_long (FollowsToStop setting call_of start self.now.script result.now.entries) }
        ensures legal { let setting = system_setting self.now.config in
            let start = start_moment setting (chip_for self.now.devices self.now.config self.now.script) in
            IsLegal setting start (deeds_of call_of self.now.script result.now.entries) }
        ensures few { steps_in result.now.entries ≤ most_steps }
    {
        self.engine.journal()
    }

    /// The journal, where no more is obeyed: that of a whole run, or of one that stopped.
    pub fn into_journal(self) -> Journal
        ensures journal { result ≡ self.entry.journal }
        ensures whole { let run = self.entry in let first = chip_for run.devices run.config run.script in
            run.too_long ≡ false → run.obeyed ≡ length run.script →
            IsRun (system_setting run.config) first call_of run.script result.entries }
        ensures stopped { let run = self.entry in let first = chip_for run.devices run.config run.script in
            OnTrue run.too_long (IsStopped (system_setting run.config) first call_of most_steps run.script result.entries) }
        ensures few { steps_in result.entries ≤ most_steps }
        // The limit is met only where the bounds of all frames that may begin pass it.
        ensures within { OnTrue self.entry.too_long (most_steps < bound_of self.entry.config self.entry.script) }
    {
        self.engine.into_journal()
    }

    /// What a show asks of the run, where no frame is under way.
    pub fn at_rest(&self) -> Option<AtRest<'_>>
        ensures is { MatchOption result (0 < length (moment_of self.now).opens) (λ rest. rest ≡ resting self.now) }
        ensures alone { IfSome result (λ _. (moment_of self.now).opens ≡ []) }
    {
        let bus = self.engine.bus();
        if !self.engine.is_at_rest() {
            return None;
        }
        let drivers = self.engine.driver();
        Some(AtRest {
            config: self.engine.config(),
            script: self.engine.script(),
            devices: self.engine.devices(),
            journal: self.engine.journal(),
            bus,
            captures: drivers.captures(),
            converters: drivers.converters(),
            serial: drivers.serial(),
        })
    }
}

ghost use Rattle.std.specs.Prelude.{◌≡◌, ◌<◌, ◌≤◌, ◌+◌, ◌*◌, [], length, map, vec_len, take, true, false, IfOk, OnOk, OnErr, Some, slice_get};
ghost use Rattle.std.specs.Bool.{OnFalse, OnTrue};
ghost use Rattle.mcal_base.specs.Layout.{WithinLimits};
ghost use Rattle.run_model.specs.Follows.{Follows};
ghost use Rattle.run_model.specs.Legal.{IsLegal};
ghost use Rattle.run_model.specs.Moment.{start_moment};
ghost use Rattle.run_model.specs.Script.{deeds_of};
ghost use Rattle.run_model.specs.Stops.{FollowsToStop, steps_in};
ghost use Rattle.script_runner.specs.Runs.{run_start, first_of, IsSameRun, StandsThere, AddsItems, CallsThere, IsAtRest};
ghost use Rattle.script_runner.specs.Scripts.{IsScript, IsRun, IsStopped, AllOffered, chip_for, script_bound};

use crate::caller::Caller;
use crate::obeying::obey_one;
use crate::parts::{RunSetup, RunState};
use crate::sizes::{journal_for, sizes_of};
use crate::steps::TooLong;
use chip_model::Bus;
use mcal_base::{Config, Directive, NoMemory};
use run_model::Journal;
use serial_devices::SerialDevice;
use std::alloc::Global;
use std::marker::Model;
use step_runner::Stack;

/// A run of a script over a driver, from power on. It obeys one directive after another, and keeps the journal. All
/// memory is taken before the first.
#[derive(Drop)]
pub struct Engine<'s, M: Caller> {
    course: RunSetup<'s, M>,
    limit: u32,
    obeyed: usize,
    too_long: bool,
    parts: RunState<M>,
}

impl<'s, M: Caller> Model for Engine<'s, M> {
    ghost use Rattle.script_runner.specs.Runs.{Run};
    ghost use Rattle.script_runner.specs.laws.Going.{IsUnderWay};

    ghost Value = { Run M M.Frame };

    ghost view = { λ e. record { driver = e.course.driver; config = e.course.config; script = e.course.script.now; devices = e.course.devices; limit = e.limit; obeyed = e.obeyed; too_long = e.too_long; journal = e.parts.journal; chip = e.parts.bus; frames = e.parts.stack.frames } };

    ghost invariant = { λ e. IsUnderWay (M.spec e.course.driver) (M.call_of e.course.driver) (M.has_service e.course.driver) e.course.config e.course.script.now e.course.devices e.limit e.course.most e.obeyed e.too_long e.parts.bus e.parts.stack e.parts.journal };
}

impl<'s, M: Caller> Engine<'s, M> {
    /// A run before its first directive, in at most so many steps.
    pub fn new(
        alloc: Global,
        driver: M,
        config: Config,
        script: &'s [Directive],
        limit: u32,
        devices: usize,
    ) -> Result<Engine<'s, M>, NoMemory>
        requires fits { (M.spec driver).fits }
        requires config { WithinLimits config }
        requires wired { (M.spec driver).wired (chip_for devices config script.now) }
        requires script { IsScript script.now }
        requires offered { AllOffered (M.has_service driver) script.now }
        requires limit { limit < 4294967295 }
        ensures begins { let setting = (M.spec driver).setting in
            IfOk result (λ run. run ≡ run_start driver setting (M.call_of driver) config script.now limit devices) }
        // No frame has more than 66,656 steps, and every second step has a wait at most.
        ensures small { IfOk result (λ run. run.journal.room ≤ 99987 * length script.now) }
    {
        let asked = sizes_of(&driver, script);
        let most = u64::from(limit).min(asked.steps) as u32;
        let journal = journal_for(alloc, most, script.len())?;
        let stack = Stack::new(alloc)?;
        let mut bus = Bus::new(alloc, &config, asked.words)?;
        bus.hang(devices);
        Ok(Engine {
            course: RunSetup {
                driver,
                config,
                script,
                devices,
                most,
            },
            limit,
            obeyed: 0,
            too_long: false,
            parts: RunState {
                stack,
                bus,
                journal,
            },
        })
    }

    /// Obeys the next directive of the script, unless one more step than the most would be taken: then the run is over.
    /// It takes no memory.
    pub fn obey(
        &mut self,
        directive: &Directive,
        rack: &mut Vec<Box<dyn SerialDevice>>,
    ) -> Result<(), TooLong>
        requires goes { self.old.too_long ≡ false }
        requires next { slice_get self.old.script self.old.obeyed ≡ Some directive.now }
        requires hung { vec_len rack.old ≡ self.old.chip.devices }
        ensures same { IsSameRun self.old self.new }
        ensures obeyed { OnOk result ((self.new.too_long ≡ false) × (self.new.obeyed ≡ self.old.obeyed + 1)) }
        ensures stopped { OnErr result ((self.new.too_long ≡ true) × (self.new.obeyed ≡ self.old.obeyed)) }
        ensures adds { let calls = M.call_of self.old.driver in
            OnOk result (AddsItems (M.spec self.old.driver) calls directive.now self.old self.new) }
        ensures hung { vec_len rack.new ≡ self.new.chip.devices }
        // Each device is called by the steps that begin a word under its select, once by each, and by nothing else; a
        // `detach` that isn't held drops the last one.
        ensures calls { let calls = M.call_of self.old.driver in
            CallsThere (M.spec self.old.driver) calls self.old self.new
            (map (λ d. line d) rack.old.items) (map (λ d. line d) rack.new.items) }
    {
        match obey_one(&self.course, directive, &mut self.parts, rack) {
            Ok(()) => {
                self.obeyed += 1;
                Ok(())
            }
            Err(TooLong) => {
                self.too_long = true;
                Err(TooLong)
            }
        }
    }

    /// What was done: what the directives so far ask for, and all of it legal.
    pub fn journal(&self) -> &Journal
        ensures journal { result.now ≡ self.now.journal }
        ensures follows { let setting = (M.spec self.now.driver).setting in
            let so_far = take self.now.obeyed self.now.script in let start = start_moment setting (first_of self.now) in
            OnFalse self.now.too_long (Follows setting (M.call_of self.now.driver) start so_far result.now.entries) }
        ensures stops { let setting = (M.spec self.now.driver).setting in
            let script = self.now.script in let start = start_moment setting (first_of self.now) in
            OnTrue self.now.too_long (FollowsToStop setting (M.call_of self.now.driver)
            start script result.now.entries) }
        ensures legal { let setting = (M.spec self.now.driver).setting in
            let deeds = deeds_of (M.call_of self.now.driver) self.now.script result.now.entries in
            IsLegal setting (start_moment setting (first_of self.now)) deeds }
        ensures few { steps_in result.now.entries ≤ self.now.limit }
    {
        &self.parts.journal
    }

    /// The journal, where no more is obeyed: that of a whole run, or of one that stopped.
    pub fn into_journal(self) -> Journal
        ensures journal { result ≡ self.entry.journal }
        ensures whole { let run = self.entry in let setting = (M.spec run.driver).setting in
            run.too_long ≡ false → run.obeyed ≡ length run.script →
            IsRun setting (first_of run) (M.call_of run.driver) run.script result.entries }
        ensures stopped { let run = self.entry in let setting = (M.spec run.driver).setting in
            let calls = M.call_of run.driver in
            OnTrue run.too_long (IsStopped setting (first_of run) calls run.limit run.script result.entries) }
        ensures few { steps_in result.entries ≤ self.entry.limit }
        // The limit is met only where the bounds of all frames that may begin pass it.
        ensures within { let run = self.entry in let setting = (M.spec run.driver).setting in
            OnTrue run.too_long (run.limit < script_bound setting (M.call_of run.driver) run.script) }
    {
        let Engine { parts, .. } = self;
        let RunState { journal, .. } = parts;
        journal
    }

    /// The chip.
    pub fn bus(&self) -> &Bus
        ensures chip { result.now ≡ self.now.chip }
        ensures stands { StandsThere (M.spec self.now.driver) (M.call_of self.now.driver) self.now }
    {
        &self.parts.bus
    }

    /// The driver.
    pub fn driver(&self) -> &M
        ensures driver { result.now ≡ self.now.driver }
        ensures fits { (M.spec self.now.driver).fits }
    {
        &self.course.driver
    }

    /// Whether no frame is under way.
    pub fn is_at_rest(&self) -> bool
        ensures frames { OnFalse result (0 < length self.now.frames) }
        ensures rest { OnTrue result (self.now.frames ≡ []) }
        ensures quiet { OnTrue result (IsAtRest (M.spec self.now.driver) (M.call_of self.now.driver) self.now) }
    {
        self.parts.stack.depth() == 0
    }

    /// The configuration.
    pub fn config(&self) -> &Config
        ensures { result.now ≡ self.now.config }
    {
        &self.course.config
    }

    /// The script.
    pub fn script(&self) -> &'s [Directive]
        ensures { result.now ≡ self.now.script }
    {
        self.course.script
    }

    /// How many devices hang on the wires of the serial units.
    pub fn devices(&self) -> usize
        ensures { result ≡ self.now.devices }
    {
        self.course.devices
    }
}

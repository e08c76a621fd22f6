ghost use Rattle.std.specs.Prelude.{◌≡◌, ◌<◌, ◌^◌, ℕ, not, Some, is_some};
ghost use Rattle.mcal_base.specs.det_errors.Reports as errors;
ghost use Rattle.run_model.specs.Machine.{Acts, outcome};
ghost use Rattle.run_model.specs.World.{World};
ghost use Rattle.module_machines.specs.wdg.Checks as checks;
ghost use Rattle.module_machines.specs.wdg.Machine as spec;

use audit_base::{Told, named, nothing};
use mcal_base::det_errors::{Facts, first_error};
use mcal_base::{Answer, AnswerName, ErrorName, WdgMode};
use module_machines::wdg::{Call, WdgTable};
use std::marker::Model;

/// The watchdog's machine under a configuration. Times are in ticks of the oscillator.
#[derive(Drop)]
pub struct Watchdog {
    driver: WdgTable,
    mode: Option<WdgMode>,
    timeout: u32,
    deadline: Option<u64>,
}

impl Model for Watchdog {
    ghost use Rattle.audit_clock.specs.WatchdogKept.{WatchdogKept};

    ghost Value = { WatchdogKept };

    ghost view = { λ t. record { driver = t.driver; state = record { mode = t.mode; timeout = t.timeout; deadline = t.deadline } } };
}

/// When the watchdog's time ends that begins now, where one runs in the mode.
fn deadline(osc: u64, timeout: u32, mode: WdgMode) -> Option<u64>
    requires { osc < 2 ^ 63 }
    ensures { result ≡ spec.deadline_by osc timeout (spec.unit_of mode) }
{
    match mode {
        WdgMode::Off => None,
        WdgMode::Slow => Some(osc + (u64::from(timeout) * 16).max(1)),
        WdgMode::Fast => Some(osc + u64::from(timeout).max(1)),
    }
}

/// Whether the errors of a call hold, in their order: the module is uninitialised, the mode is none, the timeout is above
/// the largest.
fn facts(driver: &WdgTable, call: Call, off: bool) -> Facts
    ensures { result.holds ≡ checks.facts_by driver.now call off }
{
    let holds = match call {
        Call::Init => [false; 6],
        Call::SetMode(mode) => [off, mode.is_none(), false, false, false, false],
        Call::SetTriggerCondition(timeout) => [
            off,
            u32::from(driver.max_ticks) < timeout,
            false,
            false,
            false,
            false,
        ],
    };
    Facts { holds }
}

/// The answer of a call with an error.
fn refused(call: Call) -> Answer
    ensures { result ≡ checks.answer_refused call }
{
    match call {
        Call::SetMode(_) => named(AnswerName::ENotOk),
        Call::Init | Call::SetTriggerCondition(_) => nothing(),
    }
}

impl Watchdog {
    /// After power on.
    pub fn new(driver: WdgTable) -> Watchdog
        ensures { result ≡ record { driver = driver; state = spec.first_state } }
    {
        Watchdog {
            driver,
            mode: None,
            timeout: 0,
            deadline: None,
        }
    }

    /// What is configured.
    pub fn table(&self) -> &WdgTable
        ensures { result.now ≡ self.now.driver }
    {
        &self.driver
    }

    /// The watchdog's time begins anew, in a mode and with a timeout.
    fn start(&mut self, mode: WdgMode, timeout: u32, osc: u64)
        requires { osc < 2 ^ 63 }
        ensures state { (w : World) → w.osc ≡ osc → self.new.state ≡ spec.started w mode timeout }
        ensures driver { self.new.driver ≡ self.old.driver }
    {
        self.mode = Some(mode);
        self.timeout = timeout;
        self.deadline = deadline(osc, timeout, mode);
    }

    /// The mode is set, where it may be.
    fn set_mode(&mut self, mode: WdgMode, osc: u64) -> Told
        requires { osc < 2 ^ 63 }
        ensures is { (w : World) → w.osc ≡ osc → outcome self.new.state result ≡ spec.work self.old.driver w self.old.state (Call.SetMode (Some mode)) }
        ensures driver { self.new.driver ≡ self.old.driver }
    {
        if self.driver.allows(mode) {
            let timeout = self.timeout;
            self.start(mode, timeout, osc);
            Told::with_answer(named(AnswerName::EOk))
        } else {
            Told::with_answer(named(AnswerName::ENotOk))
        }
    }

    /// What a call without an error does.
    fn work(&mut self, call: Call, osc: u64) -> Told
        requires { osc < 2 ^ 63 }
        ensures is { (w : World) → w.osc ≡ osc → outcome self.new.state result ≡ spec.work self.old.driver w self.old.state call }
        ensures driver { self.new.driver ≡ self.old.driver }
    {
        match call {
            Call::Init => {
                let initial = self.driver.initial;
                self.start(initial.mode, u32::from(initial.timeout), osc);
            }
            Call::SetMode(None) => {}
            Call::SetMode(Some(mode)) => return self.set_mode(mode, osc),
            Call::SetTriggerCondition(timeout) => {
                if let Some(mode) = self.mode {
                    self.start(mode, timeout, osc);
                }
            }
        }
        Told::nothing()
    }

    fn is_off(&self) -> bool
        ensures { result ≡ not (is_some self.now.state.mode) }
    {
        self.mode.is_none()
    }

    /// The first error of a call that holds.
    fn error(&self, call: Call) -> Option<ErrorName>
        ensures { result ≡ checks.error_by self.now.driver call (not (is_some self.now.state.mode)) }
    {
        let facts = facts(&self.driver, call, self.is_off());
        first_error(call.service(), &facts)
    }

    /// A call acts.
    pub fn act(&mut self, call: Call, osc: u64) -> Told
        requires { osc < 2 ^ 63 }
        ensures is { (w : World) (committed : ℕ → ℕ) → w.osc ≡ osc → Some (outcome self.new.state result) ≡ spec.happens self.old.driver w self.old.state (Acts call committed) }
        ensures driver { self.new.driver ≡ self.old.driver }
    {
        match self.error(call) {
            Some(error) => Told::with_error(refused(call), error),
            None => self.work(call, osc),
        }
    }

    /// The ticks of the oscillator that are left until the watchdog's time ends, where one runs.
    pub fn expires(&self, osc: u64) -> Option<u64>
        ensures { (w : World) → w.osc ≡ osc → result ≡ spec.expires w self.now.state }
    {
        match self.deadline {
            Some(deadline) => Some(deadline.saturating_sub(osc)),
            None => None,
        }
    }

    /// Whether an error that a call finds is reported: as a runtime error, or as a development error.
    pub fn report(&self, error: ErrorName) -> Option<bool>
        ensures { result ≡ errors.reported (checks.reporting self.now.driver) error }
    {
        mcal_base::det_errors::reported(self.driver.detect, 1, error)
    }

    /// The chip is reset.
    pub fn reset(&mut self)
        ensures state { self.new.state ≡ spec.first_state }
        ensures driver { self.new.driver ≡ self.old.driver }
    {
        self.mode = None;
        self.timeout = 0;
        self.deadline = None;
    }
}

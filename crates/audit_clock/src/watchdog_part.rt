use crate::watchdog::Watchdog;
use audit_base::{Done, Outside, Part, Polled};
use mcal_base::{ErrorName, Order, Reason, Service, Unit};
use module_machines::wdg::{Call, WdgTable};
use std::alloc::AllocError;
use std::marker::Model;

/// The state of the watchdog's machine, which contracts alone name.
pub struct WatchdogState;

impl Model for WatchdogState {
    ghost use Rattle.module_machines.specs.wdg.Machine.{WdgState, first_state};

    ghost Value = { WdgState };

    ghost view = { λ _. first_state };
}

impl Part for Watchdog {
    type Call = Call;

    type State = WatchdogState;

    type Table = WdgTable;

    ghost use Rattle.std.specs.Prelude.{◌≡◌};
    ghost use Rattle.audit_clock.specs.Members.{watchdog_member};

    ghost table = { λ m. m.driver };

    ghost member = { watchdog_member };

    ghost fits = { λ m o. Unit {0} };

    ghost ticks = { λ m. 1 };

    ghost stands = { λ m s. m.state ≡ s };

    fn has_line(&self, _line: u32) -> bool {
        false
    }

    fn act(
        &mut self,
        outside: &Outside,
        call: &Call,
        _times: [u64; 8],
    ) -> Result<Option<Done>, AllocError> {
        let told = Watchdog::act(self, *call, outside.osc);
        Ok(Some(Done { told, begins: None }))
    }

    fn serve(
        &mut self,
        _outside: &Outside,
        _line: u32,
        _received: u32,
    ) -> Result<Option<Done>, AllocError> {
        Ok(None)
    }

    fn start(
        &mut self,
        _outside: &Outside,
        _unit: Unit,
        _by: Option<&Call>,
        _received: u32,
    ) -> Result<Option<Done>, AllocError> {
        Ok(None)
    }

    fn abort(&mut self, _outside: &Outside, _unit: Unit) -> Result<Option<Done>, AllocError> {
        Ok(None)
    }

    fn moved(&mut self, _outside: &Outside, _order: &Order) -> Result<(), AllocError> {
        Ok(())
    }

    fn reset(&mut self, _outside: &Outside, _reason: Reason) {
        Watchdog::reset(self);
    }

    fn ready(&self, _outside: &Outside, _line: u32) -> bool {
        false
    }

    fn due(&self, _outside: &Outside, _line: u32) -> bool {
        false
    }

    fn line_waits(&self, _outside: &Outside, _line: u32) -> bool {
        false
    }

    fn startable(&self, _outside: &Outside, _unit: Unit) -> bool {
        false
    }

    fn rate(&self) -> u32 {
        1
    }

    fn expires(&self, outside: &Outside) -> Option<u64> {
        Watchdog::expires(self, outside.osc)
    }

    fn service(&self, call: &Call) -> Service {
        call.service()
    }

    fn reported(&self, _call: &Call, error: ErrorName) -> Option<bool> {
        Watchdog::report(self, error)
    }

    fn polls(&self, _call: &Call) -> Polled {
        Polled::new()
    }

    ghost later = { λ m o p h a. tt };
}

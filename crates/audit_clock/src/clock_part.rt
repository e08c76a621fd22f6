use crate::clock::Clock;
use audit_base::{Done, Outside, Part, Polled};
use mcal_base::{ErrorName, Order, Reason, Service, Unit};
use module_machines::mcu::{Call, McuTable};
use std::alloc::AllocError;
use std::marker::Model;

/// The state of the machine of clock, RAM and resets, which contracts alone name.
pub struct ClockState;

impl Model for ClockState {
    ghost use Rattle.module_machines.specs.mcu.Machine.{McuState, first_state};

    ghost Value = { McuState };

    ghost view = { λ _. first_state };
}

impl Part for Clock {
    type Call = Call;

    type State = ClockState;

    type Table = McuTable;

    ghost use Rattle.audit_clock.specs.ClockStands.{StandsFor};
    ghost use Rattle.audit_clock.specs.Members.{clock_member};

    ghost table = { λ m. m.driver };

    ghost member = { clock_member };

    ghost fits = { λ m o. Unit {0} };

    ghost ticks = { λ m. m.rate };

    ghost stands = { λ m s. StandsFor m s };

    fn has_line(&self, _line: u32) -> bool {
        false
    }

    fn act(
        &mut self,
        outside: &Outside,
        call: &Call,
        _times: [u64; 8],
    ) -> Result<Option<Done>, AllocError> {
        let told = Clock::act(self, *call, outside.osc);
        Ok(Some(Done { told, begins: None }))
    }

    fn serve(
        &mut self,
        _outside: &Outside,
        _line: u32,
        _received: u32,
    ) -> Result<Option<Done>, AllocError> {
        Ok(None)
    }

    fn start(
        &mut self,
        _outside: &Outside,
        _unit: Unit,
        _by: Option<&Call>,
        _received: u32,
    ) -> Result<Option<Done>, AllocError> {
        Ok(None)
    }

    fn abort(&mut self, _outside: &Outside, _unit: Unit) -> Result<Option<Done>, AllocError> {
        Ok(None)
    }

    fn moved(&mut self, _outside: &Outside, _order: &Order) -> Result<(), AllocError> {
        Ok(())
    }

    fn reset(&mut self, _outside: &Outside, reason: Reason) {
        Clock::reset(self, reason);
    }

    fn ready(&self, _outside: &Outside, _line: u32) -> bool {
        false
    }

    fn due(&self, _outside: &Outside, _line: u32) -> bool {
        false
    }

    fn line_waits(&self, _outside: &Outside, _line: u32) -> bool {
        false
    }

    fn startable(&self, _outside: &Outside, _unit: Unit) -> bool {
        false
    }

    fn rate(&self) -> u32 {
        Clock::rate(self)
    }

    fn expires(&self, _outside: &Outside) -> Option<u64> {
        None
    }

    fn service(&self, call: &Call) -> Service {
        call.service()
    }

    fn reported(&self, _call: &Call, error: ErrorName) -> Option<bool> {
        Clock::report(self, error)
    }

    fn polls(&self, _call: &Call) -> Polled {
        Polled::new()
    }

    ghost later = { λ m o p h a. tt };
}

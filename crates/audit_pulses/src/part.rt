use crate::pulses::Pulses;
use audit_base::{Done, Outside, Part, Polled};
use mcal_base::{ErrorName, Order, Reason, Service, Unit};
use module_machines::pwm::{Call, PwmTable};
use std::alloc::AllocError;
use std::marker::Model;

/// The state of the pulse outputs' machine, which contracts alone name.
pub struct PulsesState;

impl Model for PulsesState {
    ghost use Rattle.module_machines.specs.pwm.Machine.{PwmState, first_state};

    ghost Value = { PwmState };

    ghost view = { λ _. first_state };
}

impl Part for Pulses {
    type Call = Call;

    type State = PulsesState;

    type Table = PwmTable;

    ghost use Rattle.std.specs.Prelude.{◌≡◌, ◌≤◌};
    ghost use Rattle.std.proofs.Math.Nat.{le_trans};
    ghost use Rattle.audit_pulses.specs.Members.{member_of};

    ghost table = { λ m. m.driver };

    ghost member = { member_of };

    ghost fits = { λ m o. m.latest ≤ o.time };

    ghost ticks = { λ m. 1 };

    ghost stands = { λ m s. m.state ≡ s };

    fn has_line(&self, line: u32) -> bool {
        Pulses::has_line(self, line)
    }

    fn act(
        &mut self,
        outside: &Outside,
        call: &Call,
        times: [u64; 8],
    ) -> Result<Option<Done>, AllocError> {
        let told = Pulses::act(self, *call, outside.time, times);
        Ok(Some(Done { told, begins: None }))
    }

    fn serve(
        &mut self,
        outside: &Outside,
        line: u32,
        _received: u32,
    ) -> Result<Option<Done>, AllocError> {
        let told = Pulses::serve(self, line, outside.time);
        Ok(Done::if_told(told))
    }

    fn start(
        &mut self,
        _outside: &Outside,
        _unit: Unit,
        _by: Option<&Call>,
        _received: u32,
    ) -> Result<Option<Done>, AllocError> {
        Ok(None)
    }

    fn abort(&mut self, _outside: &Outside, _unit: Unit) -> Result<Option<Done>, AllocError> {
        Ok(None)
    }

    fn moved(&mut self, _outside: &Outside, _order: &Order) -> Result<(), AllocError> {
        Ok(())
    }

    fn reset(&mut self, _outside: &Outside, _reason: Reason) {
        Pulses::reset(self);
    }

    fn ready(&self, outside: &Outside, line: u32) -> bool {
        Pulses::ready(self, line, outside.time)
    }

    fn due(&self, outside: &Outside, line: u32) -> bool {
        Pulses::ready(self, line, outside.time)
    }

    fn line_waits(&self, _outside: &Outside, _line: u32) -> bool {
        false
    }

    fn startable(&self, _outside: &Outside, _unit: Unit) -> bool {
        false
    }

    fn rate(&self) -> u32 {
        1
    }

    fn expires(&self, _outside: &Outside) -> Option<u64> {
        None
    }

    fn service(&self, call: &Call) -> Service {
        call.service()
    }

    fn reported(&self, _call: &Call, error: ErrorName) -> Option<bool> {
        Pulses::report(self, error)
    }

    fn polls(&self, _call: &Call) -> Polled {
        Polled::new()
    }

    ghost later = { λ m o p h a. le_trans h a.time };
}

use crate::captures::Captures;
use audit_base::{Done, Outside, Part, Polled};
use mcal_base::{ErrorName, Order, Reason, Service, Unit};
use module_machines::icu::{Call, IcuTable};
use std::alloc::AllocError;
use std::marker::Model;

/// The state of the capture channels' machine, which contracts alone name.
pub struct CapturesState;

impl Model for CapturesState {
    ghost use Rattle.module_machines.specs.icu.Machine.{IcuState, first_state};

    ghost Value = { IcuState };

    ghost view = { λ _. first_state };
}

impl Part for Captures {
    type Call = Call;

    type State = CapturesState;

    type Table = IcuTable;

    ghost use Rattle.std.specs.Prelude.{◌≤◌};
    ghost use Rattle.std.proofs.Math.Nat.{le_of_lt, le_trans};
    ghost use Rattle.audit_captures.specs.Members.{member_of};
    ghost use Rattle.audit_captures.specs.Stands.{StandsFor};

    ghost table = { λ m. m.driver };

    ghost member = { member_of };

    ghost fits = { λ m o. m.servings ≤ o.told };

    ghost ticks = { λ m. 1 };

    ghost stands = { λ m s. StandsFor m s };

    fn has_line(&self, line: u32) -> bool {
        Captures::has_line(self, line)
    }

    fn act(
        &mut self,
        _outside: &Outside,
        call: &Call,
        _times: [u64; 8],
    ) -> Result<Option<Done>, AllocError> {
        let told = Captures::act(self, *call);
        Ok(Some(Done { told, begins: None }))
    }

    fn serve(
        &mut self,
        _outside: &Outside,
        line: u32,
        _received: u32,
    ) -> Result<Option<Done>, AllocError> {
        let told = Captures::serve(self, line);
        Ok(Done::if_told(told))
    }

    fn start(
        &mut self,
        _outside: &Outside,
        _unit: Unit,
        _by: Option<&Call>,
        _received: u32,
    ) -> Result<Option<Done>, AllocError> {
        Ok(None)
    }

    fn abort(&mut self, _outside: &Outside, _unit: Unit) -> Result<Option<Done>, AllocError> {
        Ok(None)
    }

    fn moved(&mut self, outside: &Outside, order: &Order) -> Result<(), AllocError> {
        if let Order::Level(pin, high) = order {
            let before = outside.level(*pin);
            Captures::level(self, *pin, before, *high, outside.time);
        }
        Ok(())
    }

    fn reset(&mut self, _outside: &Outside, _reason: Reason) {
        Captures::reset(self);
    }

    fn ready(&self, _outside: &Outside, line: u32) -> bool {
        Captures::ready(self, line)
    }

    fn due(&self, _outside: &Outside, line: u32) -> bool {
        Captures::ready(self, line)
    }

    fn line_waits(&self, _outside: &Outside, _line: u32) -> bool {
        false
    }

    fn startable(&self, _outside: &Outside, _unit: Unit) -> bool {
        false
    }

    fn rate(&self) -> u32 {
        1
    }

    fn expires(&self, _outside: &Outside) -> Option<u64> {
        None
    }

    fn service(&self, call: &Call) -> Service {
        call.service()
    }

    fn reported(&self, _call: &Call, error: ErrorName) -> Option<bool> {
        Captures::report(self, error)
    }

    fn polls(&self, _call: &Call) -> Polled {
        Polled::new()
    }

    ghost later = { λ m o p h a. le_trans h (le_of_lt a.told) };
}

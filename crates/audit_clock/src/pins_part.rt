use crate::pins::Pins;
use audit_base::{Done, Outside, Part, Polled};
use mcal_base::{ErrorName, Order, Reason, Service, Unit};
use module_machines::port::{Call, PortTable};
use std::alloc::AllocError;
use std::marker::Model;

/// The state of the pins' machine, which contracts alone name.
pub struct PinsState;

impl Model for PinsState {
    ghost use Rattle.module_machines.specs.port.Machine.{PortState, first_state};

    ghost Value = { PortState };

    ghost view = { λ _. first_state };
}

impl Part for Pins {
    type Call = Call;

    type State = PinsState;

    type Table = PortTable;

    ghost use Rattle.audit_clock.specs.Members.{pins_member};
    ghost use Rattle.audit_clock.specs.PinStands.{StandsFor};

    ghost table = { λ m. m.driver };

    ghost member = { pins_member };

    ghost fits = { λ m o. Unit {0} };

    ghost ticks = { λ m. 1 };

    ghost stands = { λ m s. StandsFor m s };

    fn has_line(&self, _line: u32) -> bool {
        false
    }

    fn act(
        &mut self,
        _outside: &Outside,
        call: &Call,
        _times: [u64; 8],
    ) -> Result<Option<Done>, AllocError> {
        let told = Pins::act(self, *call);
        Ok(Some(Done { told, begins: None }))
    }

    fn serve(
        &mut self,
        _outside: &Outside,
        _line: u32,
        _received: u32,
    ) -> Result<Option<Done>, AllocError> {
        Ok(None)
    }

    fn start(
        &mut self,
        _outside: &Outside,
        _unit: Unit,
        _by: Option<&Call>,
        _received: u32,
    ) -> Result<Option<Done>, AllocError> {
        Ok(None)
    }

    fn abort(&mut self, _outside: &Outside, _unit: Unit) -> Result<Option<Done>, AllocError> {
        Ok(None)
    }

    fn moved(&mut self, _outside: &Outside, _order: &Order) -> Result<(), AllocError> {
        Ok(())
    }

    fn reset(&mut self, _outside: &Outside, _reason: Reason) {
        Pins::reset(self);
    }

    fn ready(&self, _outside: &Outside, _line: u32) -> bool {
        false
    }

    fn due(&self, _outside: &Outside, _line: u32) -> bool {
        false
    }

    fn line_waits(&self, _outside: &Outside, _line: u32) -> bool {
        false
    }

    fn startable(&self, _outside: &Outside, _unit: Unit) -> bool {
        false
    }

    fn rate(&self) -> u32 {
        1
    }

    fn expires(&self, _outside: &Outside) -> Option<u64> {
        None
    }

    fn service(&self, call: &Call) -> Service {
        call.service()
    }

    fn reported(&self, _call: &Call, error: ErrorName) -> Option<bool> {
        Pins::report(self, error)
    }

    fn polls(&self, _call: &Call) -> Polled {
        Polled::new()
    }

    ghost later = { λ m o p h a. tt };
}

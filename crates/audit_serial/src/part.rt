use crate::serials::Serials;
use audit_base::{Done, Outside, Part, Polled};
use mcal_base::{ErrorName, Order, Reason, Service, Unit};
use spi_machine::{Call, SpiTable};
use std::alloc::AllocError;
use std::marker::Model;

/// The state of the serial units' machine, which contracts alone name.
pub struct SerialsState;

impl Model for SerialsState {
    ghost use Rattle.spi_machine.specs.State.{SpiState, first_state};

    ghost Value = { SpiState };

    ghost view = { λ _. first_state };
}

impl Part for Serials {
    type Call = Call;

    type State = SerialsState;

    type Table = SpiTable;

    ghost use Rattle.std.specs.Prelude.{◌≡◌, ◌≤◌};
    ghost use Rattle.std.proofs.Math.Nat.{le_of_lt, le_trans};
    ghost use Rattle.audit_serial.specs.Members.{member_of};
    ghost use Rattle.audit_serial.specs.Stands.{state_of};

    ghost table = { λ m. m.configured.table };

    ghost member = { member_of };

    ghost fits = { λ m o. m.queue.events ≤ o.told };

    ghost ticks = { λ m. 1 };

    ghost stands = { λ m s. state_of m ≡ s };

    fn has_line(&self, line: u32) -> bool {
        Serials::has_line(self, line)
    }

    fn act(
        &mut self,
        outside: &Outside,
        call: &Call,
        _times: [u64; 8],
    ) -> Result<Option<Done>, AllocError> {
        let told = Serials::act(self, *call, outside.time)?;
        Ok(Done::if_told(told))
    }

    fn serve(
        &mut self,
        outside: &Outside,
        line: u32,
        received: u32,
    ) -> Result<Option<Done>, AllocError> {
        Serials::serve(self, line, received, outside.time)
    }

    fn start(
        &mut self,
        outside: &Outside,
        unit: Unit,
        by: Option<&Call>,
        received: u32,
    ) -> Result<Option<Done>, AllocError> {
        let begun = Serials::start(self, unit, by.copied(), received, outside.time)?;
        Ok(Done::if_begun(begun))
    }

    fn abort(&mut self, _outside: &Outside, _unit: Unit) -> Result<Option<Done>, AllocError> {
        Ok(None)
    }

    fn moved(&mut self, outside: &Outside, order: &Order) -> Result<(), AllocError> {
        match order {
            Order::Fill(channel, words) => self.fill(*channel, words.as_slice()),
            Order::SpiFault(unit) => self.fault(*unit, outside.time),
            _ => Ok(()),
        }
    }

    fn reset(&mut self, _outside: &Outside, _reason: Reason) {
        Serials::reset(self);
    }

    fn ready(&self, outside: &Outside, line: u32) -> bool {
        Serials::ready(self, line, outside.time)
    }

    fn due(&self, outside: &Outside, line: u32) -> bool {
        Serials::due(self, line, outside.time)
    }

    fn line_waits(&self, _outside: &Outside, line: u32) -> bool {
        Serials::line_waits(self, line)
    }

    fn startable(&self, _outside: &Outside, unit: Unit) -> bool {
        Serials::startable(self, unit)
    }

    fn rate(&self) -> u32 {
        1
    }

    fn expires(&self, _outside: &Outside) -> Option<u64> {
        None
    }

    fn service(&self, call: &Call) -> Service {
        call.service()
    }

    fn reported(&self, _call: &Call, error: ErrorName) -> Option<bool> {
        Serials::report(self, error)
    }

    fn polls(&self, call: &Call) -> Polled {
        let mut lines = Polled::new();
        if Serials::polls(self, *call) {
            lines.push(26);
            lines.push(27);
        }
        lines
    }

    ghost later = { λ m o p h a. le_trans h (le_of_lt a.told) };
}

use crate::converters::Converters;
use adc_machine::{AdcTable, Call};
use audit_base::{Done, Outside, Part, Polled};
use mcal_base::{ErrorName, Order, Reason, Service, Unit};
use std::alloc::AllocError;
use std::marker::Model;

/// The state of the converter groups' machine, which contracts alone name.
pub struct ConvertersState;

impl Model for ConvertersState {
    ghost use Rattle.adc_machine.specs.Turns.{AdcState, first_state};

    ghost Value = { AdcState };

    ghost view = { λ _. first_state };
}

impl Part for Converters {
    type Call = Call;

    type State = ConvertersState;

    type Table = AdcTable;

    ghost use Rattle.std.specs.Prelude.{◌≤◌};
    ghost use Rattle.std.proofs.Math.Nat.{le_of_lt, le_trans};
    ghost use Rattle.audit_converters.specs.Members.{member_of};
    ghost use Rattle.audit_converters.specs.Stands.{StandsFor};

    ghost table = { λ m. m.table };

    ghost member = { member_of };

    ghost fits = { λ m o. m.groups.events ≤ o.told };

    ghost ticks = { λ m. 1 };

    ghost stands = { λ m s. StandsFor m s };

    fn has_line(&self, line: u32) -> bool {
        Converters::has_line(self, line)
    }

    fn act(
        &mut self,
        _outside: &Outside,
        call: &Call,
        _times: [u64; 8],
    ) -> Result<Option<Done>, AllocError> {
        let told = Converters::act(self, *call);
        Ok(Some(Done { told, begins: None }))
    }

    fn serve(
        &mut self,
        outside: &Outside,
        line: u32,
        _received: u32,
    ) -> Result<Option<Done>, AllocError> {
        let told = Converters::serve(self, &outside.samples, line, outside.time);
        Ok(Done::if_told(told))
    }

    fn start(
        &mut self,
        outside: &Outside,
        unit: Unit,
        _by: Option<&Call>,
        _received: u32,
    ) -> Result<Option<Done>, AllocError> {
        let told = Converters::start(self, unit, outside.time);
        Ok(Done::if_told(told))
    }

    fn abort(&mut self, outside: &Outside, unit: Unit) -> Result<Option<Done>, AllocError> {
        let told = Converters::abort(self, &outside.samples, unit, outside.time);
        Ok(Done::if_told(told))
    }

    fn moved(&mut self, _outside: &Outside, order: &Order) -> Result<(), AllocError> {
        if let Order::Trigger(input) = order {
            self.pulse(*input);
        }
        Ok(())
    }

    fn reset(&mut self, _outside: &Outside, _reason: Reason) {
        Converters::reset(self);
    }

    fn ready(&self, outside: &Outside, line: u32) -> bool {
        Converters::ready(self, line, outside.time)
    }

    fn due(&self, outside: &Outside, line: u32) -> bool {
        Converters::ready(self, line, outside.time)
    }

    fn line_waits(&self, outside: &Outside, line: u32) -> bool {
        Converters::line_waits(self, line, outside.time)
    }

    fn startable(&self, outside: &Outside, unit: Unit) -> bool {
        Converters::startable(self, unit, outside.time)
    }

    fn rate(&self) -> u32 {
        1
    }

    fn expires(&self, _outside: &Outside) -> Option<u64> {
        None
    }

    fn service(&self, call: &Call) -> Service {
        call.service()
    }

    fn reported(&self, _call: &Call, error: ErrorName) -> Option<bool> {
        Converters::report(self, error)
    }

    fn polls(&self, _call: &Call) -> Polled {
        Polled::new()
    }

    ghost later = { λ m o p h a. le_trans h (le_of_lt a.told) };
}

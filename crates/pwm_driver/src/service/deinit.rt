ghost use Rattle.std.specs.Prelude.{◌≡◌};
ghost use Rattle.pwm_driver.specs.laws.DeInit as spec;

use crate::words::{KINDS, LINES, STATE, level};
use mcal_base::{Move, Reg};
use module_machines::pwm::PwmTable;
use service_outline::{Body, BodyTaken, Epilogue, acts, ends, goes, nothing};

/// `Pwm_DeInit`, from the load of the state word on.
#[derive(Clone, Copy)]
pub enum DeInitBody {
    /// It acts, and the module is uninitialised.
    Store(PwmTable),
    /// It disables the lines.
    Disable(PwmTable),
    /// It chooses no changes,
    Choose(PwmTable),
    /// and keeps that.
    Keep(PwmTable),
    /// It sets a channel that is configured to its idle level, and goes on with the next number.
    Rest(PwmTable, u8),
}

impl Body for DeInitBody {
    ghost use Rattle.pwm_driver.specs.laws.DeInit.{deinit_work, deinit_takes};

    ghost work_of = { deinit_work };

    ghost takes = { deinit_takes };

    fn next(&self) -> Move {
        match *self {
            DeInitBody::Store(_) => Move::Store(STATE, 0),
            DeInitBody::Disable(_) => Move::Write(Reg::EnableClear, LINES),
            DeInitBody::Choose(_) => Move::Write(Reg::PulseEdges, 0),
            DeInitBody::Keep(_) => Move::Store(KINDS, 0),
            DeInitBody::Rest(table, number) => rest(table, number),
        }
    }

    fn took(&mut self, _value: u32) -> BodyTaken {
        let (after, taken) = match *self {
            DeInitBody::Store(table) => (DeInitBody::Disable(table), acts()),
            DeInitBody::Disable(table) => (DeInitBody::Choose(table), goes()),
            DeInitBody::Choose(table) => (DeInitBody::Keep(table), goes()),
            DeInitBody::Keep(table) => (DeInitBody::Rest(table, 0), goes()),
            DeInitBody::Rest(table, number) if number < 7 => {
                (DeInitBody::Rest(table, number + 1), goes())
            }
            DeInitBody::Rest(..) => (*self, ends(None, nothing(), Epilogue::Nothing)),
        };
        *self = after;
        taken
    }
}

/// A channel is set to its idle level, and nothing is done where it isn't configured.
fn rest(table: PwmTable, number: u8) -> Move
    ensures { result ≡ spec.rest table number }
{
    match table.channel(u32::from(number)) {
        Some(channel) => Move::Write(Reg::PulseIdle(u32::from(number)), level(channel.idle_high)),
        None => Move::Load(STATE),
    }
}

ghost use Rattle.std.specs.Prelude.{◌≡◌};
ghost use Rattle.icu_driver.specs.Words as spec;

use crate::words::{LINES, STATE};
use mcal_base::{IcuMeasurementMode, IcuStartEdge, Move, Reg};
use module_machines::icu::{Channel, IcuTable};
use service_outline::{Body, BodyTaken, Epilogue, acts_with, goes, nothing};

/// `Icu_Init`, from the load of the state word on.
#[derive(Clone, Copy)]
pub enum InitBody {
    /// It chooses the edges of this channel.
    Condition(IcuTable, u8),
    /// It sets whether the channel counts, and goes on with the next one.
    Mode(IcuTable, u8),
    /// It enables the lines.
    Enable,
    /// It acts, and the module is initialised.
    Store,
}

impl Body for InitBody {
    ghost use Rattle.icu_driver.specs.laws.Init.{init_work, init_takes};

    ghost work_of = { init_work };

    ghost takes = { init_takes };

    fn next(&self) -> Move {
        match *self {
            InitBody::Condition(table, number) => {
                let number = u32::from(number);
                let value = first_condition(table.channel(number));
                Move::Write(Reg::CaptureCondition(number), value)
            }
            InitBody::Mode(table, number) => {
                let number = u32::from(number);
                let value = mode(table.channel(number));
                Move::Write(Reg::CaptureMode(number), value)
            }
            InitBody::Enable => Move::Write(Reg::EnableSet, LINES),
            InitBody::Store => Move::Store(STATE, 1),
        }
    }

    fn took(&mut self, _value: u32) -> BodyTaken {
        let (after, taken) = match *self {
            InitBody::Condition(table, number) => (InitBody::Mode(table, number), goes()),
            InitBody::Mode(table, number) if number < 7 => {
                (InitBody::Condition(table, number + 1), goes())
            }
            InitBody::Mode(..) => (InitBody::Enable, goes()),
            InitBody::Enable => (InitBody::Store, goes()),
            InitBody::Store => (InitBody::Store, acts_with(nothing(), Epilogue::Nothing)),
        };
        *self = after;
        taken
    }
}

/// The condition that chooses these edges.
pub(crate) fn condition(edge: IcuStartEdge) -> u32
    ensures { result ≡ spec.condition_of edge }
{
    match edge {
        IcuStartEdge::Rising => 1,
        IcuStartEdge::Falling => 2,
        IcuStartEdge::Both => 3,
    }
}

/// The condition of a channel after `Icu_Init`: a measurement has both edges.
fn first_condition(channel: Option<Channel>) -> u32
    ensures { result ≡ spec.first_condition channel }
{
    match channel {
        Some(found) => match found.mode {
            IcuMeasurementMode::SignalMeasurement => 3,
            _ => condition(found.start_edge),
        },
        None => 0,
    }
}

/// What a chosen edge of a channel does: it is counted, or it waits.
fn mode(channel: Option<Channel>) -> u32
    ensures { result ≡ spec.mode_of channel }
{
    match channel {
        Some(found) => match found.mode {
            IcuMeasurementMode::EdgeCounter => 1,
            _ => 0,
        },
        None => 0,
    }
}

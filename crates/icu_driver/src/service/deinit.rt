ghost use Rattle.std.specs.Prelude.{◌≡◌};
ghost use Rattle.icu_driver.specs.laws.DeInit as spec;

use crate::words::{CHANNELS, LINES, MARKS, STATE, SWITCHES, word};
use mcal_base::{IcuMeasurementMode, Move, Reg};
use module_machines::icu::IcuTable;
use service_outline::{Body, BodyTaken, Epilogue, acts, ends, goes, nothing};

/// `Icu_DeInit`, from the load of the state word on.
#[derive(Clone, Copy)]
pub enum DeInitBody {
    /// It acts, and the module is uninitialised.
    Store(IcuTable),
    /// It disables the lines.
    Disable(IcuTable),
    /// It closes all gates.
    Close(IcuTable),
    /// It makes the count of this channel 0.
    Zero(IcuTable, u8),
    /// It drops the edges of this channel,
    Flush(IcuTable, u8),
    /// the first of its words,
    Switch(IcuTable, u8),
    /// and the second one.
    Mark(IcuTable, u8),
}

impl Body for DeInitBody {
    ghost use Rattle.icu_driver.specs.laws.DeInit.{deinit_work, deinit_takes};

    ghost work_of = { deinit_work };

    ghost takes = { deinit_takes };

    fn next(&self) -> Move {
        match *self {
            DeInitBody::Store(_) => Move::Store(STATE, 0),
            DeInitBody::Disable(_) => Move::Write(Reg::EnableClear, LINES),
            DeInitBody::Close(_) => Move::Write(Reg::CaptureGateClear, CHANNELS),
            DeInitBody::Zero(_, number) => Move::Write(Reg::CaptureZero(u32::from(number)), 0),
            DeInitBody::Flush(_, number) => Move::Write(Reg::CaptureFlush(u32::from(number)), 0),
            DeInitBody::Switch(_, number) => Move::Store(word(SWITCHES, number), 0),
            DeInitBody::Mark(_, number) => Move::Store(word(MARKS, number), 0),
        }
    }

    fn took(&mut self, _value: u32) -> BodyTaken {
        let (after, taken) = match *self {
            DeInitBody::Store(table) => (DeInitBody::Disable(table), acts()),
            DeInitBody::Disable(table) => (DeInitBody::Close(table), goes()),
            DeInitBody::Close(table) => (at(table, 0), goes()),
            DeInitBody::Flush(table, number) => (DeInitBody::Switch(table, number), goes()),
            DeInitBody::Switch(table, number) => (DeInitBody::Mark(table, number), goes()),
            DeInitBody::Zero(table, number) | DeInitBody::Mark(table, number) if number < 7 => {
                (at(table, number + 1), goes())
            }
            DeInitBody::Zero(..) | DeInitBody::Mark(..) => (
                *self,
                ends(None, nothing(), Epilogue::Nothing),
            ),
        };
        *self = after;
        taken
    }
}

/// Where the work on a channel begins.
fn at(table: IcuTable, number: u8) -> DeInitBody
    ensures { result ≡ spec.deinit_at table number }
{
    if counts(table, number) {
        DeInitBody::Zero(table, number)
    } else {
        DeInitBody::Flush(table, number)
    }
}

/// Whether the channel is an edge counter.
fn counts(table: IcuTable, number: u8) -> bool
    ensures { result ≡ spec.counts table number }
{
    match table.channel(u32::from(number)) {
        Some(channel) => match channel.mode {
            IcuMeasurementMode::EdgeCounter => true,
            _ => false,
        },
        None => false,
    }
}

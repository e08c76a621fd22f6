use crate::words::bit;
use mcal_base::{Move, Reg};
use service_outline::{Body, BodyTaken, Epilogue, acts, acts_with, ends, goes, nothing};

/// The services that only switch a channel on or off, from the load of the state word on.
#[derive(Clone, Copy)]
pub enum GateBody {
    /// It opens the gate.
    Open(u8),
    /// It acts, and no edge waits: those that came so far are dropped.
    Empty(u8),
    /// It acts, and closes the gate.
    Close(u8),
    /// It drops what waits.
    Drop(u8),
}

impl Body for GateBody {
    ghost use Rattle.icu_driver.specs.laws.Gate.{gate_work, gate_takes};

    ghost work_of = { gate_work };

    ghost takes = { gate_takes };

    fn next(&self) -> Move {
        match *self {
            GateBody::Open(channel) => Move::Write(Reg::CaptureGateSet, bit(channel)),
            GateBody::Close(channel) => Move::Write(Reg::CaptureGateClear, bit(channel)),
            GateBody::Empty(channel) | GateBody::Drop(channel) => {
                Move::Write(Reg::CaptureFlush(u32::from(channel)), 0)
            }
        }
    }

    fn took(&mut self, _value: u32) -> BodyTaken {
        let (after, taken) = match *self {
            GateBody::Open(channel) => (GateBody::Empty(channel), goes()),
            GateBody::Empty(_) => (*self, acts_with(nothing(), Epilogue::Nothing)),
            GateBody::Close(channel) => (GateBody::Drop(channel), acts()),
            GateBody::Drop(_) => (*self, ends(None, nothing(), Epilogue::Nothing)),
        };
        *self = after;
        taken
    }
}

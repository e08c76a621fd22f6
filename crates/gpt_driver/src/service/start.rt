use crate::words::{bit, has, target_word};
use mcal_base::{Move, Reg};
use service_outline::{Body, BodyTaken, Epilogue, acts, acts_with, ends, goes, nothing};

/// What is to be started.
#[derive(Clone, Copy)]
pub struct Start {
    /// The channel.
    pub channel: u8,
    /// Its target.
    pub value: u32,
    /// Its prescaler.
    pub prescaler: u32,
    /// The bits of the one-shot channels.
    pub one_shot_bits: u32,
    /// What it owes where it finds the channel busy.
    pub busy: Epilogue,
}

/// `Gpt_StartTimer`, from the load of the state word on.
#[derive(Clone, Copy)]
pub enum StartBody {
    /// It looks whether the channel runs.
    Look(Start),
    /// It writes the target,
    Target(Start),
    /// the prescaler,
    Prescaler(Start),
    /// and the one-shot bits.
    OneShot(Start),
    /// It clears the flag.
    Clear(Start),
    /// It acts, and the counter starts.
    Gate(Start),
    /// It keeps the target.
    Keep(Start),
}

impl Body for StartBody {
    ghost use Rattle.gpt_driver.specs.laws.Start.{start_work, start_takes};

    ghost work_of = { start_work };

    ghost takes = { start_takes };

    fn next(&self) -> Move {
        match *self {
            StartBody::Look(_) => Move::Read(Reg::TimerRun),
            StartBody::Target(start) => {
                Move::Write(Reg::TimerTarget(u32::from(start.channel)), start.value)
            }
            StartBody::Prescaler(start) => Move::Write(
                Reg::TimerPrescaler(u32::from(start.channel)),
                start.prescaler,
            ),
            StartBody::OneShot(start) => Move::Write(Reg::TimerOneShot, start.one_shot_bits),
            StartBody::Clear(start) => Move::Write(Reg::TimerFlags, bit(start.channel)),
            StartBody::Gate(start) => Move::Write(Reg::TimerGateSet, bit(start.channel)),
            StartBody::Keep(start) => Move::Store(target_word(start.channel), start.value),
        }
    }

    fn took(&mut self, value: u32) -> BodyTaken {
        let (after, taken) = match *self {
            StartBody::Look(start) if has(value, start.channel) => (
                *self,
                acts_with(nothing(), start.busy),
            ),
            StartBody::Look(start) => (StartBody::Target(start), goes()),
            StartBody::Target(start) => (StartBody::Prescaler(start), goes()),
            StartBody::Prescaler(start) => (StartBody::OneShot(start), goes()),
            StartBody::OneShot(start) => (StartBody::Clear(start), goes()),
            StartBody::Clear(start) => (StartBody::Gate(start), goes()),
            StartBody::Gate(start) => (StartBody::Keep(start), acts()),
            StartBody::Keep(_) => (*self, ends(None, nothing(), Epilogue::Nothing)),
        };
        *self = after;
        taken
    }
}

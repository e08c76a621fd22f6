use crate::words::{absolute, level, period_word};
use mcal_base::{Move, Reg};
use service_outline::{Body, BodyTaken, Epilogue, acts, acts_with, ends, goes, nothing};

/// What an output is to do.
#[derive(Clone, Copy)]
pub struct Want {
    /// The channel.
    pub channel: u8,
    /// Its period.
    pub period: u32,
    /// Its duty, as a share of the period.
    pub duty: u32,
    /// Its polarity is high.
    pub high: bool,
    /// Whether the period is a new one, which is kept.
    pub keeps: bool,
}

/// `Pwm_SetDutyCycle` and `Pwm_SetPeriodAndDuty`, from the load of the state word on.
#[derive(Clone, Copy)]
pub enum OutputBody {
    /// It loads the period that was set last.
    Load(Want),
    /// It writes the period,
    Period(Want),
    /// the absolute duty,
    Duty(Want),
    /// and the polarity.
    Polarity(Want),
    /// It acts: all three are committed.
    Commit(Want),
    /// It keeps the period.
    Keep(Want),
}

impl Body for OutputBody {
    ghost use Rattle.pwm_driver.specs.laws.Output.{output_work, output_takes};

    ghost work_of = { output_work };

    ghost takes = { output_takes };

    fn next(&self) -> Move {
        match *self {
            OutputBody::Load(want) => Move::Load(period_word(want.channel)),
            OutputBody::Period(want) => {
                Move::Write(Reg::PulsePeriod(u32::from(want.channel)), want.period)
            }
            OutputBody::Duty(want) => Move::Write(
                Reg::PulseDuty(u32::from(want.channel)),
                absolute(want.period, want.duty),
            ),
            OutputBody::Polarity(want) => Move::Write(
                Reg::PulsePolarity(u32::from(want.channel)),
                level(want.high),
            ),
            OutputBody::Commit(want) => {
                Move::Write(Reg::PulseCommit(u32::from(want.channel)), 1)
            }
            OutputBody::Keep(want) => Move::Store(period_word(want.channel), want.period),
        }
    }

    fn took(&mut self, value: u32) -> BodyTaken {
        let (after, taken) = match *self {
            OutputBody::Load(want) => {
                let found = Want {
                    period: value,
                    ..want
                };
                (OutputBody::Period(found), goes())
            }
            OutputBody::Period(want) => (OutputBody::Duty(want), goes()),
            OutputBody::Duty(want) => (OutputBody::Polarity(want), goes()),
            OutputBody::Polarity(want) => (OutputBody::Commit(want), goes()),
            OutputBody::Commit(want) if want.keeps => (OutputBody::Keep(want), acts()),
            OutputBody::Commit(_) => (*self, acts_with(nothing(), Epilogue::Nothing)),
            OutputBody::Keep(_) => (*self, ends(None, nothing(), Epilogue::Nothing)),
        };
        *self = after;
        taken
    }
}

use crate::words::{SWITCHES, TIMES, VALUES, word};
use mcal_base::Move;
use service_outline::{Body, BodyTaken, Epilogue, acts, ends, goes, numbers};

/// `Icu_GetDutyCycleValues`, from the load of the state word on.
#[derive(Clone, Copy)]
pub enum DutyBody {
    /// It loads whether a value waits.
    Waits(u8),
    /// It loads the period, which counts where one waits.
    Period(u8, bool),
    /// It acts, and loads the active time.
    Active(u8, bool, u32),
    /// It keeps that no value waits, after this active time and this period.
    Hand(u8, u32, u32),
}

impl Body for DutyBody {
    ghost use Rattle.icu_driver.specs.laws.Duty.{duty_work, duty_takes};

    ghost work_of = { duty_work };

    ghost takes = { duty_takes };

    fn next(&self) -> Move {
        match *self {
            DutyBody::Waits(channel) => Move::Load(word(SWITCHES, channel)),
            DutyBody::Period(channel, _) => Move::Load(word(VALUES, channel)),
            DutyBody::Active(channel, _, _) => Move::Load(word(TIMES, channel)),
            DutyBody::Hand(channel, _, _) => Move::Store(word(SWITCHES, channel), 0),
        }
    }

    fn took(&mut self, value: u32) -> BodyTaken {
        let (after, taken) = match *self {
            DutyBody::Waits(channel) => (DutyBody::Period(channel, value == 1), goes()),
            DutyBody::Period(channel, waits) => (DutyBody::Active(channel, waits, value), goes()),
            DutyBody::Active(channel, true, period) => (
                DutyBody::Hand(channel, value, period),
                acts(),
            ),
            DutyBody::Active(channel, false, _) => (DutyBody::Hand(channel, 0, 0), acts()),
            DutyBody::Hand(_, active, period) => {
                let answer = numbers(active, period);
                (*self, ends(None, answer, Epilogue::Nothing))
            }
        };
        *self = after;
        taken
    }
}

ghost use Rattle.std.specs.Prelude.{◌≡◌};
ghost use Rattle.pwm_driver.specs.laws.Init as spec;

use crate::driver::PwmDriver;
use crate::words::{LINES, STATE, absolute, level, period_word};
use mcal_base::{Move, Reg};
use module_machines::pwm::{Channel, PwmTable};
use service_outline::{Body, BodyTaken, Epilogue, Objects, acts_with, goes, nothing};

/// The defaults of all channels, four objects each, written with the mask open: the word of the period, and the registers
/// of period, duty and polarity.
#[derive(Clone, Copy)]
pub struct Setup {
    /// The driver.
    pub driver: PwmDriver,
}

impl Objects for Setup {
    type After = InitBody;

    ghost use Rattle.pwm_driver.specs.laws.Init.{setup_count, setup_move, setup_after};

    ghost count_of = { setup_count };

    ghost move_at = { setup_move };

    ghost after_of = { setup_after };

    fn count(&self) -> u16 {
        32
    }

    fn at(&self, object: u16) -> Move {
        let number = object / 4;
        if number < 8 {
            part(
                object % 4,
                number as u8,
                self.driver.channel(u32::from(number)),
            )
        } else {
            Move::Load(STATE)
        }
    }

    fn after(&self) -> InitBody {
        InitBody::Commit(*self.driver, 0)
    }
}

/// One of a channel's four moves.
fn part(at: u16, number: u8, channel: Option<Channel>) -> Move
    ensures { result ≡ spec.part at number channel }
{
    let register = u32::from(number);
    let (period, duty, high) = defaults(channel);
    match at {
        0 => Move::Store(period_word(number), period),
        1 => Move::Write(Reg::PulsePeriod(register), period),
        2 => Move::Write(Reg::PulseDuty(register), absolute(period, duty)),
        _ => Move::Write(Reg::PulsePolarity(register), level(high)),
    }
}

/// The period, the duty and the polarity that a channel begins with, 0 and low where it isn't configured.
fn defaults(channel: Option<Channel>) -> (u32, u32, bool)
    ensures { result ≡ spec.defaults channel }
{
    match channel {
        Some(found) => (
            found.period_ticks,
            found.duty_cycle_default,
            found.polarity_high,
        ),
        None => (0, 0, false),
    }
}

/// `Pwm_Init` in its last window.
#[derive(Clone, Copy)]
pub enum InitBody {
    /// It commits a channel that is configured, and goes on with the next number.
    Commit(PwmTable, u8),
    /// It enables the lines.
    Enable,
    /// It acts, and the module is initialised.
    Store,
}

impl Body for InitBody {
    ghost use Rattle.pwm_driver.specs.laws.Init.{init_work, init_takes};

    ghost work_of = { init_work };

    ghost takes = { init_takes };

    fn next(&self) -> Move {
        match *self {
            InitBody::Commit(table, number) => commit(table, number),
            InitBody::Enable => Move::Write(Reg::EnableSet, LINES),
            InitBody::Store => Move::Store(STATE, 1),
        }
    }

    fn took(&mut self, _value: u32) -> BodyTaken {
        let (after, taken) = match *self {
            InitBody::Commit(table, number) if number < 7 => {
                (InitBody::Commit(table, number + 1), goes())
            }
            InitBody::Commit(..) => (InitBody::Enable, goes()),
            InitBody::Enable => (InitBody::Store, goes()),
            InitBody::Store => (InitBody::Store, acts_with(nothing(), Epilogue::Nothing)),
        };
        *self = after;
        taken
    }
}

/// The commit of a channel, and nothing where it isn't configured.
fn commit(table: PwmTable, number: u8) -> Move
    ensures { result ≡ spec.commit table number }
{
    match table.channel(u32::from(number)) {
        Some(_) => Move::Write(Reg::PulseCommit(u32::from(number)), 1),
        None => Move::Load(STATE),
    }
}

ghost use Rattle.std.specs.Prelude.{◌≡◌, ◌-◌};
ghost use Rattle.chip_blocks.specs.pulses.Pulses as times;
ghost use Rattle.chip_blocks.specs.pulses.Regime as regimes;
ghost use Rattle.module_machines.specs.pwm.Output as spec;
ghost use Rattle.module_machines.specs.pwm.Units.{IsBegun, chosen, output_in, regime_in};
ghost use Rattle.audit_pulses.specs.Stands.{commit_of, output_of, regime_of};

use crate::regime::{Next, Regime, turns_to};
use module_machines::pwm::PwmEdge;

/// What an output does.
#[derive(Clone, Copy)]
pub enum Output {
    /// It is idle at a level, high or low.
    Idle(bool),
    /// It runs by a regime.
    Runs(Regime),
    /// It runs by a regime up to the start of the next.
    GivesWay(Regime, Next),
}

/// A regime gives way to a new period and absolute duty at the end of the period that runs, and at once where it has none.
fn succeeded(regime: Regime, now: u64, period: u32, duty: u32) -> Output
    ensures { output_of result ≡ spec.succeeded (regime_of regime) now period duty }
{
    if regime.period == 0 {
        return Output::Runs(Regime {
            start: now,
            period,
            duty,
        });
    }
    let next = Next {
        begun: regime.begun(now),
        period,
        duty,
    };
    Output::GivesWay(regime, next)
}

impl Output {
    /// Its level.
    pub(crate) fn level(self, polarity: bool, now: u64) -> bool
        ensures { result ≡ spec.level_of polarity (output_of self) now }
    {
        match self {
            Output::Idle(high) => high,
            Output::Runs(regime) => regime.level(polarity, now),
            Output::GivesWay(regime, next) => regime.standing(next, now).level(polarity, now),
        }
    }

    /// The output with a new period and absolute duty: at once where it is idle, and in place of what waited.
    pub(crate) fn with_new(self, now: u64, period: u32, duty: u32) -> Output
        ensures { output_of result ≡ spec.with_new now period duty (output_of self) }
    {
        match self {
            Output::Idle(_) => Output::Runs(Regime {
                start: now,
                period,
                duty,
            }),
            Output::Runs(regime) => succeeded(regime, now, period, duty),
            Output::GivesWay(regime, next) => {
                succeeded(regime.standing(next, now), now, period, duty)
            }
        }
    }

    /// Whether its level changed to this one after the first time and not after the second.
    fn changed(self, high: bool, to: bool, after: u64, now: u64) -> bool
        ensures { result ≡ times.changed_between to (output_in high (output_of self)) after now }
    {
        match self {
            Output::Idle(_) => false,
            Output::Runs(regime) => regime.changed(high, to, after, now),
            Output::GivesWay(regime, next) => changed_by_turn(regime, next, high, to, after, now),
        }
    }

    /// Whether a change that is chosen came after the first time and not after the second.
    pub(crate) fn turns(self, edge: PwmEdge, polarity: bool, after: u64, now: u64) -> bool
        requires { IsBegun (output_of self) after }
        ensures { result ≡ spec.turns_between edge (spec.level_of polarity (output_of self)) after now }
    {
        let rises = self.changed(polarity, true, after, now);
        let falls = self.changed(polarity, false, after, now);
        chosen(edge, rises, falls)
    }
}

/// Whether one of the chosen changes is so.
fn chosen(edge: PwmEdge, rises: bool, falls: bool) -> bool
    ensures { result ≡ chosen edge rises falls }
{
    match edge {
        PwmEdge::Rising => rises,
        PwmEdge::Falling => falls,
        PwmEdge::Both => rises || falls,
    }
}

/// Whether the level changes so at the start of a regime that comes in place of another one.
fn turns_at(regime: Regime, came: Regime, high: bool, to: bool) -> bool
    ensures { result ≡ regimes.turns_to to (regimes.regime_level (regime_in high (regime_of regime)) (came.start - 1)) (regimes.regime_level (regime_in high (regime_of came)) came.start) }
{
    let last = came.start.saturating_sub(1);
    turns_to(to, regime.level(high, last), came.level(high, came.start))
}

/// Whether the level changed so where a regime waits or has come: before the turn, at it, or after it.
fn changed_by_turn(regime: Regime, next: Next, high: bool, to: bool, after: u64, now: u64) -> bool
    ensures { result ≡ regimes.changed_by_turn to (regime_in high (regime_of regime)) (commit_of high next) after now }
{
    if !regime.gave_way(next, now) {
        return regime.changed(high, to, after, now);
    }
    let came = regime.next(next);
    let turn = came.start;
    regime.changed(high, to, after, turn.saturating_sub(1))
        || after < turn && turns_at(regime, came, high, to)
        || came.changed(high, to, after.max(turn), now)
}

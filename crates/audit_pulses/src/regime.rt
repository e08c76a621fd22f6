ghost use Rattle.std.specs.Prelude.{◌≡◌, ◌+◌, ◌-◌, ◌*◌, ◌%◌, ◌<◌, ◌≤◌, ◌^◌, not, nat_lt};
ghost use Rattle.chip_blocks.specs.pulses.Regime as times;
ghost use Rattle.module_machines.specs.pwm.Output as spec;
ghost use Rattle.module_machines.specs.pwm.Units.{regime_in};
ghost use Rattle.audit_pulses.specs.Stands.{regime_of, next_of};

/// A period and an absolute duty from a time on, in peripheral ticks.
#[derive(Clone, Copy)]
pub struct Regime {
    /// When its first period begins.
    pub start: u64,
    /// The length of each period.
    pub period: u32,
    /// For how long of each period the output has the polarity's level.
    pub duty: u32,
}

/// A regime that waits for the end of the period that runs.
#[derive(Clone, Copy)]
pub struct Next {
    /// When that period began.
    pub begun: u64,
    /// The length of each period.
    pub period: u32,
    /// For how long of each period the output has the polarity's level.
    pub duty: u32,
}

/// Whether a change from one level to another is one to this level.
pub(crate) fn turns_to(to: bool, before: bool, after: bool) -> bool
    ensures { result ≡ times.turns_to to before after }
{
    if to {
        !before && after
    } else {
        before && !after
    }
}

/// An absolute duty: a duty of 0x8000 is the whole period, and one above is taken as that.
pub(crate) fn absolute(period: u32, duty: u32) -> u32
    ensures { result ≡ spec.absolute period duty }
{
    let share = if duty < 0x8000 { duty } else { 0x8000 };
    (u64::from(period) * u64::from(share) / 0x8000) as u32
}

impl Regime {
    /// For how long the running period has run.
    fn phase(self, now: u64) -> u64
        requires { 0 < self.period }
        ensures value { result ≡ (now - self.start) % self.period }
        ensures small { result < self.period }
        ensures within { result ≤ now }
    {
        now.saturating_sub(self.start) % u64::from(self.period)
    }

    /// When the period began that runs.
    pub(crate) fn begun(self, now: u64) -> u64
        requires { 0 < self.period }
        ensures { result + self.period ≡ spec.period_end (regime_of self) now }
    {
        now - self.phase(now)
    }

    /// The level by it.
    pub(crate) fn level(self, polarity: bool, now: u64) -> bool
        ensures { result ≡ spec.regime_level polarity (regime_of self) now }
    {
        if self.period != 0 && self.phase(now) < u64::from(self.duty) {
            polarity
        } else {
            !polarity
        }
    }

    /// Whether the level changes at all.
    fn alternates(self, high: bool) -> bool
        ensures { result ≡ times.alternates (regime_in high (regime_of self)).wave }
    {
        0 < self.duty && self.duty < self.period
    }

    /// The changes to a level that came not after a time: to the polarity where a period ends, to the opposite where a duty does.
    fn changes(self, high: bool, to: bool, time: u64) -> u64
        requires { 1 < self.period }
        ensures { result ≡ times.changes_by to (regime_in high (regime_of self)) time }
    {
        if to {
            if high {
                self.periods(high, time)
            } else {
                self.duties(high, time)
            }
        } else if high {
            self.duties(high, time)
        } else {
            self.periods(high, time)
        }
    }

    /// The duties that ended not after a time: one of each period that ended, and that of the running one where it is over.
    fn duties(self, high: bool, time: u64) -> u64
        requires { 1 < self.period }
        ensures { result ≡ times.duties_by (regime_in high (regime_of self)) time }
    {
        let periods = self.periods(high, time);
        if self.phase(time) < u64::from(self.duty) {
            periods
        } else {
            periods + 1
        }
    }

    /// The periods that ended not after a time.
    fn periods(self, _high: bool, time: u64) -> u64
        requires { 1 < self.period }
        ensures value { result ≡ times.periods_by (regime_in _high (regime_of self)) time }
        ensures within { result < 2 ^ 63 }
    {
        time.saturating_sub(self.start) / u64::from(self.period)
    }

    /// Whether the level changed to this one after the first time and not after the second.
    pub(crate) fn changed(self, high: bool, to: bool, after: u64, now: u64) -> bool
        ensures { result ≡ times.regime_changed to (regime_in high (regime_of self)) after now }
    {
        if !self.alternates(high) {
            return false;
        }
        self.changes(high, to, after) < self.changes(high, to, now)
    }

    /// Whether the next one's time has come.
    pub(crate) fn gave_way(self, next: Next, now: u64) -> bool
        ensures { result ≡ not (nat_lt now (next_of self next).start) }
    {
        match next.begun.checked_add(u64::from(self.period)) {
            Some(turn) => turn <= now,
            None => false,
        }
    }

    /// The next one, whose time comes.
    pub(crate) fn next(self, next: Next) -> Regime
        requires { (next_of self next).start < 2 ^ 64 }
        ensures { regime_of result ≡ next_of self next }
    {
        Regime {
            start: next.begun + u64::from(self.period),
            period: next.period,
            duty: next.duty,
        }
    }

    /// The one that stands at a time, this one or the next.
    pub(crate) fn standing(self, next: Next, now: u64) -> Regime
        ensures { regime_of result ≡ spec.standing (regime_of self) (next_of self next) now }
    {
        if self.gave_way(next, now) {
            self.next(next)
        } else {
            self
        }
    }
}

ghost use Rattle.std.specs.Prelude.{◌≡◌, ◌<◌, ◌≤◌, ◌^◌, not, nat_lt};
ghost use Rattle.chip_blocks.specs.pulses.Regime as spec;

/// A period, a duty and a polarity.
#[derive(Clone, Copy)]
pub struct Wave {
    /// The period, in peripheral ticks.
    pub period: u32,
    /// For how many ticks of each period the output has the polarity's level.
    pub duty: u32,
    /// Whether the polarity is high.
    pub high: bool,
}

/// A wave from a time on.
#[derive(Clone, Copy)]
pub struct Regime {
    /// When its first period begins.
    pub start: u64,
    /// What the output does.
    pub wave: Wave,
}

/// A wave that was committed while another regime stood, and takes effect at the end of its period.
#[derive(Clone, Copy)]
pub struct Commit {
    /// When that period began.
    pub begun: u64,
    /// What the output does from its end on.
    pub wave: Wave,
}

/// Whether a change from one level to another is one to this level.
pub fn turns_to(to: bool, before: bool, after: bool) -> bool
    ensures { result ≡ spec.turns_to to before after }
{
    if to {
        !before && after
    } else {
        before && !after
    }
}

impl Wave {
    /// Whether the level changes at all.
    fn alternates(&self) -> bool
        ensures { result ≡ spec.alternates self.now }
    {
        0 < self.duty && self.duty < self.period
    }
}

impl Regime {
    /// The level of the output.
    pub fn level(&self, now: u64) -> bool
        ensures { result ≡ spec.regime_level self.now now }
    {
        if self.wave.period == 0 {
            return !self.wave.high;
        }
        if self.has_duty(now) {
            self.wave.high
        } else {
            !self.wave.high
        }
    }

    /// Whether the duty of the running period isn't over.
    fn has_duty(&self, now: u64) -> bool
        requires { 0 < self.now.wave.period }
        ensures { result ≡ nat_lt (spec.phase_at self.now now) self.now.wave.duty }
    {
        self.phase(now) < u64::from(self.wave.duty)
    }

    /// For how long the running period has run.
    fn phase(&self, now: u64) -> u64
        requires { 0 < self.now.wave.period }
        ensures { result ≡ spec.phase_at self.now now }
    {
        now.saturating_sub(self.start) % u64::from(self.wave.period)
    }

    /// When the period began that runs.
    pub fn begun(&self, now: u64) -> u64
        requires { 0 < self.now.wave.period }
        ensures { result ≡ spec.period_begin self.now now }
    {
        now.saturating_sub(self.phase(now))
    }

    /// The changes to a level that came not after a time.
    fn changes(&self, to: bool, time: u64) -> u64
        requires { 1 < self.now.wave.period }
        ensures { result ≡ spec.changes_by to self.now time }
    {
        let over = if to == self.wave.high || self.has_duty(time) {
            0
        } else {
            1
        };
        self.periods(time) + over
    }

    /// The periods that ended not after a time.
    fn periods(&self, time: u64) -> u64
        requires { 1 < self.now.wave.period }
        ensures value { result ≡ spec.periods_by self.now time }
        ensures within { result < 2 ^ 63 }
    {
        time.saturating_sub(self.start) / u64::from(self.wave.period)
    }

    /// Whether the level changed to this one after the first time and not after the second.
    pub fn changed(&self, to: bool, after: u64, now: u64) -> bool
        ensures { result ≡ spec.regime_changed to self.now after now }
    {
        if !self.wave.alternates() {
            return false;
        }
        self.changes(to, after) < self.changes(to, now)
    }

    /// Whether a commit has taken effect.
    fn has_turned(&self, commit: &Commit, now: u64) -> bool
        ensures { result ≡ not (nat_lt now (spec.turn_of self.now commit.now)) }
    {
        match commit.begun.checked_add(u64::from(self.wave.period)) {
            Some(turn) => turn <= now,
            None => false,
        }
    }

    /// The regime that a commit leaves.
    fn next(&self, commit: &Commit) -> Regime
        requires { spec.turn_of self.now commit.now < 2 ^ 64 }
        ensures { result ≡ spec.next_of self.now commit.now }
    {
        Regime {
            start: commit.begun + u64::from(self.wave.period),
            wave: commit.wave,
        }
    }

    /// The regime that stands at a time, this one or the committed one.
    pub fn at(&self, commit: &Commit, now: u64) -> Regime
        ensures { result ≡ spec.regime_at self.now commit.now now }
    {
        if self.has_turned(commit, now) {
            self.next(commit)
        } else {
            *self
        }
    }

    /// Whether the level changed to this one after the first time and not after the second, where a commit
    /// waits or has taken effect.
    pub fn changed_by_turn(&self, commit: &Commit, to: bool, after: u64, now: u64) -> bool
        ensures { result ≡ spec.changed_by_turn to self.now commit.now after now }
    {
        if !self.has_turned(commit, now) {
            return self.changed(to, after, now);
        }
        let next = self.next(commit);
        let turn = next.start;
        let last = turn.saturating_sub(1);
        self.changed(to, after, last)
            || after < turn && turns_to(to, self.level(last), next.level(turn))
            || next.changed(to, after.max(turn), now)
    }
}

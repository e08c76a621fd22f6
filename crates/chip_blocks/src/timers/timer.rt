ghost use Rattle.std.specs.Prelude.{◌≡◌, ℕ};
ghost use Rattle.chip_blocks.specs.timers.Timers.{acting, counter as counter_of, is_running, is_flagged, idle, gate_set, gate_clear, zero_count, zeroed, flag_clear, count_at, counts_on, expired_between};

use crate::timers::run::Run;

/// A counter.
#[derive(Clone, Copy)]
pub enum Count {
    /// It stands still at a value.
    Still(u32),
    /// It was started. A one-shot counter that has reached its target stands there.
    Since(Run),
}

/// What ones written to a register of the block do to a channel.
#[derive(Clone, Copy)]
pub enum Act {
    /// `T.GATESET`
    Start,
    /// `T.GATECLR`
    Stop,
    /// `T.ZERO`
    Zero,
    /// `T.FLAGS`
    Clear,
}

/// A channel.
#[derive(Clone, Copy)]
pub struct Timer {
    /// `T<c>.TARGET`
    pub target: u32,
    /// `T<c>.PRE`
    pub prescaler: u32,
    /// The counter.
    pub count: Count,
    /// Whether a flag of earlier counting stands.
    pub kept: bool,
    /// An expiry after this time sets the flag.
    pub watched: u64,
}

impl Count {
    fn at(&self, now: u64) -> u32
        ensures { result ≡ count_at self.now now }
    {
        match self {
            Count::Still(value) => *value,
            Count::Since(run) => run.counter(now),
        }
    }

    fn goes_on(&self, now: u64) -> bool
        ensures { result ≡ counts_on self.now now }
    {
        match self {
            Count::Still(_) => false,
            Count::Since(run) => run.goes_on(now),
        }
    }

    fn expired(&self, after: u64, now: u64) -> bool
        ensures { result ≡ expired_between self.now after now }
    {
        match self {
            Count::Still(_) => false,
            Count::Since(run) => run.expiries(after) < run.expiries(now),
        }
    }

    fn zero(&self, now: u64) -> Count
        ensures { result ≡ zero_count self.now now }
    {
        match self {
            Count::Since(run) if run.goes_on(now) => Count::Since(run.again(now)),
            _ => Count::Still(0),
        }
    }
}

impl Timer {
    /// A channel as after a reset.
    pub fn new() -> Timer
        ensures { result ≡ idle }
    {
        Timer {
            target: 0,
            prescaler: 0,
            count: Count::Still(0),
            kept: false,
            watched: 0,
        }
    }

    /// The counter.
    pub fn counter(&self, now: u64) -> u32
        ensures { result ≡ counter_of self.now now }
    {
        self.count.at(now)
    }

    /// Its bit of `T.RUN`.
    pub fn running(&self, now: u64) -> bool
        ensures { result ≡ is_running self.now now }
    {
        self.count.goes_on(now)
    }

    /// Its bit of `T.FLAGS`.
    pub fn flagged(&self, now: u64) -> bool
        ensures { result ≡ is_flagged self.now now }
    {
        self.kept || self.count.expired(self.watched, now)
    }

    /// What a one written to its bit does.
    pub fn act(&mut self, act: Act, one_shot: bool, now: u64)
        ensures { self.new ≡ acting act one_shot now self.old }
    {
        match act {
            Act::Start => self.start(one_shot, now),
            Act::Stop => self.stop(now),
            Act::Zero => self.zero(now),
            Act::Clear => self.clear(now),
        }
    }

    /// Starts the counter from 0, unless its target or its prescaler is 0. The flag stays.
    fn start(&mut self, one_shot: bool, now: u64)
        ensures { self.new ≡ gate_set one_shot now self.old }
    {
        if self.target != 0 && self.prescaler != 0 {
            self.kept = self.flagged(now);
            self.watched = now;
            self.count = Count::Since(Run::new(now, self.target, self.prescaler, one_shot));
        }
    }

    /// Stops a running counter. Its value and the flag stay.
    fn stop(&mut self, now: u64)
        ensures { self.new ≡ gate_clear now self.old }
    {
        if self.running(now) {
            self.kept = self.flagged(now);
            self.count = Count::Still(self.counter(now));
        }
    }

    /// Makes the counter 0. A running one counts on, and the flag stays.
    fn zero(&mut self, now: u64)
        ensures { self.new ≡ zeroed now self.old }
    {
        self.kept = self.flagged(now);
        self.watched = now;
        self.count = self.count.zero(now);
    }

    /// Clears the flag.
    fn clear(&mut self, now: u64)
        ensures { self.new ≡ flag_clear now self.old }
    {
        self.kept = false;
        self.watched = now;
    }
}

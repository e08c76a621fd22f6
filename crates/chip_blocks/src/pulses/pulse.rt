ghost use Rattle.std.specs.Prelude.{◌≡◌};
ghost use Rattle.chip_blocks.specs.pulses.Pulses as spec;

use crate::pulses::regime::{Commit, Regime, Wave, turns_to};

/// What the output does.
#[derive(Clone, Copy)]
pub enum Output {
    /// It is idle at a level.
    Idle(bool),
    /// It follows a regime.
    Runs(Regime),
    /// It follows a regime up to the end of a period, and from there on what was committed.
    Turns(Regime, Commit),
}

/// What is known of the changes to one level.
#[derive(Clone, Copy)]
pub struct Mark {
    /// Whether a flag of earlier output stands.
    pub kept: bool,
    /// A change after this time sets the flag.
    pub watched: u64,
}

/// A channel.
#[derive(Clone, Copy)]
pub struct Pulse {
    /// `P<c>.PERIOD`, `P<c>.DUTY` and `P<c>.POL`.
    pub wave: Wave,
    /// The output.
    pub output: Output,
    /// The changes to high.
    pub rising: Mark,
    /// The changes to low.
    pub falling: Mark,
}

impl Output {
    fn level(&self, now: u64) -> bool
        ensures { result ≡ spec.output_level self.now now }
    {
        match self {
            Output::Idle(level) => *level,
            Output::Runs(regime) => regime.level(now),
            Output::Turns(regime, commit) => regime.at(commit, now).level(now),
        }
    }

    /// Whether it changed to a level after the first time and not after the second, by time.
    fn changed(&self, to: bool, after: u64, now: u64) -> bool
        ensures { result ≡ spec.changed_between to self.now after now }
    {
        match self {
            Output::Idle(_) => false,
            Output::Runs(regime) => regime.changed(to, after, now),
            Output::Turns(regime, commit) => regime.changed_by_turn(commit, to, after, now),
        }
    }

    /// What a commit makes of it.
    fn commit(&self, wave: Wave, now: u64) -> Output
        ensures { result ≡ spec.committed wave now self.now }
    {
        match self {
            Output::Idle(_) => Output::Runs(Regime { start: now, wave }),
            Output::Runs(regime) => commit_over(*regime, wave, now),
            Output::Turns(regime, commit) => commit_over(regime.at(commit, now), wave, now),
        }
    }
}

/// A commit while a regime stands: it takes effect at the end of the period, at once where there is none.
fn commit_over(regime: Regime, wave: Wave, now: u64) -> Output
    ensures { result ≡ spec.commit_over regime wave now }
{
    if regime.wave.period == 0 {
        Output::Runs(Regime { start: now, wave })
    } else {
        let begun = regime.begun(now);
        Output::Turns(regime, Commit { begun, wave })
    }
}

impl Pulse {
    /// A channel as after a reset.
    pub fn new() -> Pulse
        ensures { result ≡ spec.silent }
    {
        let mark = Mark {
            kept: false,
            watched: 0,
        };
        Pulse {
            wave: Wave {
                period: 0,
                duty: 0,
                high: false,
            },
            output: Output::Idle(false),
            rising: mark,
            falling: mark,
        }
    }

    /// The level of the output.
    pub fn level(&self, now: u64) -> bool
        ensures { result ≡ spec.level_of self.now now }
    {
        self.output.level(now)
    }

    /// The flag of changes to a level.
    pub fn flagged(&self, to: bool, now: u64) -> bool
        ensures { result ≡ spec.is_flagged to self.now now }
    {
        let mark = if to { self.rising } else { self.falling };
        mark.kept || self.output.changed(to, mark.watched, now)
    }

    /// Takes the period, the duty and the polarity, at the end of the running period or at once.
    pub fn commit(&mut self, now: u64)
        ensures { self.new ≡ spec.taken now self.old }
    {
        let output = self.output.commit(self.wave, now);
        self.put_out(output, now);
    }

    /// Makes the output idle at a level, at once. What was committed is dropped.
    pub fn rest(&mut self, level: bool, now: u64)
        ensures { self.new ≡ spec.put_out (Output.Idle level) now self.old }
    {
        self.put_out(Output::Idle(level), now);
    }

    /// Clears the flag of changes to a level.
    pub fn clear(&mut self, to: bool, now: u64)
        ensures { self.new ≡ spec.flag_clear to now self.old }
    {
        let mark = Mark {
            kept: false,
            watched: now,
        };
        if to {
            self.rising = mark;
        } else {
            self.falling = mark;
        }
    }

    /// Gives the output something else to do. The flags stay, and a change at once sets one.
    fn put_out(&mut self, output: Output, now: u64)
        ensures { self.new ≡ spec.put_out output now self.old }
    {
        let rising = self.marked(true, &output, now);
        let falling = self.marked(false, &output, now);
        self.output = output;
        self.rising = rising;
        self.falling = falling;
    }

    fn marked(&self, to: bool, output: &Output, now: u64) -> Mark
        ensures { result ≡ spec.marked to output.now now self.now }
    {
        Mark {
            kept: self.flagged(to, now) || turns_to(to, self.level(now), output.level(now)),
            watched: now,
        }
    }
}

ghost use Rattle.std.specs.Prelude.{◌≡◌};
ghost use Rattle.module_machines.specs.gpt.Machine as spec;
ghost use Rattle.audit_timers.specs.Stands.{timing_of, HasTarget};

use crate::course::Course;
use module_machines::gpt::{Change, Channel, Switches};

/// A channel.
#[derive(Clone, Copy)]
pub struct Timing {
    /// What it is about.
    pub course: Course,
    /// When its mark was last dropped, in peripheral ticks.
    pub dropped: u64,
    /// Its switches.
    pub switches: Switches,
}

/// A channel after `Gpt_Init`.
pub(crate) const UNTOUCHED: Timing = Timing {
    course: Course::Never,
    dropped: 0,
    switches: Switches {
        notification: false,
        wakeup: false,
        woken: false,
    },
};

impl Timing {
    /// Whether an expiry wasn't served.
    pub(crate) fn marked(self, channel: Option<Channel>, now: u64) -> bool
        ensures { result ≡ spec.is_marked channel now (timing_of self) }
    {
        self.course.expired(channel, self.dropped, now)
    }

    /// Stopped where it runs, and without a mark; else as it was.
    pub(crate) fn stopped(self, channel: Option<Channel>, now: u64) -> Timing
        requires { HasTarget self.course }
        ensures is { timing_of result ≡ spec.stopped channel now (timing_of self) }
        ensures target { HasTarget result.course }
    {
        if self.course.runs(channel, now) {
            Timing {
                course: Course::Stopped(self.course.elapsed(channel, now), self.course.target()),
                dropped: now,
                switches: self.switches,
            }
        } else {
            self
        }
    }

    /// As it is after the module falls asleep.
    pub(crate) fn slept(self, channel: Option<Channel>, now: u64) -> Timing
        requires { HasTarget self.course }
        ensures is { timing_of result ≡ spec.slept channel now (timing_of self) }
        ensures target { HasTarget result.course }
    {
        if self.switches.wakeup {
            self
        } else {
            Timing {
                dropped: now,
                ..self.stopped(channel, now)
            }
        }
    }
}

/// Switches after a service about them.
pub(crate) fn changed(switches: Switches, by: Change) -> Switches
    ensures { result ≡ spec.changed by switches }
{
    match by {
        Change::Notification(on) => Switches {
            notification: on,
            ..switches
        },
        Change::Wakeup(on) => Switches {
            wakeup: on,
            ..switches
        },
        Change::Check => Switches {
            woken: false,
            ..switches
        },
    }
}

/// Whether a service about switches tells of a wakeup.
pub(crate) fn tells(switches: Switches, by: Change) -> bool
    ensures { result ≡ spec.tells_event by switches }
{
    matches!(by, Change::Check) && switches.woken
}

ghost use Rattle.std.specs.Prelude.{◌≡◌, ◌<◌, nat_lt};
ghost use Rattle.mcal_base.specs.Expiry.{expiries};
ghost use Rattle.module_machines.specs.gpt.Machine as spec;
ghost use Rattle.module_machines.specs.gpt.Table as table;
ghost use Rattle.audit_timers.specs.Stands.{course_of, HasTarget};

use audit_base::quotient;
use module_machines::gpt::Channel;

/// What a channel is about.
#[derive(Clone, Copy)]
pub enum Course {
    /// It was never started.
    Never,
    /// It runs since a time, to a target.
    Running(u64, u32),
    /// It stopped at a value, before a target.
    Stopped(u32, u32),
}

/// The prescaler of a channel, 0 where it isn't configured.
pub(crate) fn prescaler(channel: Option<Channel>) -> u32
    ensures { result ≡ spec.prescaler_of channel }
{
    match channel {
        Some(channel) => channel.prescaler,
        None => 0,
    }
}

/// Whether a channel is one-shot.
pub(crate) fn one_shot(channel: Option<Channel>) -> bool
    ensures { result ≡ table.one_shot_of channel }
{
    match channel {
        Some(channel) => channel.one_shot,
        None => false,
    }
}

/// How many expiries came not after a time.
pub(crate) fn expiries_by(one_shot: bool, start: u64, target: u32, prescaler: u32, time: u64) -> u64
    ensures { result ≡ expiries one_shot start target prescaler time }
{
    let period = u64::from(target) * u64::from(prescaler);
    let count = quotient(time.saturating_sub(start), period);
    if one_shot { count.min(1) } else { count }
}

impl Course {
    /// The elapsed value.
    pub(crate) fn elapsed(self, channel: Option<Channel>, now: u64) -> u32
        requires { HasTarget self }
        ensures { result ≡ spec.elapsed channel now (course_of self) }
    {
        match self {
            Course::Never => 0,
            Course::Running(start, target) => {
                let counts = quotient(now.saturating_sub(start), u64::from(prescaler(channel)));
                if one_shot(channel) {
                    counts.min(u64::from(target)) as u32
                } else {
                    (counts % u64::from(target)) as u32
                }
            }
            Course::Stopped(value, _) => value,
        }
    }

    /// The target of the last start.
    pub(crate) fn target(self) -> u32
        ensures { result ≡ spec.target_of (course_of self) }
    {
        match self {
            Course::Never => 0,
            Course::Running(_, target) | Course::Stopped(_, target) => target,
        }
    }

    /// What is left of it.
    pub(crate) fn remaining(self, channel: Option<Channel>, now: u64) -> u32
        requires { HasTarget self }
        ensures { result ≡ spec.remaining channel now (course_of self) }
    {
        self.target().saturating_sub(self.elapsed(channel, now))
    }

    /// Whether it runs, and isn't expired.
    pub(crate) fn runs(self, channel: Option<Channel>, now: u64) -> bool
        ensures { result ≡ spec.runs channel now (course_of self) }
    {
        match self {
            Course::Running(start, target) => {
                !one_shot(channel)
                    || quotient(now.saturating_sub(start), u64::from(prescaler(channel)))
                        < u64::from(target)
            }
            Course::Never | Course::Stopped(..) => false,
        }
    }

    /// Whether an expiry came after a time, and not after now.
    pub(crate) fn expired(self, channel: Option<Channel>, after: u64, now: u64) -> bool
        ensures { result ≡ spec.expired channel after now (course_of self) }
    {
        match self {
            Course::Running(start, target) => {
                let prescaler = prescaler(channel);
                let one_shot = one_shot(channel);
                let before = expiries_by(one_shot, start, target, prescaler, after);
                before < expiries_by(one_shot, start, target, prescaler, now)
            }
            Course::Never | Course::Stopped(..) => false,
        }
    }
}

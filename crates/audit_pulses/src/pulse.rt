ghost use Rattle.std.specs.Prelude.{◌≡◌, ◌≤◌};
ghost use Rattle.module_machines.specs.pwm.Machine as spec;
ghost use Rattle.module_machines.specs.pwm.Output as outputs;
ghost use Rattle.module_machines.specs.pwm.Units.{IsBegun};
ghost use Rattle.module_machines.specs.pwm.Table as table;
ghost use Rattle.audit_pulses.specs.Stands.{output_of, pulse_of, PulseFits};

use crate::output::Output;
use crate::regime::{Regime, absolute};
use module_machines::pwm::{Channel, ChannelCall, PwmEdge};

/// A channel. Times are in peripheral ticks.
#[derive(Clone, Copy)]
pub struct Pulse {
    /// What its output does.
    pub output: Output,
    /// Since when that counts for the mark.
    pub since: u64,
    /// Whether a notified change that came before that still counts.
    pub turned: bool,
    /// The period last set.
    pub period: u32,
    /// The changes that are notified, none while the notification is off.
    pub notified: Option<PwmEdge>,
}

/// A channel after a reset: idle at low.
pub(crate) const SILENT: Pulse = Pulse {
    output: Output::Idle(false),
    since: 0,
    turned: false,
    period: 0,
    notified: None,
};

/// Whether the polarity of a channel is high.
pub(crate) fn polarity(channel: Option<Channel>) -> bool
    ensures { result ≡ table.polarity_of channel }
{
    match channel {
        Some(channel) => channel.polarity_high,
        None => false,
    }
}

/// Whether a change of the level is notified.
fn is_notified(notified: Option<PwmEdge>, before: bool, after: bool) -> bool
    ensures { result ≡ spec.is_notified notified before after }
{
    match notified {
        Some(PwmEdge::Rising) => !before && after,
        Some(PwmEdge::Falling) => before && !after,
        Some(PwmEdge::Both) => before != after,
        None => false,
    }
}

impl Pulse {
    /// Whether a notified change wasn't served.
    pub(crate) fn marked(self, channel: Option<Channel>, now: u64) -> bool
        requires { IsBegun (output_of self.output) self.since }
        ensures { result ≡ spec.is_marked channel now (pulse_of self) }
    {
        match self.notified {
            Some(edge) => {
                self.turned || self.output.turns(edge, polarity(channel), self.since, now)
            }
            None => false,
        }
    }

    /// From now on its output does this.
    fn put_out(self, channel: Option<Channel>, now: u64, output: Output) -> Pulse
        requires { IsBegun (output_of self.output) self.since }
        ensures is { pulse_of result ≡ spec.put_out channel now (output_of output) (pulse_of self) }
        ensures output { result.output ≡ output }
        ensures since { result.since ≡ now }
    {
        let polarity = polarity(channel);
        let before = self.output.level(polarity, now);
        let after = output.level(polarity, now);
        let turned = self.marked(channel, now) || is_notified(self.notified, before, after);
        Pulse {
            output,
            since: now,
            turned,
            ..self
        }
    }

    /// What it did before now counts no longer.
    pub(crate) fn forgotten(self, now: u64) -> Pulse
        requires { PulseFits now self }
        ensures is { pulse_of result ≡ spec.forgotten now (pulse_of self) }
        ensures fits { PulseFits now result }
    {
        Pulse {
            since: now,
            turned: false,
            ..self
        }
    }

    /// Its output with this period and this duty.
    fn set_to(self, channel: Option<Channel>, now: u64, period: u32, duty: u32) -> Pulse
        requires { PulseFits now self }
        ensures is { pulse_of result ≡ spec.set_to channel now period duty (pulse_of self) }
        ensures fits { PulseFits now result }
    {
        let output = self.output.with_new(now, period, absolute(period, duty));
        Pulse {
            period,
            ..self.put_out(channel, now, output)
        }
    }

    /// Its output is idle from now on, at a level.
    fn idled(self, channel: Option<Channel>, now: u64, high: bool) -> Pulse
        requires { PulseFits now self }
        ensures is { pulse_of result ≡ spec.put_out channel now (outputs.Idle high) (pulse_of self) }
        ensures fits { PulseFits now result }
    {
        self.put_out(channel, now, Output::Idle(high))
    }

    /// Its notification is switched, without a mark.
    fn switched(self, now: u64, notified: Option<PwmEdge>) -> Pulse
        requires { PulseFits now self }
        ensures is { pulse_of result ≡ spec.switched now notified (pulse_of self) }
        ensures fits { PulseFits now result }
    {
        Pulse {
            notified,
            ..self.forgotten(now)
        }
    }

    /// Started at a time, not after now, with its defaults, where it is configured.
    pub(crate) fn started(self, channel: Option<Channel>, time: u64, _now: u64) -> Pulse
        requires fits { PulseFits _now self }
        requires past { time ≤ _now }
        ensures is { pulse_of result ≡ spec.started channel time (pulse_of self) }
        ensures fits { PulseFits _now result }
    {
        match channel {
            Some(channel) => Pulse {
                output: Output::Runs(Regime {
                    start: time,
                    period: channel.period_ticks,
                    duty: absolute(channel.period_ticks, channel.duty_cycle_default),
                }),
                since: time,
                turned: false,
                period: channel.period_ticks,
                notified: None,
            },
            None => self,
        }
    }

    /// Set to its idle level, the notification off, where it is configured.
    pub(crate) fn ended(self, channel: Option<Channel>, now: u64) -> Pulse
        requires { PulseFits now self }
        ensures is { pulse_of result ≡ spec.ended channel now (pulse_of self) }
        ensures fits { PulseFits now result }
    {
        match channel {
            Some(channel) => Pulse {
                output: Output::Idle(channel.idle_high),
                since: now,
                turned: false,
                notified: None,
                ..self
            },
            None => self,
        }
    }

    /// After a call about it without an error.
    pub(crate) fn worked(self, channel: Option<Channel>, now: u64, call: ChannelCall) -> Pulse
        requires { PulseFits now self }
        ensures is { pulse_of result ≡ spec.channel_work channel now call (pulse_of self) }
        ensures fits { PulseFits now result }
    {
        let Some(configured) = channel else {
            return self;
        };
        match call {
            ChannelCall::SetDutyCycle(duty) => self.set_to(channel, now, self.period, duty),
            ChannelCall::SetPeriodAndDuty(period, duty) => {
                self.set_to(channel, now, period, duty)
            }
            ChannelCall::SetOutputToIdle => self.idled(channel, now, configured.idle_high),
            ChannelCall::EnableNotification(edge) => self.switched(now, Some(edge)),
            ChannelCall::DisableNotification => self.switched(now, None),
        }
    }
}

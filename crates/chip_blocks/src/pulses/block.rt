ghost use Rattle.std.specs.Prelude.{◌≡◌, ◌+◌, ◌<◌, ◌^◌};
ghost use Rattle.chip_blocks.specs.pulses.Pulses as spec;

use crate::pulses::pulse::Pulse;
use mcal_base::{Config, Reg, is_set};
use std::marker::Model;

/// How many channels there are.
const CHANNELS: u32 = 8;

/// The pulse block: the registers `P<c>.PERIOD` to `P.FLAGS` of eight channels, as they stand at the
/// peripheral time that it keeps.
#[derive(Drop)]
pub struct PulseBlock {
    time: u64,
    pulses: [Pulse; 8],
    edges: u32,
}

impl Model for PulseBlock {
    ghost use Rattle.std.specs.Prelude.{◌≡◌, length};
    ghost use Rattle.chip_blocks.specs.pulses.Pulses.{Pulses};

    ghost Value = { Pulses };

    ghost view = { λ b. record { time = b.time; pulses = b.pulses; edges = b.edges } };

    ghost invariant = { λ b. length b.pulses ≡ 8 };

    ghost inverse = { λ b. record { time = b.time; pulses = b.pulses; edges = b.edges } };
}

impl PulseBlock {
    /// All registers 0, at time 0. The block is the same under every configuration.
    pub fn new(_config: &Config) -> PulseBlock
        ensures { result ≡ spec.pulses_fresh 0 }
    {
        PulseBlock::fresh(0)
    }

    pub(crate) fn fresh(time: u64) -> PulseBlock
        ensures { result ≡ spec.pulses_fresh time }
    {
        PulseBlock {
            time,
            pulses: [Pulse::new(); 8],
            edges: 0,
        }
    }

    /// A reset: all registers become 0, every output is idle at low, and the time goes on.
    pub fn reset(&mut self)
        ensures { self.new ≡ spec.pulses_fresh self.old.time }
    {
        *self = PulseBlock::fresh(self.time);
    }

    /// Reads a register. It changes nothing.
    pub fn read(&mut self, reg: Reg) -> u32
        ensures value { result ≡ spec.read_of self.old reg }
        ensures state { self.new ≡ self.old }
    {
        match reg {
            Reg::PulseOut(channel) => u32::from(self.level(channel)),
            Reg::PulseFlags => self.edge_flags(),
            _ => 0,
        }
    }

    /// Writes a register. A register without a stated write ignores it, and `P<c>.IDLE` ignores a value above 1.
    pub fn write(&mut self, reg: Reg, value: u32)
        ensures { self.new ≡ spec.after_write self.old reg value }
    {
        match reg {
            Reg::PulsePeriod(channel) => self.set_period(channel, value),
            Reg::PulseDuty(channel) => self.set_duty(channel, value),
            Reg::PulsePolarity(channel) => self.set_polarity(channel, value),
            Reg::PulseCommit(channel) => self.commit(channel),
            Reg::PulseIdle(channel) => self.rest(channel, value),
            Reg::PulseEdges => self.edges = value,
            Reg::PulseFlags => {
                self.clear(true, value);
                self.clear(false, value >> 8);
            }
            _ => {}
        }
    }

    /// The passing of so many peripheral ticks.
    pub fn tick(&mut self, ticks: u64)
        requires { self.old.time + ticks < 2 ^ 64 }
        ensures { self.new ≡ spec.ticked self.old ticks }
    {
        self.time += ticks;
    }

    /// The level of a channel's output, and low where there is no such channel.
    pub fn level(&self, channel: u32) -> bool
        ensures { result ≡ spec.level_at self.now channel }
    {
        channel < CHANNELS && self.pulses[channel as usize].level(self.time)
    }

    /// The flags of lines 8 to 15: bit 8 + c is that of channel c.
    pub fn flags(&self) -> u32
        ensures { result ≡ spec.lines_of self.now }
    {
        self.due_channels() << 8
    }

    /// The channels whose lines' flags stand, a bit a channel.
    fn due_channels(&self) -> u32
        ensures { result ≡ spec.due_channels self.now }
    {
        let mut bits = 0;
        for channel in 0..CHANNELS {
            if self.due(channel) {
                bits |= 1 << channel;
            }
        }
        bits
    }

    /// Whether one of a channel's flags stands and is chosen.
    fn due(&self, channel: u32) -> bool
        requires { channel < 8 }
        ensures { result ≡ spec.is_due self.now channel }
    {
        is_set(self.edges, channel) && self.flagged(true, channel)
            || is_set(self.edges, channel + 8) && self.flagged(false, channel)
    }

    fn flagged(&self, to: bool, channel: u32) -> bool
        requires { channel < 8 }
        ensures { result ≡ spec.is_flagged to (spec.pulse_at self.now channel) self.now.time }
    {
        self.pulses[channel as usize].flagged(to, self.time)
    }

    fn edge_flags(&self) -> u32
        ensures { result ≡ spec.flags_of self.now }
    {
        self.flags_to(false) << 8 | self.flags_to(true)
    }

    fn flags_to(&self, to: bool) -> u32
        ensures { result ≡ spec.flags_to to self.now }
    {
        let mut bits = 0;
        for channel in 0..CHANNELS {
            if self.flagged(to, channel) {
                bits |= 1 << channel;
            }
        }
        bits
    }

    fn set_period(&mut self, channel: u32, value: u32)
        ensures { self.new ≡ spec.after_write self.old (Reg.PulsePeriod channel) value }
    {
        if channel < CHANNELS {
            self.pulses[channel as usize].wave.period = value;
        }
    }

    fn set_duty(&mut self, channel: u32, value: u32)
        ensures { self.new ≡ spec.after_write self.old (Reg.PulseDuty channel) value }
    {
        if channel < CHANNELS {
            self.pulses[channel as usize].wave.duty = value;
        }
    }

    fn set_polarity(&mut self, channel: u32, value: u32)
        ensures { self.new ≡ spec.after_write self.old (Reg.PulsePolarity channel) value }
    {
        if channel < CHANNELS {
            self.pulses[channel as usize].wave.high = value != 0;
        }
    }

    fn commit(&mut self, channel: u32)
        ensures { self.new ≡ spec.with_pulse self.old channel (spec.taken self.old.time (spec.pulse_at self.old channel)) }
    {
        if channel < CHANNELS {
            let time = self.time;
            self.pulses[channel as usize].commit(time);
        }
    }

    fn rest(&mut self, channel: u32, value: u32)
        ensures { self.new ≡ spec.after_write self.old (Reg.PulseIdle channel) value }
    {
        if channel < CHANNELS && value <= 1 {
            let time = self.time;
            self.pulses[channel as usize].rest(value == 1, time);
        }
    }

    /// Clears the flags of changes to a level whose bits are set.
    fn clear(&mut self, to: bool, bits: u32)
        ensures { self.new ≡ spec.cleared to self.old bits }
    {
        let time = self.time;
        for channel in 0..CHANNELS {
            if is_set(bits, channel) {
                self.pulses[channel as usize].clear(to, time);
            }
        }
    }
}

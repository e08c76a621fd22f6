ghost use Rattle.std.specs.Prelude.{◌≡◌, ◌+◌, ◌<◌, ◌^◌};
ghost use Rattle.chip_blocks.specs.timers.Timers.{timers_fresh, timer_at, is_running, is_flagged, counter, acted, running_of, flags_of, read_of, after_read, after_write, ticked};

use crate::timers::timer::{Act, Timer};
use mcal_base::{Config, Reg, is_set};
use std::marker::Model;

/// How many channels there are.
const CHANNELS: u32 = 8;

/// The timer block: the registers `T<c>.TARGET` to `T<c>.HIGH` of eight channels, as they stand at the
/// peripheral time that it keeps.
#[derive(Drop)]
pub struct TimerBlock {
    time: u64,
    timers: [Timer; 8],
    one_shot: u32,
    latch: u32,
}

impl Model for TimerBlock {
    ghost use Rattle.std.specs.Prelude.{◌≡◌, length};
    ghost use Rattle.chip_blocks.specs.timers.Timers.{Timers};

    ghost Value = { Timers };

    ghost view = { λ b. record { time = b.time; timers = b.timers; one_shot = b.one_shot; latch = b.latch } };

    ghost invariant = { λ b. length b.timers ≡ 8 };

    ghost inverse = { λ b. record { time = b.time; timers = b.timers; one_shot = b.one_shot; latch = b.latch } };
}

impl TimerBlock {
    /// All registers 0, at time 0. The block is the same under every configuration.
    pub fn new(_config: &Config) -> TimerBlock
        ensures { result ≡ timers_fresh 0 }
    {
        TimerBlock::fresh(0)
    }

    pub(crate) fn fresh(time: u64) -> TimerBlock
        ensures { result ≡ timers_fresh time }
    {
        TimerBlock {
            time,
            timers: [Timer::new(); 8],
            one_shot: 0,
            latch: 0,
        }
    }

    /// A reset: all registers become 0, and the time goes on.
    pub fn reset(&mut self)
        ensures { self.new ≡ timers_fresh self.old.time }
    {
        *self = TimerBlock::fresh(self.time);
    }

    /// Reads a register. A read of `T<c>.LOW` latches the high half of the counter.
    pub fn read(&mut self, reg: Reg) -> u32
        ensures value { result ≡ read_of self.old reg }
        ensures state { self.new ≡ after_read self.old reg }
    {
        match reg {
            Reg::TimerRun => self.running(),
            Reg::TimerFlags => self.flags(),
            Reg::TimerLow(channel) => {
                let count = self.counter(channel);
                self.latch = count / 65_536;
                count % 65_536
            }
            Reg::TimerHigh(_) => self.latch,
            _ => 0,
        }
    }

    /// Writes a register. A register without a stated write ignores it.
    pub fn write(&mut self, reg: Reg, value: u32)
        ensures { self.new ≡ after_write self.old reg value }
    {
        match reg {
            Reg::TimerTarget(channel) => self.set_target(channel, value),
            Reg::TimerPrescaler(channel) => self.set_prescaler(channel, value),
            Reg::TimerOneShot => self.one_shot = value,
            Reg::TimerGateSet => self.act(Act::Start, value),
            Reg::TimerGateClear => self.act(Act::Stop, value),
            Reg::TimerZero => self.act(Act::Zero, value),
            Reg::TimerFlags => self.act(Act::Clear, value),
            _ => {}
        }
    }

    /// The passing of so many peripheral ticks.
    pub fn tick(&mut self, ticks: u64)
        requires { self.old.time + ticks < 2 ^ 64 }
        ensures { self.new ≡ ticked self.old ticks }
    {
        self.time += ticks;
    }

    /// The expiry flags: bit c is that of channel c.
    pub fn flags(&self) -> u32
        ensures { result ≡ flags_of self.now }
    {
        let mut bits = 0;
        for channel in 0..CHANNELS {
            if self.flagged(channel) {
                bits |= 1 << channel;
            }
        }
        bits
    }

    fn running(&self) -> u32
        ensures { result ≡ running_of self.now }
    {
        let mut bits = 0;
        for channel in 0..CHANNELS {
            if self.is_running(channel) {
                bits |= 1 << channel;
            }
        }
        bits
    }

    fn is_running(&self, channel: u32) -> bool
        requires { channel < 8 }
        ensures { result ≡ is_running (timer_at self.now channel) self.now.time }
    {
        self.timers[channel as usize].running(self.time)
    }

    fn flagged(&self, channel: u32) -> bool
        requires { channel < 8 }
        ensures { result ≡ is_flagged (timer_at self.now channel) self.now.time }
    {
        self.timers[channel as usize].flagged(self.time)
    }

    fn counter(&self, channel: u32) -> u32
        ensures { result ≡ counter (timer_at self.now channel) self.now.time }
    {
        if channel < CHANNELS {
            self.timers[channel as usize].counter(self.time)
        } else {
            0
        }
    }

    fn set_target(&mut self, channel: u32, value: u32)
        ensures { self.new ≡ after_write self.old (Reg.TimerTarget channel) value }
    {
        if channel < CHANNELS {
            self.timers[channel as usize].target = value;
        }
    }

    fn set_prescaler(&mut self, channel: u32, value: u32)
        ensures { self.new ≡ after_write self.old (Reg.TimerPrescaler channel) value }
    {
        if channel < CHANNELS {
            self.timers[channel as usize].prescaler = value;
        }
    }

    fn act(&mut self, act: Act, bits: u32)
        ensures { self.new ≡ acted act self.old bits }
    {
        let time = self.time;
        let one_shot = self.one_shot;
        for channel in 0..CHANNELS {
            if is_set(bits, channel) {
                self.timers[channel as usize].act(act, is_set(one_shot, channel), time);
            }
        }
    }
}

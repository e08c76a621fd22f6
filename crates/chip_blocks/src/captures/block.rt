ghost use Rattle.std.specs.Prelude.{◌≡◌, ◌+◌, ◌<◌, ◌/◌, ◌%◌, ◌^◌};
ghost use Rattle.chip_blocks.specs.captures.Captures as spec;

use crate::captures::capture::{Act, Capture};
use mcal_base::{Config, IcuChannel, Reg, is_set};
use std::marker::Model;

/// How many channels there are.
const CHANNELS: u32 = 8;

/// The capture block: the registers `C<c>.COND` to `C<c>.FLUSH` of eight channels, as they stand at the
/// peripheral time that it keeps.
#[derive(Drop)]
pub struct CaptureBlock {
    pins: [Option<u32>; 8],
    time: u64,
    captures: [Capture; 8],
    latch: u32,
}

impl Model for CaptureBlock {
    ghost use Rattle.std.specs.Prelude.{◌≡◌, length};
    ghost use Rattle.chip_blocks.specs.captures.Captures.{Captures};

    ghost Value = { Captures };

    ghost view = { λ b. record { pins = b.pins; time = b.time; captures = b.captures; latch = b.latch } };

    ghost invariant = { λ b. (length b.pins ≡ 8) × (length b.captures ≡ 8) };

    ghost inverse = { λ b. record { pins = b.pins; time = b.time; captures = b.captures; latch = b.latch } };
}

impl CaptureBlock {
    /// All registers 0, at time 0. A channel has the pin of the capture input of its number, if there is one.
    pub fn new(config: &Config) -> CaptureBlock
        ensures { result ≡ spec.captures_fresh (spec.pins_in config.now.icu.channels) 0 }
    {
        CaptureBlock::fresh(pins(config.icu.channels.as_slice()), 0)
    }

    pub(crate) fn fresh(pins: [Option<u32>; 8], time: u64) -> CaptureBlock
        ensures { result ≡ spec.captures_fresh pins time }
    {
        CaptureBlock {
            pins,
            time,
            captures: [
                Capture::new(),
                Capture::new(),
                Capture::new(),
                Capture::new(),
                Capture::new(),
                Capture::new(),
                Capture::new(),
                Capture::new(),
            ],
            latch: 0,
        }
    }

    /// A reset: all registers become 0 and no edge waits. The pins stay, and the time goes on.
    pub fn reset(&mut self)
        ensures { self.new ≡ spec.captures_fresh self.old.pins self.old.time }
    {
        *self = CaptureBlock::fresh(self.pins, self.time);
    }

    /// Reads a register. A read of `C<c>.COUNTLOW` or `C<c>.TIMELOW` latches the high half.
    pub fn read(&mut self, reg: Reg) -> u32
        ensures value { result ≡ spec.read_of self.old reg }
        ensures state { self.new ≡ spec.after_read self.old reg }
    {
        match reg {
            Reg::CaptureCountLow(channel) => {
                let count = self.count(channel);
                self.halve(count)
            }
            Reg::CaptureTimeLow(channel) => {
                let time = self.oldest_time(channel);
                self.halve(time)
            }
            Reg::CaptureCountHigh(_) | Reg::CaptureTimeHigh(_) => self.latch,
            Reg::CaptureInfo(channel) => self.info(channel),
            _ => 0,
        }
    }

    /// Writes a register. A register without a stated write ignores it, and so do `C<c>.COND` and `C<c>.MODE`
    /// a value that isn't listed.
    pub fn write(&mut self, reg: Reg, value: u32)
        ensures { self.new ≡ spec.after_write self.old reg value }
    {
        match reg {
            Reg::CaptureCondition(channel) => self.set_condition(channel, value),
            Reg::CaptureMode(channel) => self.set_mode(channel, value),
            Reg::CaptureGateSet => self.act(Act::Open, value),
            Reg::CaptureGateClear => self.act(Act::Close, value),
            Reg::CaptureZero(channel) => self.zero(channel),
            Reg::CapturePop(channel) => self.pop(channel),
            Reg::CaptureFlush(channel) => self.flush(channel),
            _ => {}
        }
    }

    /// An edge of a pin, to high or to low.
    pub fn edge(&mut self, pin: u32, level: bool)
        ensures { self.new ≡ spec.after_edge self.old pin level }
    {
        let channels = self.channels_at(pin);
        self.act(Act::Catch(level), channels);
    }

    /// The passing of so many peripheral ticks.
    pub fn tick(&mut self, ticks: u64)
        requires { self.old.time + ticks < 2 ^ 64 }
        ensures { self.new ≡ spec.ticked self.old ticks }
    {
        self.time += ticks;
    }

    /// The flags of lines 16 to 23: bit 16 + c is that of channel c.
    pub fn flags(&self) -> u32
        ensures { result ≡ spec.lines_of self.now }
    {
        self.waiting_channels() << 16
    }

    /// The channels with a waiting edge, a bit a channel.
    fn waiting_channels(&self) -> u32
        ensures { result ≡ spec.waiting_channels self.now }
    {
        let mut bits = 0;
        for channel in 0..CHANNELS {
            if self.is_waiting(channel) {
                bits |= 1 << channel;
            }
        }
        bits
    }

    fn is_waiting(&self, channel: u32) -> bool
        requires { channel < 8 }
        ensures { result ≡ spec.is_waiting (spec.capture_at self.now channel) }
    {
        self.captures[channel as usize].queue.is_waiting()
    }

    /// The low half of a value, whose high half goes to the latch.
    fn halve(&mut self, value: u32) -> u32
        ensures value { result ≡ value % 65536 }
        ensures state { self.new ≡ record self.old { latch = value / 65536 } }
    {
        self.latch = value / 65_536;
        value % 65_536
    }

    fn count(&self, channel: u32) -> u32
        ensures { result ≡ (spec.capture_at self.now channel).count }
    {
        if channel < CHANNELS {
            self.captures[channel as usize].count
        } else {
            0
        }
    }

    fn oldest_time(&self, channel: u32) -> u32
        ensures { result ≡ spec.oldest_time (spec.capture_at self.now channel).queue }
    {
        if channel < CHANNELS {
            self.captures[channel as usize].queue.oldest_time()
        } else {
            0
        }
    }

    fn info(&self, channel: u32) -> u32
        ensures { result ≡ spec.info_of (spec.capture_at self.now channel).queue }
    {
        if channel < CHANNELS {
            self.captures[channel as usize].queue.info()
        } else {
            0
        }
    }

    fn set_condition(&mut self, channel: u32, value: u32)
        ensures { self.new ≡ spec.after_write self.old (Reg.CaptureCondition channel) value }
    {
        if channel < CHANNELS {
            self.captures[channel as usize].set_condition(value);
        }
    }

    fn set_mode(&mut self, channel: u32, value: u32)
        ensures { self.new ≡ spec.after_write self.old (Reg.CaptureMode channel) value }
    {
        if channel < CHANNELS {
            self.captures[channel as usize].set_mode(value);
        }
    }

    fn zero(&mut self, channel: u32)
        ensures { self.new ≡ spec.with_capture self.old channel (spec.zeroed (spec.capture_at self.old channel)) }
    {
        if channel < CHANNELS {
            self.captures[channel as usize].count = 0;
        }
    }

    fn pop(&mut self, channel: u32)
        ensures { self.new ≡ spec.with_capture self.old channel (spec.popped (spec.capture_at self.old channel)) }
    {
        if channel < CHANNELS {
            self.captures[channel as usize].pop();
        }
    }

    fn flush(&mut self, channel: u32)
        ensures { self.new ≡ spec.with_capture self.old channel (spec.flushed (spec.capture_at self.old channel)) }
    {
        if channel < CHANNELS {
            self.captures[channel as usize].flush();
        }
    }

    fn act(&mut self, act: Act, bits: u32)
        ensures { self.new ≡ spec.acted act self.old bits }
    {
        let time = self.time;
        for channel in 0..CHANNELS {
            if is_set(bits, channel) {
                self.captures[channel as usize].act(act, time);
            }
        }
    }

    /// The channels whose pin this is, a bit a channel.
    fn channels_at(&self, pin: u32) -> u32
        ensures { result ≡ spec.channels_at self.now pin }
    {
        let mut bits = 0;
        for channel in 0..CHANNELS {
            if self.has_pin(channel, pin) {
                bits |= 1 << channel;
            }
        }
        bits
    }

    fn has_pin(&self, channel: u32, pin: u32) -> bool
        requires { channel < 8 }
        ensures { result ≡ spec.is_pin (spec.pin_of self.now channel) pin }
    {
        match self.pins[channel as usize] {
            Some(own) => own == pin,
            None => false,
        }
    }
}

/// The pins of the channels by number, where they are configured.
fn pins(channels: &[IcuChannel]) -> [Option<u32>; 8]
    ensures { result ≡ spec.pins_in channels.now }
{
    [
        pin(channels, 0),
        pin(channels, 1),
        pin(channels, 2),
        pin(channels, 3),
        pin(channels, 4),
        pin(channels, 5),
        pin(channels, 6),
        pin(channels, 7),
    ]
}

/// The pin of the first channel with this number.
fn pin(channels: &[IcuChannel], number: u32) -> Option<u32>
    ensures { result ≡ spec.pin_in channels.now number }
{
    for channel in channels {
        if channel.id == number {
            return Some(channel.pin);
        }
    }
    None
}

ghost use Rattle.std.specs.Prelude.{◌≡◌, ℕ, ◌+◌, ◌<◌, ◌≤◌, ◌^◌};
ghost use Rattle.chip_blocks.specs.units.Serials.{fresh, HasBegun, left as left_of, unit_at, with_unit, outgoing as outgoing_of, flags_of, read_of, after_write, after_word, after_fault, ticked};

use crate::units::serial::Serial;
use mcal_base::{Config, Reg};
use std::marker::Model;

/// How many units there are.
const UNITS: u32 = 2;

/// The serial block: the registers `S<u>.SELECT` to `S<u>.ACK` of two units, as they stand at the peripheral
/// time that it keeps.
#[derive(Drop)]
pub struct SerialBlock {
    time: u64,
    units: [Serial; 2],
}

impl Model for SerialBlock {
    ghost use Rattle.std.specs.Prelude.{◌≡◌, length};
    ghost use Rattle.chip_blocks.specs.units.Serials.{Serials, AreBegun};

    ghost Value = { Serials };

    ghost view = { λ b. record { time = b.time; units = b.units } };

    ghost invariant = { λ b. (length b.units ≡ 2) × AreBegun b.time b.units };

    ghost inverse = { λ b. record { time = b.time; units = b.units } };
}

impl SerialBlock {
    /// All registers 0, at time 0. The block is the same under every configuration.
    pub fn new(_config: &Config) -> SerialBlock
        ensures { result ≡ fresh 0 }
    {
        SerialBlock::fresh(0)
    }

    fn fresh(time: u64) -> SerialBlock
        ensures { result ≡ fresh time }
    {
        SerialBlock {
            time,
            units: [Serial::new(); 2],
        }
    }

    /// A reset: all registers become 0, and the time goes on.
    pub fn reset(&mut self)
        ensures { self.new ≡ fresh self.old.time }
    {
        *self = SerialBlock::fresh(self.time);
    }

    /// Reads a register.
    pub fn read(&mut self, reg: Reg) -> u32
        ensures value { result ≡ read_of self.old reg }
        ensures state { self.new ≡ self.old }
    {
        match reg {
            Reg::SerialReceived(unit) => self.unit(unit).received(self.time),
            Reg::SerialState(unit) | Reg::SerialWait(unit) => self.unit(unit).state(self.time),
            _ => 0,
        }
    }

    /// Writes a register. A register without a stated write ignores it. A write to `S<u>.DATA` is a `word`.
    pub fn write(&mut self, reg: Reg, value: u32)
        ensures { self.new ≡ after_write self.old reg value }
    {
        match reg {
            Reg::SerialSelect(unit) => self.set_select(unit, value),
            Reg::SerialWidth(unit) => self.set_width(unit, value),
            Reg::SerialAck(unit) => self.acknowledge(unit),
            _ => {}
        }
    }

    /// A write to `S<u>.DATA`, with the word that comes in, or 65,536 where the device refused the exchange.
    /// One that is still in transfer is dropped.
    pub fn word(&mut self, unit: u32, _sent: u32, received: u32)
        ensures { self.new ≡ after_word self.old unit received }
    {
        let mut changed = self.unit(unit);
        changed.begin(received, self.time);
        self.set_unit(unit, changed);
    }

    /// A fault on the wire: the word in transfer will end as failed. Without one it does nothing.
    pub fn fault(&mut self, unit: u32)
        ensures { self.new ≡ after_fault self.old unit }
    {
        let mut changed = self.unit(unit);
        changed.fault(self.time);
        self.set_unit(unit, changed);
    }

    /// The passing of so many peripheral ticks.
    pub fn tick(&mut self, ticks: u64)
        requires { self.old.time + ticks < 2 ^ 64 }
        ensures { self.new ≡ ticked self.old ticks }
    {
        self.time += ticks;
    }

    /// The flags of lines 26 and 27, each in the bit of its line.
    pub fn flags(&self) -> u32
        ensures { result ≡ flags_of self.now }
    {
        let first = u32::from(self.unit(0).done(self.time));
        let second = u32::from(self.unit(1).done(self.time));
        first * (1 << 26) + second * (1 << 27)
    }

    /// The peripheral ticks that the word in transfer on a unit still needs, 0 without one.
    pub fn left(&self, unit: u32) -> u64
        ensures left { result ≡ left_of (unit_at self.now unit) self.now.time }
        ensures few { result ≤ 8 }
        ensures over { (n : ℕ) → result ≤ n → left_of (unit_at self.now unit) (self.now.time + n) ≡ 0 }
    {
        self.unit(unit).left(self.time)
    }

    /// `S<u>.SELECT`: the place of the selected device plus 1, and 0 for none.
    pub fn selected(&self, unit: u32) -> u32
        ensures { result ≡ (unit_at self.now unit).select }
    {
        self.unit(unit).select
    }

    /// `S<u>.WIDTH`: the width of a word.
    pub fn width(&self, unit: u32) -> u32
        ensures { result ≡ (unit_at self.now unit).width }
    {
        self.unit(unit).width
    }

    /// The word that a write to `S<u>.DATA` sends: what is written, masked by the width.
    pub fn outgoing(&self, unit: u32, sent: u32) -> u32
        ensures { result ≡ outgoing_of (unit_at self.now unit) sent }
    {
        self.unit(unit).outgoing(sent)
    }

    fn unit(&self, unit: u32) -> Serial
        ensures unit { result ≡ unit_at self.now unit }
        ensures begun { HasBegun self.now.time result.word }
    {
        if unit < UNITS {
            self.units[unit as usize]
        } else {
            Serial::new()
        }
    }

    fn set_unit(&mut self, unit: u32, changed: Serial)
        requires { HasBegun self.old.time changed.word }
        ensures { self.new ≡ with_unit self.old unit changed }
    {
        if unit < UNITS {
            self.units[unit as usize] = changed;
        }
    }

    fn set_select(&mut self, unit: u32, value: u32)
        ensures { self.new ≡ after_write self.old (Reg.SerialSelect unit) value }
    {
        let mut changed = self.unit(unit);
        changed.select = value;
        self.set_unit(unit, changed);
    }

    fn set_width(&mut self, unit: u32, value: u32)
        ensures { self.new ≡ after_write self.old (Reg.SerialWidth unit) value }
    {
        let mut changed = self.unit(unit);
        changed.width = value;
        self.set_unit(unit, changed);
    }

    fn acknowledge(&mut self, unit: u32)
        ensures { self.new ≡ after_write self.old (Reg.SerialAck unit) 0 }
    {
        let mut changed = self.unit(unit);
        changed.acknowledge(self.time);
        self.set_unit(unit, changed);
    }
}

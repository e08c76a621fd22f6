ghost use Rattle.std.specs.Prelude.{◌≡◌, ◌+◌, ◌*◌, ◌<◌, ◌^◌, slice_index};
ghost use Rattle.mcal_base.specs.Bits.{has_bit};
ghost use Rattle.chip_blocks.specs.converter.Converters.{fresh, silent, unit_at, with_unit, settled, flags_of, read_of, after_read, after_write, after_analog, after_pulse, ticked};

use crate::converter::converter::{Converter, Levels};
use mcal_base::{Config, Reg};
use std::marker::Model;

/// How many units and trigger inputs there are.
const UNITS: u32 = 2;

const TRIGGERS: u32 = 4;

/// The converter block: the registers `A<u>.LIST0` to `A<u>.ACK` of two units and `A.TRIGSET` to
/// `A.TRIGFLAGS`, as they stand at the peripheral time that it keeps, with the levels of the analog inputs.
#[derive(Drop)]
pub struct ConverterBlock {
    time: u64,
    units: [Converter; 2],
    levels: Levels,
    gates: u32,
    pulses: u32,
}

impl Model for ConverterBlock {
    ghost use Rattle.std.specs.Prelude.{◌≡◌, ◌<◌, ◌^◌, length};
    ghost use Rattle.chip_blocks.specs.converter.Converters.{Converters};

    ghost Value = { Converters };

    ghost view = { λ b. record { time = b.time; units = b.units; levels = b.levels; gates = b.gates; pulses = b.pulses } };

    ghost invariant = { λ b. (length b.units ≡ 2) × (b.pulses < 2 ^ 4) };

    ghost inverse = { λ b. record { time = b.time; units = b.units; levels = b.levels; gates = b.gates; pulses = b.pulses } };
}

impl ConverterBlock {
    #[tactic(auto, unfolding(crate::specs::converter::Converters::silent))]
    /// All registers and levels 0, at time 0. The block is the same under every configuration.
    pub fn new(_config: &Config) -> ConverterBlock
        ensures { result ≡ fresh 0 silent }
    {
        ConverterBlock::fresh(0, [0; 32])
    }

    fn fresh(time: u64, values: [u32; 32]) -> ConverterBlock
        ensures { result ≡ fresh time values }
    {
        ConverterBlock {
            time,
            units: [Converter::new(); 2],
            levels: Levels {
                values,
                since: time,
            },
            gates: 0,
            pulses: 0,
        }
    }

    /// A reset: all registers become 0. The time goes on, and the levels of the analog inputs stay.
    pub fn reset(&mut self)
        ensures { self.new ≡ fresh self.old.time self.old.levels.values }
    {
        *self = ConverterBlock::fresh(self.time, self.levels.values);
    }

    /// Reads a register. A read of `A<u>.ABORT` stops a running round.
    pub fn read(&mut self, reg: Reg) -> u32
        ensures value { result ≡ read_of self.old reg }
        ensures state { self.new ≡ after_read self.old reg }
    {
        match reg {
            Reg::ConverterState(unit) => self.state(unit),
            Reg::ConverterResult(unit, place) => self.result(u32::from(unit), u32::from(place)),
            Reg::ConverterDone(unit) => self.ended(unit),
            Reg::ConverterAbort(unit) => self.abort(unit),
            Reg::TriggerFlags => self.pulses,
            _ => 0,
        }
    }

    /// Writes a register. A register without a stated write ignores it.
    pub fn write(&mut self, reg: Reg, value: u32)
        ensures { self.new ≡ after_write self.old reg value }
    {
        match reg {
            Reg::ConverterList(unit, place) => {
                self.set_list(u32::from(unit), u32::from(place), value)
            }
            Reg::ConverterGo(unit) => self.go(unit, value),
            Reg::ConverterAck(unit) => self.acknowledge(unit),
            Reg::TriggerSet => self.gates |= value,
            Reg::TriggerClear => self.gates &= !value,
            Reg::TriggerFlags => self.pulses &= !value,
            _ => {}
        }
    }

    /// The passing of so many peripheral ticks.
    pub fn tick(&mut self, ticks: u64)
        requires { self.old.time + ticks < 2 ^ 64 }
        ensures { self.new ≡ ticked self.old ticks }
    {
        self.time += ticks;
    }

    /// A new level of an analog input. It counts for the inputs of rounds that end from now on.
    pub fn analog(&mut self, input: u32, value: u32)
        ensures { self.new ≡ after_analog self.old input value }
    {
        self.settle(0);
        self.settle(1);
        self.levels.set(input, value, self.time);
    }

    /// A pulse on a trigger input. Its flag stands where the pulse finds the gate on.
    pub fn trigger(&mut self, input: u32)
        ensures { self.new ≡ after_pulse self.old input }
    {
        if input < TRIGGERS && has(self.gates, input) {
            self.pulses |= 1 << input;
        }
    }

    /// The flags of lines 24 and 25, which are finished rounds, and of lines 28 to 31, which are pulses, each
    /// in the bit of its line.
    pub fn flags(&self) -> u32
        ensures { result ≡ flags_of self.now }
    {
        let first = u32::from(self.units[0].round.finished(self.time));
        let second = u32::from(self.units[1].round.finished(self.time));
        first * (1 << 24) + second * (1 << 25) + self.pulses * (1 << 28)
    }

    #[tactic(auto, unfolding(crate::specs::converter::Converters::unused))]
    fn state(&self, unit: u32) -> u32
        ensures { result ≡ read_of self.now (Reg.ConverterState unit) }
    {
        if unit < UNITS {
            self.units[unit as usize].round.state(self.time)
        } else {
            0
        }
    }

    #[tactic(auto, unfolding(crate::specs::converter::Converters::unused))]
    fn ended(&self, unit: u32) -> u32
        ensures { result ≡ read_of self.now (Reg.ConverterDone unit) }
    {
        if unit < UNITS {
            self.units[unit as usize].round.ended(self.time)
        } else {
            0
        }
    }

    #[tactic(auto, unfolding(crate::specs::converter::Converters::unused))]
    fn result(&self, unit: u32, place: u32) -> u32
        ensures { result ≡ read_of self.now (Reg.ConverterResult unit place) }
    {
        if unit < UNITS {
            self.units[unit as usize].result(&self.levels, self.time, place)
        } else {
            0
        }
    }

    #[tactic(auto, unfolding(crate::specs::converter::Converters::unused))]
    fn abort(&mut self, unit: u32) -> u32
        ensures value { result ≡ read_of self.old (Reg.ConverterAbort unit) }
        ensures state { self.new ≡ after_read self.old (Reg.ConverterAbort unit) }
    {
        if unit < UNITS {
            let stopped = self.units[unit as usize].round.running(self.time);
            self.units[unit as usize].abort(self.time);
            u32::from(stopped)
        } else {
            0
        }
    }

    fn set_list(&mut self, unit: u32, place: u32, value: u32)
        ensures { self.new ≡ after_write self.old (Reg.ConverterList unit place) value }
    {
        if unit < UNITS {
            self.units[unit as usize].set_list(place, value);
        }
    }

    fn settle(&mut self, unit: u32)
        ensures { self.new ≡ with_unit self.old unit (settled self.old.levels self.old.time (unit_at self.old unit)) }
    {
        if unit < UNITS {
            self.units[unit as usize].settle(&self.levels, self.time);
        }
    }

    fn go(&mut self, unit: u32, count: u32)
        ensures { self.new ≡ after_write self.old (Reg.ConverterGo unit) count }
    {
        if unit < UNITS {
            self.units[unit as usize].go(&self.levels, count, self.time);
        }
    }

    fn acknowledge(&mut self, unit: u32)
        ensures { self.new ≡ after_write self.old (Reg.ConverterAck unit) 0 }
    {
        if unit < UNITS {
            self.units[unit as usize].acknowledge(self.time);
        }
    }
}

/// Whether a bit is set.
fn has(bits: u32, place: u32) -> bool
    requires { place < 32 }
    ensures { result ≡ has_bit bits place }
{
    (bits >> place) % 2 == 1
}

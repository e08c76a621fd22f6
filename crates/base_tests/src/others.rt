ghost use Rattle.std.specs.Prelude.{length, ◌≤◌, ◌+◌, ◌^◌, ◌<◌};

use crate::line::{Line, numbers, reason};
use chip_blocks::units::{ClockBlock, PinBlock, RamBlock, SerialBlock};
use mcal_base::{Config, Move, Reason, Reg};

/// The clock, the pins, the RAM words and the serial units. Each access is given to all of them, so a register of
/// another block is seen to read 0 and to be ignored.
#[derive(Drop)]
struct Blocks {
    clock: ClockBlock,
    pins: PinBlock,
    ram: RamBlock,
    serials: SerialBlock,
}

/// The level of a pulse output by its number; none for a pin without one.
fn pulse(number: u32) -> Option<bool> {
    match number {
        0 => Some(false),
        1 => Some(true),
        _ => None,
    }
}

impl Blocks {
    fn read(&mut self, reg: Reg) -> u32
        ensures clock { self.new.clock.osc ≤ self.old.clock.osc }
        ensures serials { self.new.serials.time ≤ self.old.serials.time }
    {
        let first = self.clock.read(reg) | self.pins.read(reg);
        first | self.ram.read(reg) | self.serials.read(reg)
    }

    fn write(&mut self, reg: Reg, value: u32)
        ensures clock { self.new.clock.osc ≤ self.old.clock.osc }
        ensures serials { self.new.serials.time ≤ self.old.serials.time }
    {
        self.clock.write(reg, value);
        self.pins.write(reg, value);
        self.ram.write(reg, value);
        self.serials.write(reg, value);
    }

    fn tick(&mut self, ticks: u32)
        requires clock { self.old.clock.osc < 2 ^ 63 }
        requires serials { self.old.serials.time < 2 ^ 63 }
        ensures clock { self.new.clock.osc ≤ self.old.clock.osc + 2 ^ 32 }
        ensures serials { self.new.serials.time ≤ self.old.serials.time + 2 ^ 32 }
    {
        self.clock.tick(u64::from(ticks));
        self.pins.tick(u64::from(ticks));
        self.ram.tick(u64::from(ticks));
        self.serials.tick(u64::from(ticks));
    }

    fn reset(&mut self, reason: Reason)
        ensures clock { self.new.clock.osc ≤ self.old.clock.osc }
        ensures serials { self.new.serials.time ≤ self.old.serials.time }
    {
        self.clock.reset(reason);
        self.pins.reset();
        self.ram.reset();
        self.serials.reset();
    }

    /// Whether what is asked by a word with its numbers is so.
    fn shows(&self, word: &str, numbers: [u32; 4]) -> bool {
        let [first, second, third, fourth] = numbers;
        match word {
            "rate" => self.clock.rate() == first,
            "pin" => self.pins.pin(first, second == 1, pulse(third)) == (fourth == 1),
            "ram" => first < 512 && self.ram.ram(first) == second,
            "selected" => self.serials.selected(first) == second,
            _ => false,
        }
    }

    /// Whether the blocks do as a word with its numbers says.
    fn event(&mut self, word: &str, numbers: [u32; 4]) -> bool
        requires clock { self.old.clock.osc < 2 ^ 63 }
        requires serials { self.old.serials.time < 2 ^ 63 }
        ensures clock { self.new.clock.osc ≤ self.old.clock.osc + 2 ^ 32 }
        ensures serials { self.new.serials.time ≤ self.old.serials.time + 2 ^ 32 }
    {
        match word {
            "tick" => self.tick(numbers[0]),
            "flip" => self.pins.flip(numbers[0]),
            "reset" => self.reset(reason(numbers[0])),
            _ => return self.shows(word, numbers),
        }
        true
    }

    /// Whether the blocks do as the line says.
    fn follow(&mut self, line: &Line<'_>) -> bool
        requires clock { self.old.clock.osc < 2 ^ 63 }
        requires serials { self.old.serials.time < 2 ^ 63 }
        ensures clock { self.new.clock.osc ≤ self.old.clock.osc + 2 ^ 32 }
        ensures serials { self.new.serials.time ≤ self.old.serials.time + 2 ^ 32 }
    {
        match line {
            Line::Word(word, behind) => self.event(word, numbers(behind)),
            Line::Step(step) => match step.made {
                Move::Read(reg) => self.read(reg) == step.value,
                Move::Write(reg, value) => {
                    self.write(reg, value);
                    true
                }
                _ => false,
            },
        }
    }
}

/// The number of the first line that the blocks don't follow, from 1, and 0 where they follow all.
pub fn first_wrong(lines: &[Line<'_>]) -> usize
    requires { length lines.now < 2 ^ 20 }
{
    let config = Config::default();
    let mut blocks = Blocks {
        clock: ClockBlock::new(&config),
        pins: PinBlock::new(&config),
        ram: RamBlock::new(&config),
        serials: SerialBlock::new(&config),
    };
    for (place, line) in lines.iter().enumerate() {
        if !blocks.follow(line) {
            return place + 1;
        }
    }
    0
}

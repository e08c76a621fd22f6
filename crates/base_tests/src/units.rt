ghost use Rattle.std.specs.Prelude.{length, ◌≡◌, ◌≤◌, ◌+◌, ◌^◌, ◌<◌};

use crate::line::{Line, numbers};
use chip_blocks::converter::ConverterBlock;
use chip_blocks::units::SerialBlock;
use mcal_base::{Config, Move, Reg};

/// The converter block and the serial block, on one time. Each access is given to both, so a register of the other
/// block is seen to read 0 and to be ignored.
#[derive(Drop)]
struct Units {
    converter: ConverterBlock,
    serial: SerialBlock,
}

impl Units {
    /// The blocks as at power on.
    fn new() -> Units
        ensures converter { result.converter.time ≡ 0 }
        ensures serial { result.serial.time ≡ 0 }
    {
        let config = Config::default();
        Units {
            converter: ConverterBlock::new(&config),
            serial: SerialBlock::new(&config),
        }
    }

    fn read(&mut self, reg: Reg) -> u32
        ensures converter { self.new.converter.time ≡ self.old.converter.time }
        ensures serial { self.new.serial.time ≡ self.old.serial.time }
    {
        self.converter.read(reg) | self.serial.read(reg)
    }

    fn write(&mut self, reg: Reg, value: u32)
        ensures converter { self.new.converter.time ≡ self.old.converter.time }
        ensures serial { self.new.serial.time ≡ self.old.serial.time }
    {
        self.converter.write(reg, value);
        self.serial.write(reg, value);
    }

    fn word(&mut self, unit: u32, written: u32, incoming: u32) -> u32
        ensures converter { self.new.converter.time ≡ self.old.converter.time }
        ensures serial { self.new.serial.time ≡ self.old.serial.time }
    {
        let sent = self.serial.outgoing(unit, written);
        self.serial.word(unit, written, incoming);
        sent
    }

    fn tick(&mut self, ticks: u32)
        requires converter { self.old.converter.time < 2 ^ 63 }
        requires serial { self.old.serial.time < 2 ^ 63 }
        ensures converter { self.new.converter.time ≡ self.old.converter.time + ticks }
        ensures serial { self.new.serial.time ≡ self.old.serial.time + ticks }
    {
        self.converter.tick(u64::from(ticks));
        self.serial.tick(u64::from(ticks));
    }

    /// Whether the blocks do as a word with its numbers says, where no time passes.
    fn happens(&mut self, word: &str, numbers: [u32; 4]) -> bool
        ensures converter { self.new.converter.time ≡ self.old.converter.time }
        ensures serial { self.new.serial.time ≡ self.old.serial.time }
    {
        let [first, second, third, fourth] = numbers;
        match word {
            "word" => return self.word(first, second, third) == fourth,
            "flags" => return self.converter.flags() | self.serial.flags() == first,
            "analog" => self.converter.analog(first, second),
            "trigger" => self.converter.trigger(first),
            "fault" => self.serial.fault(first),
            "reset" => {
                self.converter.reset();
                self.serial.reset();
            }
            _ => return false,
        }
        true
    }

    /// Whether the blocks do as a word with its numbers says.
    fn event(&mut self, word: &str, numbers: [u32; 4]) -> bool
        requires converter { self.old.converter.time < 2 ^ 63 }
        requires serial { self.old.serial.time < 2 ^ 63 }
        ensures converter { self.new.converter.time ≤ self.old.converter.time + 2 ^ 32 }
        ensures serial { self.new.serial.time ≤ self.old.serial.time + 2 ^ 32 }
    {
        if word == "tick" {
            self.tick(numbers[0]);
            return true;
        }
        self.happens(word, numbers)
    }

    /// Whether the blocks do as the line says.
    fn follow(&mut self, line: &Line<'_>) -> bool
        requires converter { self.old.converter.time < 2 ^ 63 }
        requires serial { self.old.serial.time < 2 ^ 63 }
        ensures converter { self.new.converter.time ≤ self.old.converter.time + 2 ^ 32 }
        ensures serial { self.new.serial.time ≤ self.old.serial.time + 2 ^ 32 }
    {
        match line {
            Line::Word(word, behind) => self.event(word, numbers(behind)),
            Line::Step(step) => match step.made {
                Move::Read(reg) => self.read(reg) == step.value,
                Move::Write(reg, value) => {
                    self.write(reg, value);
                    true
                }
                _ => false,
            },
        }
    }
}

/// The number of the first line that the blocks don't follow, from 1, and 0 where they follow all.
pub fn first_wrong(lines: &[Line<'_>]) -> usize
    requires { length lines.now < 2 ^ 20 }
{
    let mut units = Units::new();
    for (place, line) in lines.iter().enumerate() {
        if !units.follow(line) {
            return place + 1;
        }
    }
    0
}

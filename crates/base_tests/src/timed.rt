ghost use Rattle.std.specs.Prelude.{length, ◌≤◌, ◌+◌, ◌^◌, ◌<◌};

use crate::line::{Line, numbers};
use chip_blocks::captures::CaptureBlock;
use chip_blocks::pulses::PulseBlock;
use chip_blocks::timers::TimerBlock;
use mcal_base::{Config, IcuChannel, IcuConfig, Move, Reg, Short};

/// The blocks of timers, pulses and captures. A block gives 0 for a register that isn't its own.
#[derive(Drop)]
struct Blocks {
    timers: TimerBlock,
    pulses: PulseBlock,
    captures: CaptureBlock,
}

/// A configuration whose capture inputs 1 and 6 have pin 40, and 2 has pin 63.
fn config() -> Config {
    let mut channels = Short::new();
    channels.push(capture_input(1, 40));
    channels.push(capture_input(6, 40));
    channels.push(capture_input(2, 63));
    Config {
        icu: IcuConfig {
            channels,
            ..IcuConfig::default()
        },
        ..Config::default()
    }
}

/// A capture input with its pin.
pub fn capture_input(id: u32, pin: u32) -> IcuChannel {
    let mut input = IcuChannel::default();
    input.id = id;
    input.pin = pin;
    input
}

impl Blocks {
    fn read(&mut self, reg: Reg) -> u32
        ensures timers { self.new.timers.time ≤ self.old.timers.time }
        ensures pulses { self.new.pulses.time ≤ self.old.pulses.time }
        ensures captures { self.new.captures.time ≤ self.old.captures.time }
    {
        self.timers.read(reg) | self.pulses.read(reg) | self.captures.read(reg)
    }

    fn write(&mut self, reg: Reg, value: u32)
        ensures timers { self.new.timers.time ≤ self.old.timers.time }
        ensures pulses { self.new.pulses.time ≤ self.old.pulses.time }
        ensures captures { self.new.captures.time ≤ self.old.captures.time }
    {
        self.timers.write(reg, value);
        self.pulses.write(reg, value);
        self.captures.write(reg, value);
    }

    fn tick(&mut self, ticks: u32)
        requires timers { self.old.timers.time < 2 ^ 63 }
        requires pulses { self.old.pulses.time < 2 ^ 63 }
        requires captures { self.old.captures.time < 2 ^ 63 }
        ensures timers { self.new.timers.time ≤ self.old.timers.time + 2 ^ 32 }
        ensures pulses { self.new.pulses.time ≤ self.old.pulses.time + 2 ^ 32 }
        ensures captures { self.new.captures.time ≤ self.old.captures.time + 2 ^ 32 }
    {
        self.timers.tick(u64::from(ticks));
        self.pulses.tick(u64::from(ticks));
        self.captures.tick(u64::from(ticks));
    }

    fn reset(&mut self)
        ensures timers { self.new.timers.time ≤ self.old.timers.time }
        ensures pulses { self.new.pulses.time ≤ self.old.pulses.time }
        ensures captures { self.new.captures.time ≤ self.old.captures.time }
    {
        self.timers.reset();
        self.pulses.reset();
        self.captures.reset();
    }

    /// Whether the blocks do as a word with its numbers says.
    fn event(&mut self, word: &str, numbers: [u32; 4]) -> bool
        requires timers { self.old.timers.time < 2 ^ 63 }
        requires pulses { self.old.pulses.time < 2 ^ 63 }
        requires captures { self.old.captures.time < 2 ^ 63 }
        ensures timers { self.new.timers.time ≤ self.old.timers.time + 2 ^ 32 }
        ensures pulses { self.new.pulses.time ≤ self.old.pulses.time + 2 ^ 32 }
        ensures captures { self.new.captures.time ≤ self.old.captures.time + 2 ^ 32 }
    {
        match word {
            "tick" => self.tick(numbers[0]),
            "edge" => self.captures.edge(numbers[0], numbers[1] == 1),
            "reset" => self.reset(),
            "flags" => {
                let timed = self.timers.flags() | self.pulses.flags();
                return timed | self.captures.flags() == numbers[0];
            }
            _ => return false,
        }
        true
    }

    /// Whether the blocks do as the line says.
    fn follow(&mut self, line: &Line<'_>) -> bool
        requires timers { self.old.timers.time < 2 ^ 63 }
        requires pulses { self.old.pulses.time < 2 ^ 63 }
        requires captures { self.old.captures.time < 2 ^ 63 }
        ensures timers { self.new.timers.time ≤ self.old.timers.time + 2 ^ 32 }
        ensures pulses { self.new.pulses.time ≤ self.old.pulses.time + 2 ^ 32 }
        ensures captures { self.new.captures.time ≤ self.old.captures.time + 2 ^ 32 }
    {
        match line {
            Line::Word(word, behind) => self.event(word, numbers(behind)),
            Line::Step(step) => match step.made {
                Move::Read(reg) => self.read(reg) == step.value,
                Move::Write(reg, value) => {
                    self.write(reg, value);
                    true
                }
                _ => false,
            },
        }
    }
}

/// The number of the first line that the blocks don't follow, from 1, and 0 where they follow all.
pub fn first_wrong(lines: &[Line<'_>]) -> usize
    requires { length lines.now < 2 ^ 20 }
{
    let config = config();
    let mut blocks = Blocks {
        timers: TimerBlock::new(&config),
        pulses: PulseBlock::new(&config),
        captures: CaptureBlock::new(&config),
    };
    for (place, line) in lines.iter().enumerate() {
        if !blocks.follow(line) {
            return place + 1;
        }
    }
    0
}

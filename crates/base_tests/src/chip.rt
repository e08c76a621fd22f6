ghost use Rattle.std.specs.Prelude.{length, ◌≡◌, ◌^◌, ◌<◌};
ghost use Rattle.chip_model.specs.Chip.{CanHappen};

use crate::line::{Line, number, numbers, reason, step};
use crate::timed::capture_input;
use chip_model::Bus;
use mcal_base::{
    BoxedWords, Config, Directive, IcuConfig, Order, PwmChannel, PwmConfig, Short, WORDS,
};
use serial_devices::{ListDevice, PlainDevice, SerialDevice};
use std::alloc::{AllocError, Global};
use trace_reader::Step;

/// The most exchanges that a device keeps.
const EXCHANGES: usize = 1_000;

/// What hangs on the serial units.
pub type Rack = Vec<Box<dyn SerialDevice>>;

/// A pulse output with its pin.
fn pulse_output(id: u32, pin: u32) -> PwmChannel {
    let mut output = PwmChannel::default();
    output.id = id;
    output.pin = Some(pin);
    output
}

/// A configuration with the output of pulse channel 3 at pin 40, and capture channel 6 at pin 9.
fn wired() -> Config {
    let mut outputs = Short::new();
    outputs.push(pulse_output(3, 40));
    let mut inputs = Short::new();
    inputs.push(capture_input(6, 9));
    Config {
        pwm: PwmConfig {
            channels: outputs,
            ..PwmConfig::default()
        },
        icu: IcuConfig {
            channels: inputs,
            ..IcuConfig::default()
        },
        ..Config::default()
    }
}

/// What happens outside.
fn happen(bus: &mut Bus, order: Order)
    requires { CanHappen bus.old order }
{
    bus.hardware(&Directive { line: 1, order });
}

/// Three words that come in.
fn three_words(first: u32, second: u32, third: u32) -> Short<u32, 64>
    ensures { length result ≡ 3 }
{
    let mut words = Short::new();
    words.push(first);
    words.push(second);
    words.push(third);
    words
}

/// A chip as at power on, on whose serial unit 1 the words 11, 12 and 13 come in next.
fn begun(alloc: Global) -> Result<Bus, AllocError> {
    let Ok(mut bus) = Bus::new(alloc, &wired(), 3) else {
        return Err(AllocError);
    };
    let words = BoxedWords::new(alloc, three_words(11, 12, 13))?;
    happen(&mut bus, Order::Miso(1, words));
    Ok(bus)
}

/// Whether a step that is made gives its value and the word that comes in.
fn made(bus: &mut Bus, rack: &mut Rack, step: &Step) -> bool {
    if !step.made.is_there() {
        return false;
    }
    let applied = bus.apply(&step.made, rack);
    applied.value == step.value && applied.received == step.received
}

/// Whether a step that is made anew, with the word that came in, gives its value.
fn replays(alloc: Global, bus: &mut Bus, text: &str) -> Result<bool, AllocError> {
    match step(alloc, text)? {
        Some(step) if step.made.is_there() => {
            Ok(bus.replay(&step.made, step.received) == step.value)
        }
        _ => Ok(false),
    }
}

/// Whether what is asked by a word with its numbers is so.
fn shows(bus: &Bus, word: &str, numbers: [u32; 4]) -> bool {
    let [first, second, ..] = numbers;
    match word {
        "pin" => bus.pin(first) == (second == 1),
        "pending" => bus.pending(first) == (second == 1),
        "ram" => first < 512 && bus.ram(first) == second,
        "word" => first < WORDS && bus.word(first) == second,
        _ => false,
    }
}

/// Whether the chip does as a word with its numbers says.
fn follows(bus: &mut Bus, word: &str, numbers: [u32; 4]) -> bool {
    match word {
        "level" => happen(bus, Order::Level(numbers[0], numbers[1] == 1)),
        "trigger" => happen(bus, Order::Trigger(numbers[0])),
        "reset" => bus.reset(reason(numbers[0])),
        _ => return shows(bus, word, numbers),
    }
    true
}

/// A device that answers each word's complement, and refuses the exchanges of these numbers, from 1.
fn refusing(alloc: Global, refused: &str) -> Result<ListDevice, AllocError> {
    let mut numbers = Vec::new(alloc);
    for word in refused.split_ascii_whitespace() {
        if let Some(number) = number(word) {
            numbers.push(u64::from(number))?;
        }
    }
    ListDevice::new(alloc, false, EXCHANGES, numbers).map_err(|_| AllocError)
}

/// The number of the first line that the chip doesn't follow, from 1, and 0 where it follows all.
pub fn first_wrong(
    alloc: Global,
    with_devices: bool,
    lines: &[Line<'_>],
) -> Result<usize, AllocError>
    requires { length lines.now < 2 ^ 20 }
{
    let mut bus = begun(alloc)?;
    let mut rack: Rack = Vec::new(alloc);
    if with_devices {
        rack.push(Box::new(alloc, PlainDevice::new(false))?)?;
        rack.push(Box::new(alloc, PlainDevice::new(true))?)?;
    }
    for (place, line) in lines.iter().enumerate() {
        let holds = match line {
            Line::Step(step) => made(&mut bus, &mut rack, step),
            Line::Word("device", refused) => {
                rack.push(Box::new(alloc, refusing(alloc, refused)?)?)?;
                true
            }
            Line::Word("replay", text) => replays(alloc, &mut bus, text)?,
            Line::Word(word, behind) => follows(&mut bus, word, numbers(behind)),
        };
        if !holds {
            return Ok(place + 1);
        }
    }
    Ok(0)
}

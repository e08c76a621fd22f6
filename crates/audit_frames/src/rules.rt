ghost use Rattle.std.specs.Prelude.{◌≡◌};
ghost use Rattle.audit_frames.specs.EventRules as spec;

use crate::lines::Lines;
use crate::terms::Task;
use mcal_base::{Event, Move, Reg, Unit};

/// Whether a unit is this converter unit.
fn is_converter(unit: Unit, number: u32) -> bool
    ensures { result ≡ spec.is_converter_of unit number }
{
    match unit {
        Unit::Adc0 => number == 0,
        Unit::Adc1 => number == 1,
        Unit::Spi0 | Unit::Spi1 => false,
    }
}

/// Whether a unit is this serial unit.
fn is_serial(unit: Unit, number: u32) -> bool
    ensures { result ≡ spec.is_serial_of unit number }
{
    match unit {
        Unit::Spi0 => number == 0,
        Unit::Spi1 => number == 1,
        Unit::Adc0 | Unit::Adc1 => false,
    }
}

/// Whether a move starts a unit: it writes the register that does it.
fn starts(unit: Unit, made: &Move) -> bool
    ensures { result ≡ spec.starts unit made.now }
{
    match *made {
        Move::Write(Reg::ConverterGo(number), _) => is_converter(unit, number),
        Move::Write(Reg::SerialData(number), _) => is_serial(unit, number),
        _ => false,
    }
}

/// Whether a move aborts a unit: it reads the register that does it, which gave 1.
fn aborts(unit: Unit, made: &Move, value: u32) -> bool
    ensures { result ≡ spec.aborts unit made.now value }
{
    match *made {
        Move::Read(Reg::ConverterAbort(number)) => is_converter(unit, number) && value == 1,
        _ => false,
    }
}

/// Whether a frame waits for a word with the mask open, where it does.
pub(crate) fn waits_open(inside: bool, made: &Move) -> bool
    ensures { result ≡ spec.waits_open inside made.now }
{
    !matches!(made, Move::Read(Reg::SerialWait(_))) || !inside
}

/// Whether an event stands at a move that it can stand at.
pub(crate) fn stands_at(event: Option<Event>, made: &Move, value: u32) -> bool
    ensures { result ≡ spec.stands_at event made.now value }
{
    match event {
        None | Some(Event::Act) | Some(Event::Serve(_)) => true,
        Some(Event::Start(unit)) => starts(unit, made),
        Some(Event::Abort(unit)) => aborts(unit, made, value),
    }
}

/// Whether an event is one that the frame may have: a call acts once, and a handler doesn't; lines are served in a window, and units
/// start and abort with no notice owed.
pub(crate) fn may_have(
    task: Task,
    lines: &Lines,
    has_acted: bool,
    owes: bool,
    inside: bool,
    polls: &[u32],
    event: Option<Event>,
) -> bool
    ensures { result ≡ spec.may_have task lines.now has_acted owes inside polls.now event }
{
    match event {
        None => true,
        Some(Event::Act) => matches!(task, Task::Call(_)) && !has_acted,
        Some(Event::Serve(line)) => lines.may_serve(task, polls, line, owes) && inside,
        Some(Event::Abort(_)) | Some(Event::Start(_)) => !owes,
    }
}

//! What frames of the three modules may name. They name no enabled lines.

ghost use Rattle.std.specs.Prelude.{◌≡◌, ◌&&◌, ◌||◌, not};
ghost use Rattle.module_machines.specs.mcu.Bounds as clock;
ghost use Rattle.module_machines.specs.port.Bounds as pins;
ghost use Rattle.module_machines.specs.wdg.Bounds as watchdog;

use mcal_base::{Move, Reg};

/// How many words each module has. Those of clock, resets and RAM begin at 0.
const WORDS: u32 = 64;

/// The first of the pins' own words.
const PINS: u32 = 8192;

/// The first of the watchdog's own words.
const WATCHDOG: u32 = 65_536;

/// Whether a register is one of clock, resets and RAM.
fn is_clock(register: Reg) -> bool
    ensures { result ≡ clock.is_register register }
{
    matches!(
        register,
        Reg::ClockPll
            | Reg::ClockLock
            | Reg::ClockRate
            | Reg::ResetReason
            | Reg::ResetRequest
            | Reg::Ram(_)
    )
}

/// Whether a move names what is clock's, resets' or RAM's.
fn clock_owns(made: &Move) -> bool
    ensures { result ≡ clock.owns made.now }
{
    match *made {
        Move::Read(register) | Move::Write(register, _) => is_clock(register),
        Move::Load(word) | Move::Store(word, _) => word < WORDS,
        _ => false,
    }
}

/// Whether a frame of clock, resets and RAM may make a move: it names what is the module's and is there.
pub(crate) fn clock_may(made: &Move) -> bool
    ensures { result ≡ clock.may made.now }
{
    clock_owns(made) && made.is_there()
}

/// Whether a register is the watchdog's.
fn is_watchdog(register: Reg) -> bool
    ensures { result ≡ watchdog.is_register register }
{
    matches!(register, Reg::WatchdogLoad)
}

/// Whether a move names what is the watchdog's.
fn watchdog_owns(made: &Move) -> bool
    ensures { result ≡ watchdog.owns made.now }
{
    match *made {
        Move::Read(register) | Move::Write(register, _) => is_watchdog(register),
        Move::Load(word) | Move::Store(word, _) => word >= WATCHDOG && word < WATCHDOG + WORDS,
        _ => false,
    }
}

/// Whether a frame of the watchdog may make a move: it names what is the module's and is there.
pub(crate) fn watchdog_may(made: &Move) -> bool
    ensures { result ≡ watchdog.may made.now }
{
    watchdog_owns(made) && made.is_there()
}

/// Whether a register is one of the pins, also one that a guest names.
fn is_pins(register: Reg) -> bool
    ensures { result ≡ pins.is_register register }
{
    matches!(
        register,
        Reg::PinDirectionSet(_)
            | Reg::PinDirectionClear(_)
            | Reg::PinOutSet(_)
            | Reg::PinOutClear(_)
            | Reg::PinMode(_)
            | Reg::PortPut(_)
            | Reg::PinFlip(_)
    )
}

/// Whether a move names what is the pins'.
fn pins_own(made: &Move) -> bool
    ensures { result ≡ pins.owns made.now }
{
    match *made {
        Move::Read(register) | Move::Write(register, _) => is_pins(register),
        Move::Load(word) | Move::Store(word, _) => word >= PINS && word < PINS + WORDS,
        _ => false,
    }
}

/// Whether a move is a guest's: it puts a word to a port, or inverts a latch.
fn is_guests(made: &Move) -> bool
    ensures { result ≡ pins.is_guests made.now }
{
    matches!(
        made,
        Move::Write(Reg::PortPut(_), _) | Move::Read(Reg::PinFlip(_))
    )
}

/// Whether a move sets latches or clears them.
fn writes_latches(made: &Move) -> bool
    ensures { result ≡ pins.writes_latches made.now }
{
    matches!(
        made,
        Move::Write(Reg::PinOutSet(_) | Reg::PinOutClear(_), _)
    )
}

/// Whether a move names what is the pins' and is there, and isn't a guest's.
fn is_for_pins(made: &Move) -> bool
    ensures { result ≡ pins.may made.now }
{
    pins_own(made) && (!is_guests(made) && made.is_there())
}

/// Whether a frame of the pins may make a move: one of `Port_Init` alone writes latches.
pub(crate) fn pins_may(is_init: bool, made: &Move) -> bool
    ensures { result ≡ (pins.may made.now && (is_init || not (pins.writes_latches made.now))) }
{
    is_for_pins(made) && (is_init || !writes_latches(made))
}

//! What frames of the pulse module may name.

ghost use Rattle.std.specs.Prelude.{◌≡◌};
ghost use Rattle.module_machines.specs.pwm.Bounds as spec;

use mcal_base::{Move, Reg};

/// The first of the module's own words.
const OWN: u32 = 24_576;

/// How many it has.
const WORDS: u32 = 64;

/// Whether a register is one of the pulse units.
fn is_pulse(register: Reg) -> bool
    ensures { result ≡ spec.is_pulse register }
{
    matches!(
        register,
        Reg::PulsePeriod(_)
            | Reg::PulseDuty(_)
            | Reg::PulsePolarity(_)
            | Reg::PulseCommit(_)
            | Reg::PulseIdle(_)
            | Reg::PulseOut(_)
            | Reg::PulseEdges
            | Reg::PulseFlags
    )
}

/// Whether a value has bits of lines 8 to 15, and of no other.
fn is_for_lines(value: u32) -> bool
    ensures { result ≡ spec.is_for_lines value }
{
    value != 0 && value % 256 == 0 && value < 65_536
}

/// Whether a value may be written to a register.
fn may_write(register: Reg, value: u32) -> bool
    ensures { result ≡ spec.may_write register value }
{
    match register {
        Reg::EnableSet | Reg::EnableClear => is_for_lines(value),
        _ => is_pulse(register),
    }
}

/// Whether a driver word is one of the module's own.
fn is_own_word(word: u32) -> bool
    ensures { result ≡ spec.is_own_word word }
{
    word >= OWN && word < OWN + WORDS
}

/// Whether a move names what is the module's.
fn may_name(made: &Move) -> bool
    ensures { result ≡ spec.may_name made.now }
{
    match *made {
        Move::Read(register) => is_pulse(register),
        Move::Write(register, value) => may_write(register, value),
        Move::Load(word) | Move::Store(word, _) => is_own_word(word),
        _ => false,
    }
}

/// Whether a frame of the module may make a move: it names what is the module's and is there.
pub(crate) fn may(made: &Move) -> bool
    ensures { result ≡ spec.pwm_may made.now }
{
    may_name(made) && made.is_there()
}

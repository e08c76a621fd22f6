//! The latches that `Port_Init` owes, as bits of a mask.

ghost use Rattle.std.specs.Prelude.{◌≡◌, ◌<◌, ◌+◌, ◌*◌, ◌/◌, ◌%◌, ◌^◌, ◌==◌, ◌&&◌};
ghost use Rattle.mcal_base.specs.Bits.{has_bit};
ghost use Rattle.audit_frames.specs.Told.{is_of_kind};
ghost use Rattle.module_machines.specs.port.Bounds as bounds;
ghost use Rattle.audit_subject.specs.Marks as spec;

use crate::pin_state::has_bit;
use mcal_base::{Move, Reg};
use module_machines::port::{Call, Pin, PortTable};

/// Whether bits that are written to a half name a pin.
fn names_pin(pin: u32, half: u32, bits: u32) -> bool
    ensures { result ≡ (half == pin / 32 && has_bit bits (pin % 32)) }
{
    half == pin / 32 && has_bit(bits, pin % 32)
}

/// Whether a move sets the latch of a pin where it is to be high, and clears it where it is to be low.
fn puts_latch(high: bool, pin: u32, made: Move) -> bool
    ensures { result ≡ is_of_kind (bounds.puts_latch high pin) made }
{
    match made {
        Move::Write(Reg::PinOutSet(half), bits) => high && names_pin(pin, half, bits),
        Move::Write(Reg::PinOutClear(half), bits) => !high && names_pin(pin, half, bits),
        _ => false,
    }
}

/// Whether it does, and yes where there is no move.
fn is_met(high: bool, pin: u32, made: Option<Move>) -> bool
    ensures { result ≡ spec.is_met made (bounds.puts_latch high pin) }
{
    match made {
        Some(made) => puts_latch(high, pin, made),
        None => true,
    }
}

/// A mask with the bit of one more pin below the others, where it is configured.
fn with_pin(mask: u64, number: u32, pin: Option<Pin>, made: Option<Move>) -> u64
    requires { 2 * mask + 1 < 2 ^ 64 }
    ensures { result ≡ spec.with_marks made (bounds.latch_duty number pin) mask }
{
    match pin {
        Some(pin) => u64::from(is_met(pin.level_high, number, made)) + 2 * mask,
        None => mask,
    }
}

/// A bit for each configured pin, the highest in bit 0: of those whose latch the move puts, and of all where there is none.
fn marks(table: &PortTable, made: Option<Move>) -> u64
    ensures { result ≡ spec.marks made (bounds.latch_duties table.now 64) }
{
    let mut mask = 0;
    for number in 0..64u32 {
        mask = with_pin(mask, number, table.pin(number), made);
    }
    mask
}

/// A bit for each write that a call owes: of those that the move makes, and of all where there is none.
pub(crate) fn owed(table: &PortTable, call: Call, made: Option<Move>) -> u64
    ensures { result ≡ spec.marks made (bounds.must_by table.now call) }
{
    match call {
        Call::Init => marks(table, made),
        Call::RefreshPortDirection | Call::Pin(..) => 0,
    }
}

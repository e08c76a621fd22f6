ghost use Rattle.std.specs.Prelude.{◌≡◌, ◌<◌};
ghost use Rattle.chip_blocks.specs.units.Serials.{unit_at};
ghost use Rattle.mcal_base.specs.Reach.{CanApply};
ghost use Rattle.run_model.specs.Machine.{select_of};
ghost use Rattle.report_auditor.specs.ChipRules as spec;

use audit_base::Begun;
use chip_model::Bus;
use mcal_base::{Move, Reg};

/// Whether a word may come in on a serial unit: any where a device answers, with 65,536 for none, else the one that waits.
fn may_come_in(bus: &Bus, unit: u32, received: u32) -> bool
    requires { unit < 2 }
    ensures { result ≡ spec.may_come_in bus.now unit received }
{
    if bus.has_device(unit) {
        received <= 65_536
    } else {
        received == bus.next_word(unit)
    }
}

/// Whether a word may come in with a move, which is 0 where none comes.
pub fn received_right(bus: &Bus, made: &Move, received: u32) -> bool
    requires there { CanApply made.now }
    ensures { result ≡ spec.received_right bus.now made.now received }
{
    match *made {
        Move::Write(Reg::SerialData(unit), _) => may_come_in(bus, unit, received),
        _ => received == 0,
    }
}

/// How a serial unit names a device, or none.
fn select_of(device: Option<u8>) -> u32
    ensures { result ≡ select_of device }
{
    match device {
        Some(place) => place as u32 + 1,
        None => 0,
    }
}

/// Whether a word that begins is the one that a write to a serial unit begins.
fn is_begun_by(bus: &Bus, unit: u32, sent: u32, begun: Begun) -> bool
    ensures { result ≡ spec.is_begun_by (unit_at bus.now.serials unit) unit sent begun }
{
    unit == begun.unit
        && bus.outgoing(unit, sent) == begun.word
        && bus.width(unit).min(16) == begun.width as u32
        && bus.selected(unit) == select_of(begun.device)
}

/// Whether a word is written to a serial unit exactly where the machines begin one, and it is that word.
pub fn sends_right(bus: &Bus, begins: Option<Begun>, made: &Move) -> bool
    ensures { result ≡ spec.sends_right bus.now begins made.now }
{
    match (begins, *made) {
        (None, Move::Write(Reg::SerialData(_), _)) => false,
        (None, _) => true,
        (Some(begun), Move::Write(Reg::SerialData(unit), sent)) => {
            is_begun_by(bus, unit, sent, begun)
        }
        (Some(_), _) => false,
    }
}

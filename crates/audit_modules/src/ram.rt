ghost use Rattle.std.specs.Prelude.{◌≡◌, ◌<◌, slice_index};
ghost use Rattle.module_machines.specs.mcu.Bounds.{RamAgrees};
ghost use Rattle.module_machines.specs.mcu.Machine.{McuState, ram_at};
ghost use Rattle.audit_clock.specs.ClockStands.{StandsFor};
ghost use Rattle.audit_frames.specs.Decides.{Decides};

use audit_clock::Clock;
use chip_model::Bus;

/// How many RAM words there are.
const RAM: u32 = 512;

/// Whether a RAM word is the machine's.
fn has_word(clock: &Clock, bus: &Bus, number: u32) -> bool
    requires { number < 512 }
    ensures { (s : McuState) → StandsFor clock.now s → Decides result (slice_index bus.now.ram number ≡ ram_at s number) }
{
    bus.ram(number) == clock.ram(number)
}

/// Whether all RAM words are the machine's.
pub fn ram_agrees(clock: &Clock, bus: &Bus) -> bool
    ensures { (s : McuState) → StandsFor clock.now s → Decides result (RamAgrees bus.now.ram s) }
{
    for number in 0..RAM {
        if !has_word(clock, bus, number) {
            return false;
        }
    }
    true
}

ghost use Rattle.std.specs.Prelude.{◌≡◌};
ghost use Rattle.chip_blocks.specs.pulses.Pulses as chip;
ghost use Rattle.module_machines.specs.pwm.Bounds.{OutputsAgree};
ghost use Rattle.module_machines.specs.pwm.Machine as machine;
ghost use Rattle.run_model.specs.World.{World};
ghost use Rattle.audit_frames.specs.Decides.{Decides};

use audit_pulses::Pulses;
use chip_model::Bus;

/// How many pulse units there are.
const UNITS: u32 = 8;

/// Whether two levels are the same.
pub(crate) fn is_same(first: bool, second: bool) -> bool
    ensures { Decides result (first ≡ second) }
{
    first == second
}

/// Whether the output of a pulse unit is the machine's.
fn has_output(pulses: &Pulses, bus: &Bus, unit: u32, now: u64) -> bool
    ensures { (w : World) → w.now ≡ now → Decides result (chip.level_at bus.now.pulses unit ≡ machine.level_at pulses.now.driver w pulses.now.state unit) }
{
    is_same(bus.pulse_level(unit), pulses.level(unit, now))
}

/// Whether the outputs of all pulse units are the machine's.
pub fn outputs_agree(pulses: &Pulses, bus: &Bus, now: u64) -> bool
    ensures { (w : World) → w.now ≡ now → Decides result (OutputsAgree pulses.now.driver bus.now.pulses w pulses.now.state) }
{
    for unit in 0..UNITS {
        if !has_output(pulses, bus, unit, now) {
            return false;
        }
    }
    true
}

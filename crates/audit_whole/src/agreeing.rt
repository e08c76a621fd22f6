ghost use Rattle.std.specs.Bool.{OnTrue};
ghost use Rattle.std.specs.Prelude.{map};
ghost use Rattle.run_model.specs.World.{World};
ghost use Rattle.spi_machine.specs.State.{SpiState};
ghost use Rattle.audit_base.specs.Outside.{IsWorld};
ghost use Rattle.audit_frames.specs.Decides.{Decides};
ghost use Rattle.audit_machines.specs.System.{SystemState};
ghost use Rattle.audit_modules.specs.Agrees.{HasRoom};
ghost use Rattle.audit_subject.specs.Origins.{origin_of};
ghost use Rattle.audit_whole.specs.Aspects.{agrees};

use crate::aspects::Aspect;
use crate::origins::{module_of, pins_are_busy};
use audit_base::{Outside, Part};
use audit_machines::{AllModules, AnyCall};
use audit_modules::{
    arrays_agree, arrays_stand, outputs_agree, outputs_stand, pins_stand, ram_agrees, rests,
    results_agree, shows, stamps_agree,
};
use audit_subject::{Origin, Subject};
use chip_model::Bus;
use mcal_base::Notice;

/// Whether those outputs, pins and user arrays are the machine's that are so wherever the mask is open, over frames that were
/// begun for these.
pub fn agrees_open(
    modules: &AllModules,
    outside: &Outside,
    bus: &Bus,
    origins: &[Origin<AnyCall>],
) -> bool
    ensures { (w : World) (s : SystemState SpiState) → IsWorld outside.now w → ⟦<AllModules as Part>⟧.stands modules.now s →
        Decides result ((⟦<AllModules as Subject>⟧.setting (⟦<AllModules as Part>⟧.table modules.now)).unmasked bus.now w s (map origin_of origins.now)) }
{
    if !outputs_stand(modules, outside, bus, pins_are_busy(origins)) {
        return false;
    }
    arrays_stand(modules, bus)
}

/// Whether pins, RAM and user arrays are the machine's, with no frame under way.
pub fn agrees_at_rest(modules: &AllModules, bus: &Bus) -> bool
    requires { HasRoom (⟦<AllModules as Part>⟧.table modules.now).0.1.1.0 }
    ensures { (w : World) (s : SystemState SpiState) → ⟦<AllModules as Part>⟧.stands modules.now s →
        Decides result ((⟦<AllModules as Subject>⟧.setting (⟦<AllModules as Part>⟧.table modules.now)).rest bus.now w s) }
{
    rests(modules, bus)
}

/// Whether the user arrays of the object that a notice names are the machine's, at a notice of a frame that was begun for
/// this.
pub fn agrees_at(modules: &AllModules, bus: &Bus, origin: &Origin<AnyCall>, notice: Notice) -> bool
    requires { HasRoom (⟦<AllModules as Part>⟧.table modules.now).0.1.1.0 }
    ensures { (s : SystemState SpiState) → ⟦<AllModules as Part>⟧.stands modules.now s →
        Decides result ((⟦<AllModules as Subject>⟧.setting (⟦<AllModules as Part>⟧.table modules.now)).shows (origin_of origin.now) notice bus.now s) }
{
    match origin {
        Origin::Call(call) => shows(modules, bus, module_of(call), notice),
        Origin::Line(line) => shows(modules, bus, modules.owner(*line), notice),
    }
}

/// Whether chip and machines agree in one aspect.
pub fn agrees_in(modules: &AllModules, aspect: Aspect, outside: &Outside, bus: &Bus) -> bool
    requires { HasRoom (⟦<AllModules as Part>⟧.table modules.now).0.1.1.0 }
    ensures { (w : World) (s : SystemState SpiState) → IsWorld outside.now w → ⟦<AllModules as Part>⟧.stands modules.now s →
        OnTrue result (agrees aspect (⟦<AllModules as Part>⟧.table modules.now).0 bus.now w s) }
{
    let host = &modules.host;
    match aspect {
        Aspect::Outputs => outputs_agree(&host.second.first.first, bus, outside.time),
        Aspect::Pins => pins_stand(&host.first.second.first, bus.pins(), false),
        Aspect::Ram => ram_agrees(&host.first.first.first, bus),
        Aspect::Stamps => stamps_agree(&host.second.first.second, bus),
        Aspect::Results => results_agree(&host.second.second.first, bus),
        Aspect::Arrays => arrays_agree(&host.second.second.second, bus),
    }
}

ghost use Rattle.run_model.specs.World.{World};
ghost use Rattle.spi_machine.specs.State.{SpiState};
ghost use Rattle.audit_base.specs.Outside.{IsWorld};
ghost use Rattle.audit_frames.specs.Decides.{Decides};
ghost use Rattle.audit_machines.specs.System.{SystemState};
ghost use Rattle.audit_modules.specs.Agrees.{ArraysStand, HasRoom, OutputsStand, Rests, Shows};

use crate::arrays::{arrays_agree, named_have_arrays};
use crate::outputs::outputs_agree;
use crate::pins::{pins_agree, pins_stand};
use crate::ram::ram_agrees;
use crate::results::{results_agree, results_stand};
use crate::stamps::{stamps_agree, stamps_stand};
use audit_base::{Outside, Part};
use audit_machines::AllModules;
use chip_model::Bus;
use mcal_base::{ModuleName, Notice};

/// Whether the outputs of all pulse units are the machine's and, unless the pins are busy, all pins, as they are wherever the
/// mask is open. The pins are busy while an exclusive call of their module is under way.
pub fn outputs_stand(modules: &AllModules, outside: &Outside, bus: &Bus, busy: bool) -> bool
    ensures { (w : World) (s : SystemState SpiState) → IsWorld outside.now w → ⟦<AllModules as Part>⟧.stands modules.now s →
        Decides result (OutputsStand (⟦<AllModules as Part>⟧.table modules.now).0 bus.now w s busy) }
{
    if !outputs_agree(&modules.host.second.first.first, bus, outside.time) {
        return false;
    }
    pins_stand(&modules.host.first.second.first, bus.pins(), busy)
}

/// Whether the users' arrays of all serial channels are the machine's, as they are wherever the mask is open.
pub fn arrays_stand(modules: &AllModules, bus: &Bus) -> bool
    ensures { (s : SystemState SpiState) → ⟦<AllModules as Part>⟧.stands modules.now s →
        Decides result (ArraysStand (⟦<AllModules as Part>⟧.table modules.now).0 bus.now s) }
{
    arrays_agree(&modules.host.second.second.second, bus)
}

/// Whether RAM, pins and all arrays of users are the machine's, as they are at rest.
pub fn rests(modules: &AllModules, bus: &Bus) -> bool
    requires { HasRoom (⟦<AllModules as Part>⟧.table modules.now).0.1.1.0 }
    ensures { (s : SystemState SpiState) → ⟦<AllModules as Part>⟧.stands modules.now s →
        Decides result (Rests (⟦<AllModules as Part>⟧.table modules.now).0 bus.now s) }
{
    let host = &modules.host;
    if !ram_agrees(&host.first.first.first, bus) {
        return false;
    }
    if !pins_agree(&host.first.second.first, bus.pins()) {
        return false;
    }
    if !stamps_agree(&host.second.first.second, bus) {
        return false;
    }
    if !results_agree(&host.second.second.first, bus) {
        return false;
    }
    arrays_agree(&host.second.second.second, bus)
}

/// Whether the users' arrays of the object that a notice names are the machine's, where a frame of this module gives it: of a
/// capture channel, of a converter group, or of the channels of a serial job or sequence.
pub fn shows(modules: &AllModules, bus: &Bus, owner: ModuleName, notice: Notice) -> bool
    requires { HasRoom (⟦<AllModules as Part>⟧.table modules.now).0.1.1.0 }
    ensures { (s : SystemState SpiState) → ⟦<AllModules as Part>⟧.stands modules.now s →
        Decides result (Shows owner (⟦<AllModules as Part>⟧.table modules.now).0 notice bus.now s) }
{
    let host = &modules.host;
    match owner {
        ModuleName::Icu => stamps_stand(&host.second.first.second, bus, notice.id),
        ModuleName::Adc => results_stand(&host.second.second.first, bus, notice.id),
        ModuleName::Spi => named_have_arrays(&host.second.second.second, bus, notice),
        _ => true,
    }
}

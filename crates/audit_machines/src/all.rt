ghost use Rattle.std.specs.Prelude.{◌≡◌, ℕ, IfOk};
ghost use Rattle.config_facts.specs.Valid.{IsValid};
ghost use Rattle.module_machines.specs.pwm.Table as pulses;
ghost use Rattle.run_model.specs.World.{world_start};
ghost use Rattle.spi_machine.specs.State.{first_state};
ghost use Rattle.spi_machine.specs.Table as serial;
ghost use Rattle.audit_base.specs.Outside.{IsWorld};
ghost use Rattle.audit_machines.specs.Happens.{places_of};
ghost use Rattle.audit_machines.specs.System.{all_tables, first_states};

use crate::hosted::Hosted;
use crate::machines::Machines;
use crate::whole::{StateParts, after_power_on};
use audit_base::Part;
use audit_serial::Serials;
use mcal_base::{Config, NoMemory};
use spi_machine::SpiTable;
use std::alloc::Global;

/// All modules.
pub type AllModules = Hosted<StateParts<Serials>>;

impl Machines<AllModules> {
    /// The machines of all modules after power on. The number of devices counts for nothing.
    #[tactic(auto, using(crate::proofs::Valid::small_converters, crate::proofs::Valid::short_channels, crate::proofs::Valid::groups_fit))]
    pub fn new(alloc: Global, config: &Config) -> Result<Machines, NoMemory>
        requires { IsValid config.now }
        ensures stands { IfOk result (λ m. ⟦<AllModules as Part>⟧.stands m.modules (first_states first_state)) }
        ensures world { IfOk result (λ m. (devices : ℕ) → IsWorld m.outside (world_start devices)) }
        ensures fits { IfOk result (λ m. ⟦<AllModules as Part>⟧.fits m.modules m.outside) }
        ensures table { IfOk result (λ m. ⟦<AllModules as Part>⟧.table m.modules ≡ all_tables config.now (serial.table_of config.now.spi)) }
        ensures places { IfOk result (λ m. m.places ≡ places_of (pulses.table_of config.now.pwm)) }
        ensures start { IfOk result (λ m. (m.outside.told ≡ 0) × (m.outside.osc ≡ 0)) }
    {
        let units = Serials::new(alloc, SpiTable::new(config));
        match after_power_on(alloc, config, units) {
            Ok(machines) => Ok(machines),
            Err(_) => Err(NoMemory),
        }
    }
}

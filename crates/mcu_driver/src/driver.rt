ghost use Rattle.std.specs.Prelude.{◌≡◌};
ghost use Rattle.service_outline.specs.Done.{owed_error};
ghost use Rattle.module_machines.specs.mcu.Checks.{reporting};
ghost use Rattle.module_machines.specs.mcu.Table as spec;
ghost use Rattle.module_machines.specs.mcu.Bounds as bounds;

use mcal_base::{Config, ErrorName, ModuleName, Service};
use module_machines::mcu::McuTable;
use service_outline::Epilogue;
use std::marker::Model;
use std::ops::Deref;

/// The driver: what it keeps of a configuration, and no more. Contracts see its table.
#[derive(Clone, Copy)]
pub struct McuDriver {
    table: McuTable,
}

impl Model for McuDriver {
    ghost use Rattle.module_machines.specs.declared.mcu.table.McuTable.{McuTable};

    ghost Value = { McuTable };

    ghost view = { λ driver. driver.table };

    ghost inverse = { λ table. record { table = table } };
}

impl Deref for McuDriver {
    type Target = McuTable;

    ghost deref_gives = { λ driver table. table ≡ driver };

    fn deref(&self) -> &McuTable {
        &self.table
    }
}

impl McuDriver {
    /// The driver under a configuration. It takes no memory.
    pub fn new(config: &Config) -> McuDriver
        ensures { result ≡ spec.table_of config.now.mcu }
    {
        McuDriver {
            table: McuTable::new(config),
        }
    }

    /// What a call of a service owes for an error.
    pub fn owed(&self, service: Service, error: ErrorName) -> Epilogue
        ensures { result ≡ owed_error (reporting self.now) service error }
    {
        service_outline::error(self.detect, 1, service, error)
    }

    /// The level of a line. The module uses none, so it is that of an unused line.
    pub fn level(&self, _line: u32) -> u32
        ensures { result ≡ bounds.level_of _line }
    {
        1
    }

    /// The module to which the handler of a line would belong.
    pub fn owner(&self, _line: u32) -> ModuleName
        ensures { result ≡ bounds.owner_of _line }
    {
        ModuleName::Mcu
    }
}

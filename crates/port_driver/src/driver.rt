ghost use Rattle.std.specs.Prelude.{◌≡◌};
ghost use Rattle.module_machines.specs.port.Table as spec;
ghost use Rattle.module_machines.specs.port.Bounds as bounds;

use mcal_base::{Config, ModuleName};
use module_machines::port::PortTable;
use std::marker::Model;
use std::ops::Deref;

/// The driver: what it keeps of a configuration, and no more. Contracts see its table.
#[derive(Clone, Copy)]
pub struct PortDriver {
    table: PortTable,
}

impl Model for PortDriver {
    ghost use Rattle.module_machines.specs.declared.port.table.PortTable.{PortTable};

    ghost Value = { PortTable };

    ghost view = { λ driver. driver.table };

    ghost inverse = { λ table. record { table = table } };
}

impl Deref for PortDriver {
    type Target = PortTable;

    ghost deref_gives = { λ driver table. table ≡ driver };

    fn deref(&self) -> &PortTable {
        &self.table
    }
}

impl PortDriver {
    /// The driver under a configuration. It takes no memory.
    pub fn new(config: &Config) -> PortDriver
        ensures { result ≡ spec.table_of config.now.port }
    {
        PortDriver {
            table: PortTable::new(config),
        }
    }

    /// The level of a line. The module uses none, so it is that of an unused line.
    pub fn level(&self, _line: u32) -> u32
        ensures { result ≡ bounds.level_of _line }
    {
        1
    }

    /// The module to which the handler of a line would belong.
    pub fn owner(&self, _line: u32) -> ModuleName
        ensures { result ≡ bounds.owner_of _line }
    {
        ModuleName::Port
    }
}

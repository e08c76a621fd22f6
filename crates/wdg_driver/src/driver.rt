ghost use Rattle.std.specs.Prelude.{◌≡◌};
ghost use Rattle.service_outline.specs.Done.{owed_error};
ghost use Rattle.module_machines.specs.wdg.Checks.{reporting};
ghost use Rattle.module_machines.specs.wdg.Table as spec;

use mcal_base::{Config, ErrorName, Service};
use module_machines::wdg::WdgTable;
use service_outline::Epilogue;
use std::marker::Model;
use std::ops::Deref;

/// The driver: what it keeps of a configuration, and no more. Contracts see its table.
#[derive(Clone, Copy)]
pub struct WdgDriver {
    table: WdgTable,
}

impl Model for WdgDriver {
    ghost use Rattle.module_machines.specs.declared.wdg.table.WdgTable.{WdgTable};

    ghost Value = { WdgTable };

    ghost view = { λ driver. driver.table };

    ghost inverse = { λ table. record { table = table } };
}

impl Deref for WdgDriver {
    type Target = WdgTable;

    ghost deref_gives = { λ driver table. table ≡ driver };

    fn deref(&self) -> &WdgTable {
        &self.table
    }
}

impl WdgDriver {
    /// The driver under a configuration. It takes no memory.
    pub fn new(config: &Config) -> WdgDriver
        ensures { result ≡ spec.table_of config.now.wdg }
    {
        WdgDriver {
            table: WdgTable::new(config),
        }
    }

    /// What a call of a service owes for an error.
    pub fn owed(&self, service: Service, error: ErrorName) -> Epilogue
        ensures { result ≡ owed_error (reporting self.now) service error }
    {
        service_outline::error(self.detect, 1, service, error)
    }
}

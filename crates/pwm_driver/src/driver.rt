ghost use Rattle.std.specs.Prelude.{◌≡◌};
ghost use Rattle.service_outline.specs.Done.{owed_error};
ghost use Rattle.module_machines.specs.pwm.Checks.{reporting};
ghost use Rattle.module_machines.specs.pwm.Table as spec;

use mcal_base::{Config, ErrorName, Service};
use module_machines::pwm::PwmTable;
use service_outline::Epilogue;
use std::marker::Model;
use std::ops::Deref;

/// The pulse driver: what it keeps of a configuration, and no more. Contracts see its table.
#[derive(Clone, Copy)]
pub struct PwmDriver {
    table: PwmTable,
}

impl Model for PwmDriver {
    ghost use Rattle.module_machines.specs.declared.pwm.table.PwmTable.{PwmTable};

    ghost Value = { PwmTable };

    ghost view = { λ driver. driver.table };

    ghost inverse = { λ table. record { table = table } };
}

impl Deref for PwmDriver {
    type Target = PwmTable;

    ghost deref_gives = { λ driver table. table ≡ driver };

    fn deref(&self) -> &PwmTable {
        &self.table
    }
}

impl PwmDriver {
    /// The driver under a configuration. It takes no memory.
    pub fn new(config: &Config) -> PwmDriver
        ensures { result ≡ spec.table_of config.now.pwm }
    {
        PwmDriver {
            table: PwmTable::new(config),
        }
    }

    /// What a call of a service owes for an error.
    pub fn owed(&self, service: Service, error: ErrorName) -> Epilogue
        ensures { result ≡ owed_error (reporting self.now) service error }
    {
        service_outline::error(self.detect, 1, service, error)
    }
}

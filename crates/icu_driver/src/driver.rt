ghost use Rattle.std.specs.Prelude.{◌≡◌};
ghost use Rattle.service_outline.specs.Done.{owed_error};
ghost use Rattle.module_machines.specs.icu.Checks.{reporting};
ghost use Rattle.module_machines.specs.icu.Classes.{class_of};
ghost use Rattle.module_machines.specs.icu.Table as spec;
ghost use Rattle.module_machines.specs.icu.Bounds as bounds;

use mcal_base::{Config, ErrorName, ModuleName, Service};
use module_machines::icu::{Call, IcuTable};
use run_model::Class;
use service_outline::Epilogue;
use std::marker::Model;
use std::ops::Deref;

/// The capture driver: what it keeps of a configuration, and no more. Contracts see its table.
#[derive(Clone, Copy)]
pub struct IcuDriver {
    table: IcuTable,
}

impl Model for IcuDriver {
    ghost use Rattle.module_machines.specs.declared.icu.table.IcuTable.{IcuTable};

    ghost Value = { IcuTable };

    ghost view = { λ driver. driver.table };

    ghost inverse = { λ table. record { table = table } };
}

impl Deref for IcuDriver {
    type Target = IcuTable;

    ghost deref_gives = { λ driver table. table ≡ driver };

    fn deref(&self) -> &IcuTable {
        &self.table
    }
}

impl IcuDriver {
    /// The driver under a configuration. It takes no memory.
    pub fn new(config: &Config) -> IcuDriver
        ensures { result ≡ spec.table_of config.now.icu }
    {
        IcuDriver {
            table: IcuTable::new(config),
        }
    }

    /// What a call of a service owes for an error.
    pub fn owed(&self, service: Service, error: ErrorName) -> Epilogue
        ensures { result ≡ owed_error (reporting self.now) service error }
    {
        service_outline::error(self.detect, self.classification, service, error)
    }

    /// The class of a call.
    pub fn class(&self, call: &Call) -> Class
        ensures { result ≡ class_of call.now }
    {
        call.class()
    }

    /// The level of a line, 1 where no configured channel uses it.
    pub fn level(&self, line: u32) -> u32
        ensures { result ≡ bounds.level_of self.now line }
    {
        match self.channel_of_line(line) {
            Some(channel) => channel.level,
            None => 1,
        }
    }

    /// The module to which a line's handler belongs.
    pub fn owner(&self, _line: u32) -> ModuleName
        ensures { result ≡ bounds.owner_of _line }
    {
        ModuleName::Icu
    }
}

ghost use Rattle.std.specs.Prelude.{◌≡◌};
ghost use Rattle.mcal_base.specs.Bits.{bits_of};
ghost use Rattle.service_outline.specs.Done.{owed_error};
ghost use Rattle.module_machines.specs.gpt.Machine.{reporting};
ghost use Rattle.module_machines.specs.gpt.Table as spec;

use crate::words::bit;
use mcal_base::{Config, ErrorName, Service};
use module_machines::gpt::GptTable;
use service_outline::Epilogue;
use std::marker::Model;
use std::ops::Deref;

/// The timer driver: what it keeps of a configuration, and no more. Contracts see its table.
#[derive(Clone, Copy)]
pub struct GptDriver {
    table: GptTable,
}

impl Model for GptDriver {
    ghost use Rattle.module_machines.specs.declared.gpt.table.GptTable.{GptTable};

    ghost Value = { GptTable };

    ghost view = { λ driver. driver.table };

    ghost inverse = { λ table. record { table = table } };
}

impl Deref for GptDriver {
    type Target = GptTable;

    ghost deref_gives = { λ driver table. table ≡ driver };

    fn deref(&self) -> &GptTable {
        &self.table
    }
}

impl GptDriver {
    /// The driver under a configuration. It takes no memory.
    pub fn new(config: &Config) -> GptDriver
        ensures { result ≡ spec.table_of config.now.gpt }
    {
        GptDriver {
            table: GptTable::new(config),
        }
    }

    /// What a call of a service owes for an error.
    pub fn owed(&self, service: Service, error: ErrorName) -> Epilogue
        ensures { result ≡ owed_error (reporting self.now) service error }
    {
        service_outline::error(self.detect, self.classification, service, error)
    }

    /// The bits of the one-shot channels.
    pub fn one_shot_bits(&self) -> u32
        ensures { result ≡ bits_of (spec.is_one_shot self.now) 8 }
    {
        let mut bits = 0;
        for number in 0..8u8 {
            if self.is_one_shot(number) {
                bits |= bit(number);
            }
        }
        bits
    }

    fn is_one_shot(&self, number: u8) -> bool
        ensures { result ≡ spec.is_one_shot self.now number }
    {
        match self.channel(u32::from(number)) {
            Some(channel) => channel.one_shot,
            None => false,
        }
    }
}

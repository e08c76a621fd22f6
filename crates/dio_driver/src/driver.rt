ghost use Rattle.std.specs.Prelude.{◌≡◌};
ghost use Rattle.module_machines.specs.dio.Checks as checks;
ghost use Rattle.module_machines.specs.dio.Table as spec;
ghost use Rattle.dio_driver.specs.Frames as frames;

use crate::access::Access;
use crate::frame::DioFrame;
use mcal_base::det_errors::{Facts, first_error, reported};
use mcal_base::{Config, DevError, ModuleName};
use module_machines::dio::{Call, DioTable};
use run_model::{Class, Kind};
use std::marker::Model;
use std::ops::Deref;

/// The most steps of a call.
pub const MOST_STEPS: u32 = 64;

/// The driver: what it keeps of a configuration, and no more. Contracts see its table.
#[derive(Clone, Copy)]
pub struct DioDriver {
    table: DioTable,
}

impl Model for DioDriver {
    ghost use Rattle.module_machines.specs.declared.dio.table.DioTable.{DioTable};

    ghost Value = { DioTable };

    ghost view = { λ driver. driver.table };

    ghost inverse = { λ table. record { table = table } };
}

impl Deref for DioDriver {
    type Target = DioTable;

    ghost deref_gives = { λ driver table. table ≡ driver };

    fn deref(&self) -> &DioTable {
        &self.table
    }
}

impl DioDriver {
    /// The driver under a configuration. It takes no memory.
    pub fn new(config: &Config) -> DioDriver
        ensures { result ≡ spec.table_of config.now.port config.now.dio }
    {
        DioDriver {
            table: DioTable::new(config),
        }
    }

    /// The class of each call: a guarded one of the pins' module.
    pub fn class(&self) -> Class
        ensures { result ≡ checks.class }
    {
        Class {
            kind: Kind::Guarded,
            module: ModuleName::Port,
            key: None,
        }
    }

    /// The frame of a call that begins.
    pub fn frame(&self, call: &Call) -> DioFrame
        ensures { result ≡ frames.frame_of self.now call.now }
    {
        match self.pins_of(*call) {
            Some(pins) => DioFrame::Access(Access::of(*call, pins)),
            None => DioFrame::Refused(*call, self.report(*call)),
        }
    }

    /// What is reported of a call whose channel, port or group isn't configured.
    fn report(&self, call: Call) -> Option<DevError>
        ensures { result ≡ frames.report_of self.now call }
    {
        let service = call.service();
        let facts = Facts {
            holds: [true, false, false, false, false, false],
        };
        let error = first_error(service, &facts)?;
        let runtime = reported(self.detect, 1, error)?;
        Some(DevError {
            service,
            error,
            runtime,
        })
    }
}

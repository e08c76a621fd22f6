ghost use Rattle.std.specs.Prelude.{◌≡◌};
ghost use Rattle.spi_machine.specs.Table.{table_of};

use mcal_base::Config;
use spi_machine::SpiTable;

/// The serial driver.
#[derive(Clone, Copy)]
pub struct SpiDriver {
    /// What it keeps of a configuration.
    pub table: SpiTable,
}

impl SpiDriver {
    /// The driver under a configuration. It takes no memory.
    pub fn new(config: &Config) -> SpiDriver
        ensures { result.table ≡ table_of config.now.spi }
    {
        SpiDriver {
            table: SpiTable::new(config),
        }
    }
}

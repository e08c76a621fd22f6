ghost use Rattle.std.specs.Prelude.{◌≡◌};
ghost use Rattle.adc_machine.specs.Table.{AreSmall, table_of};

use adc_machine::AdcTable;
use mcal_base::Config;

/// The converter driver.
#[derive(Drop)]
pub struct AdcDriver {
    /// What it keeps of a configuration.
    pub table: AdcTable,
}

impl AdcDriver {
    /// The driver under a configuration. It takes no memory.
    pub fn new(config: &Config) -> AdcDriver
        requires { AreSmall config.now.adc }
        ensures { result.table ≡ table_of config.now.adc }
    {
        AdcDriver {
            table: AdcTable::new(config),
        }
    }
}

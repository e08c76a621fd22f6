ghost use Rattle.std.specs.Prelude.{◌≡◌};
ghost use Rattle.audit_serial.specs.Short.{IsShort};

use spi_machine::SpiTable;

/// What is configured: no channel has more than 64 words.
#[derive(Drop)]
pub struct Configured {
    /// What is kept of the configuration.
    pub table: SpiTable,
    ghost short: { IsShort table },
}

impl Configured {
    /// Under a configuration.
    pub(crate) fn new(table: SpiTable) -> Configured
        requires { IsShort table }
        ensures { result.table ≡ table }
    {
        Configured { table }
    }

    /// What is kept of the configuration.
    pub(crate) fn table(&self) -> &SpiTable
        ensures { result.now ≡ self.now.table }
    {
        &self.table
    }
}

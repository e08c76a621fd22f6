ghost use Rattle.std.specs.Prelude.{◌≡◌};
ghost use Rattle.audit_clock.specs.Sections.{AreShort};

use module_machines::mcu::McuTable;

/// What is configured of clock, resets and RAM: no section has more than 64 words.
#[derive(Drop)]
pub struct Configured {
    /// What is kept of the configuration.
    pub table: McuTable,
    ghost short: { AreShort table },
}

impl Configured {
    /// Under a configuration.
    pub(crate) fn new(table: McuTable) -> Configured
        requires { AreShort table }
        ensures { result.table ≡ table }
    {
        Configured { table }
    }

    /// What is kept of the configuration.
    pub(crate) fn table(&self) -> &McuTable
        ensures is { result.now ≡ self.now.table }
        ensures short { AreShort result.now }
    {
        &self.table
    }
}

ghost use Rattle.std.specs.Prelude.{◌≡◌};
ghost use Rattle.module_machines.specs.wdg.Numbers as numbers;
ghost use Rattle.module_machines.specs.wdg.Table as spec;

use mcal_base::{Config, WdgMode};

/// A mode with a timeout, as the watchdog is started with them.
#[derive(Clone, Copy)]
pub struct Timing {
    /// The mode.
    pub mode: WdgMode,
    /// The timeout, in units of the mode.
    pub timeout: u16,
}

/// What the driver keeps of a configuration.
#[derive(Clone, Copy)]
pub struct WdgTable {
    /// `WdgDevErrorDetect`.
    pub detect: bool,
    /// `WdgDefaultMode` and `InitialTicks`: the mode and the timeout after `Wdg_Init`.
    pub initial: Timing,
    /// `WdgDisableAllowed`: whether `Wdg_SetMode` may set the off mode.
    pub disable_allowed: bool,
    /// `MaxTicks`: the largest timeout.
    pub max_ticks: u16,
}

impl WdgTable {
    /// The table of a configuration. It takes no memory.
    pub fn new(config: &Config) -> WdgTable
        ensures { result ≡ spec.table_of config.now.wdg }
    {
        WdgTable {
            detect: config.wdg.dev_error_detect,
            initial: Timing {
                mode: config.wdg.default_mode,
                timeout: narrow(config.wdg.initial_ticks),
            },
            disable_allowed: config.wdg.disable_allowed,
            max_ticks: narrow(config.wdg.max_ticks),
        }
    }

    /// Whether `Wdg_SetMode` may set this mode.
    pub fn allows(&self, mode: WdgMode) -> bool
        ensures { result ≡ spec.allows self.now mode }
    {
        match mode {
            WdgMode::Off => self.disable_allowed,
            WdgMode::Slow | WdgMode::Fast => true,
        }
    }
}

/// A number of at most 16 bits, 0 for any other.
pub fn narrow(number: u32) -> u16
    ensures { result ≡ numbers.narrow number }
{
    if number < 65_536 { number as u16 } else { 0 }
}

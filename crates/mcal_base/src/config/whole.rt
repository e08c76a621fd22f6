use crate::config::adc::AdcConfig;
use crate::config::dio::DioConfig;
use crate::config::gpt::GptConfig;
use crate::config::icu::IcuConfig;
use crate::config::mcu::McuConfig;
use crate::config::port::PortConfig;
use crate::config::pwm::PwmConfig;
use crate::config::spi::SpiConfig;
use crate::config::wdg::WdgConfig;

/// A configuration: a record a module, in the order of the walk. The default has no objects.
#[derive(Debug, Default, Drop)]
pub struct Config {
    /// The clock, modes and RAM sections.
    pub mcu: McuConfig,
    /// The pins.
    pub port: PortConfig,
    /// The timers.
    pub gpt: GptConfig,
    /// The pulse outputs.
    pub pwm: PwmConfig,
    /// The capture inputs.
    pub icu: IcuConfig,
    /// The converter units and groups.
    pub adc: AdcConfig,
    /// The serial channels, jobs and sequences.
    pub spi: SpiConfig,
    /// The groups of pins.
    pub dio: DioConfig,
    /// The watchdog.
    pub wdg: WdgConfig,
}

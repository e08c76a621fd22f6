ghost use Rattle.std.specs.Prelude.{◌≤◌};
ghost use Rattle.std.specs.Option.{IfSome};
ghost use Rattle.config_facts.specs.Valid.{IsValid};

use chip_model::Bus;
use live_board::Live;
use mcal_base::{Config, NoMemory};
use script_runner::Caller;
use std::alloc::Global;

/// A board that a session can have: its driver, how it is switched on, and what a show asks of the driver while no frame is
/// under way.
pub trait Sights {
    /// The driver.
    type Driver: Caller;

    /// The driver on the chip at power on, under a configuration and with so many devices.
    fn powered(
        alloc: Global,
        config: &Config,
        devices: usize,
    ) -> Result<Live<Self::Driver>, NoMemory>
        requires valid { IsValid config.now };

    /// How many places of a capture channel's stamps are shown, where it was started since the last reset.
    fn stamps(driver: &Self::Driver, bus: &Bus, channel: u32) -> Option<u32>;

    /// The number of the chosen buffer of a converter group, and its places.
    fn results(driver: &Self::Driver, bus: &Bus, group: u32) -> Option<(u32, u32)>
        ensures { IfSome result (λ found. found.0 ≤ 1) };

    /// Whether a serial channel is internal, and its words, where it is configured.
    fn channel(driver: &Self::Driver, number: u32) -> Option<(bool, u32)>;

    /// A word that an internal serial channel sends, or that may be read of it.
    fn internal(driver: &Self::Driver, bus: &Bus, channel: u32, received: bool, place: u32) -> u32;
}

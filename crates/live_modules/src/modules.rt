ghost use Rattle.std.specs.Prelude.{◌≤◌};

use adc_machine::ResultBuffer;
use chip_model::Bus;
use live_board::Live;
use live_session::Sights;
use mcal_base::{Config, NoMemory};
use mcal_drivers::Drivers;
use std::alloc::Global;

/// The words that may be given to come in since power on.
const WORDS_IN: usize = 65_536;

/// The board with the drivers of all modules.
pub struct AllModules;

/// The number of a buffer.
fn buffer_number(buffer: ResultBuffer) -> u32
    ensures { result ≤ 1 }
{
    match buffer {
        ResultBuffer::Zero => 0,
        ResultBuffer::One => 1,
    }
}

impl Sights for AllModules {
    type Driver = Drivers;

    fn powered(alloc: Global, config: &Config, devices: usize) -> Result<Live<Drivers>, NoMemory> {
        let drivers = Drivers::new(config);
        Live::new(alloc, drivers, config, WORDS_IN, devices)
    }

    fn stamps(driver: &Drivers, bus: &Bus, channel: u32) -> Option<u32> {
        driver.captures().stamps(bus, channel)
    }

    fn results(driver: &Drivers, bus: &Bus, group: u32) -> Option<(u32, u32)> {
        match driver.converters().chosen(bus, group) {
            None => None,
            Some(buffer) => Some((buffer_number(buffer), driver.converters().places(group))),
        }
    }

    fn channel(driver: &Drivers, number: u32) -> Option<(bool, u32)> {
        match driver.serial().table.channel(number) {
            None => None,
            Some(channel) => Some((channel.internal, u32::from(channel.length))),
        }
    }

    fn internal(driver: &Drivers, bus: &Bus, channel: u32, received: bool, place: u32) -> u32 {
        driver.serial().internal(bus, channel, received, place)
    }
}

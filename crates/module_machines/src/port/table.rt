ghost use Rattle.std.specs.Prelude.{◌≡◌, ◌<◌};
ghost use Rattle.module_machines.specs.port.Table as spec;

use mcal_base::{Config, PortPin, PortPinDirection, PortPinMode};

/// How many pins there are.
const PINS: u32 = 64;

/// Which modes a pin may have.
#[derive(Clone, Copy)]
pub struct Modes {
    /// `PORT_PIN_MODE_ADC`
    pub adc: bool,
    /// `PORT_PIN_MODE_DIO`
    pub dio: bool,
    /// `PORT_PIN_MODE_ICU`
    pub icu: bool,
    /// `PORT_PIN_MODE_PWM`
    pub pwm: bool,
    /// `PORT_PIN_MODE_SPI`
    pub spi: bool,
}

impl Modes {
    /// Whether a mode is one of these.
    pub fn has(self, mode: PortPinMode) -> bool
        ensures { result ≡ spec.is_among self mode }
    {
        match mode {
            PortPinMode::Adc => self.adc,
            PortPinMode::Dio => self.dio,
            PortPinMode::Icu => self.icu,
            PortPinMode::Pwm => self.pwm,
            PortPinMode::Spi => self.spi,
        }
    }
}

/// A configured pin.
#[derive(Clone, Copy)]
pub struct Pin {
    /// `PortPinDirection`: its direction after `Port_Init`.
    pub direction: PortPinDirection,
    /// `PortPinDirectionChangeable`.
    pub direction_changeable: bool,
    /// `PortPinInitialMode`: its mode after `Port_Init`.
    pub initial_mode: PortPinMode,
    /// `PortPinMode`: the modes that it may have.
    pub modes: Modes,
    /// `PortPinModeChangeable`.
    pub mode_changeable: bool,
    /// `PortPinLevelValue`: whether its latch is high after `Port_Init`.
    pub level_high: bool,
}

/// What the driver keeps of a configuration.
#[derive(Clone, Copy)]
pub struct PortTable {
    /// `PortDevErrorDetect`.
    pub detect: bool,
    /// The pins by number, where they are configured.
    pub pins: [Option<Pin>; 64],
}

impl PortTable {
    /// The table of a configuration. It takes no memory.
    pub fn new(config: &Config) -> PortTable
        ensures { result ≡ spec.table_of config.now.port }
    {
        PortTable {
            detect: config.port.dev_error_detect,
            pins: by_number(config.port.pins.as_slice()),
        }
    }

    /// The pin of a number, where it is configured.
    pub fn pin(&self, number: u32) -> Option<Pin>
        ensures { result ≡ spec.pin_of self.now number }
    {
        if number < PINS {
            self.pins[number as usize]
        } else {
            None
        }
    }
}

/// The pins of all numbers.
fn by_number(pins: &[PortPin]) -> [Option<Pin>; 64]
    ensures { result ≡ spec.pins_by_number pins.now }
{
    let mut found = [None; 64];
    for number in 0..64usize {
        found[number] = find(pins, number as u32);
    }
    found
}

/// The first pin with this number.
fn find(pins: &[PortPin], number: u32) -> Option<Pin>
    ensures { result ≡ spec.pin_in pins.now number }
{
    for pin in pins {
        if pin.id == number {
            return Some(taken(pin));
        }
    }
    None
}

fn taken(pin: &PortPin) -> Pin
    ensures { result ≡ spec.taken pin.now }
{
    let modes = pin.modes.as_slice();
    Pin {
        direction: pin.direction,
        direction_changeable: pin.direction_changeable,
        initial_mode: pin.initial_mode,
        modes: Modes {
            adc: lists(modes, PortPinMode::Adc),
            dio: lists(modes, PortPinMode::Dio),
            icu: lists(modes, PortPinMode::Icu),
            pwm: lists(modes, PortPinMode::Pwm),
            spi: lists(modes, PortPinMode::Spi),
        },
        mode_changeable: pin.mode_changeable,
        level_high: pin.level_high,
    }
}

/// Whether a mode is listed.
fn lists(modes: &[PortPinMode], mode: PortPinMode) -> bool
    ensures { result ≡ spec.lists modes.now mode }
{
    for listed in modes {
        if is_same(*listed, mode) {
            return true;
        }
    }
    false
}

fn is_same(one: PortPinMode, other: PortPinMode) -> bool
    ensures { result ≡ spec.is_same one other }
{
    match one {
        PortPinMode::Adc => matches!(other, PortPinMode::Adc),
        PortPinMode::Dio => matches!(other, PortPinMode::Dio),
        PortPinMode::Icu => matches!(other, PortPinMode::Icu),
        PortPinMode::Pwm => matches!(other, PortPinMode::Pwm),
        PortPinMode::Spi => matches!(other, PortPinMode::Spi),
    }
}

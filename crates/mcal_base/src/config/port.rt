use crate::short::Short;

/// `PortPinDirection`.
#[derive(Clone, Copy, Debug, Default)]
pub enum PortPinDirection {
    /// `PORT_PIN_IN`
    #[default]
    In,
    /// `PORT_PIN_OUT`
    Out,
}

/// The modes of a pin. The order is that of the chip's numbers, from 0.
#[derive(Clone, Copy, Debug, Default)]
pub enum PortPinMode {
    /// `PORT_PIN_MODE_ADC`
    Adc,
    /// `PORT_PIN_MODE_DIO`
    #[default]
    Dio,
    /// `PORT_PIN_MODE_ICU`
    Icu,
    /// `PORT_PIN_MODE_PWM`
    Pwm,
    /// `PORT_PIN_MODE_SPI`
    Spi,
}

/// A pin.
#[derive(Debug, Default, Drop)]
pub struct PortPin {
    /// `PortPinId`, 0 to 63.
    pub id: u32,
    /// `PortPinDirection` after `Port_Init`.
    pub direction: PortPinDirection,
    /// `PortPinDirectionChangeable`.
    pub direction_changeable: bool,
    /// `PortPinInitialMode`.
    pub initial_mode: PortPinMode,
    /// `PortPinMode`: the modes that the pin may have.
    pub modes: Short<PortPinMode, 5>,
    /// `PortPinModeChangeable`.
    pub mode_changeable: bool,
    /// `PortPinLevelValue`: whether its latch is high after `Port_Init`.
    pub level_high: bool,
}

/// The table `Port`.
#[derive(Debug, Default, Drop)]
pub struct PortConfig {
    /// `PortDevErrorDetect`.
    pub dev_error_detect: bool,
    /// `PortPin`.
    pub pins: Short<PortPin, 64>,
}

ghost use Rattle.std.specs.Prelude.{◌≡◌};
ghost use Rattle.mcal_base.specs.Names as spec;

/// The named arguments of services. `Source`, `Destination`, `Null` and `Invalid` are words of the bench language; the others are names of the standard.
#[derive(Clone, Copy, Debug, Default)]
pub enum ArgumentName {
    /// `PORT_PIN_IN`
    PortPinIn,
    /// `PORT_PIN_OUT`
    PortPinOut,
    /// `PORT_PIN_MODE_ADC`
    PortPinModeAdc,
    /// `PORT_PIN_MODE_DIO`
    PortPinModeDio,
    /// `PORT_PIN_MODE_ICU`
    PortPinModeIcu,
    /// `PORT_PIN_MODE_PWM`
    PortPinModePwm,
    /// `PORT_PIN_MODE_SPI`
    PortPinModeSpi,
    /// `GPT_MODE_NORMAL`
    GptModeNormal,
    /// `GPT_MODE_SLEEP`
    GptModeSleep,
    /// `PWM_RISING_EDGE`
    PwmRisingEdge,
    /// `PWM_FALLING_EDGE`
    PwmFallingEdge,
    /// `PWM_BOTH_EDGES`
    PwmBothEdges,
    /// `ICU_RISING_EDGE`
    IcuRisingEdge,
    /// `ICU_FALLING_EDGE`
    IcuFallingEdge,
    /// `ICU_BOTH_EDGES`
    IcuBothEdges,
    /// `SPI_POLLING_MODE`
    SpiPollingMode,
    /// `SPI_INTERRUPT_MODE`
    SpiInterruptMode,
    /// `STD_HIGH`
    StdHigh,
    /// `STD_LOW`
    StdLow,
    /// `WDGIF_OFF_MODE`
    WdgifOffMode,
    /// `WDGIF_SLOW_MODE`
    WdgifSlowMode,
    /// `WDGIF_FAST_MODE`
    WdgifFastMode,
    /// `src`
    Source,
    /// `dst`
    Destination,
    /// `null`
    Null,
    /// `INVALID`
    #[default]
    Invalid,
}

impl ArgumentName {
    /// The argument as a script spells it.
    pub fn text(self) -> &'static str
        ensures { result.now ≡ spec.argument_text self }
    {
        match self {
            ArgumentName::PortPinIn => "PORT_PIN_IN",
            ArgumentName::PortPinOut => "PORT_PIN_OUT",
            ArgumentName::PortPinModeAdc => "PORT_PIN_MODE_ADC",
            ArgumentName::PortPinModeDio => "PORT_PIN_MODE_DIO",
            ArgumentName::PortPinModeIcu => "PORT_PIN_MODE_ICU",
            ArgumentName::PortPinModePwm => "PORT_PIN_MODE_PWM",
            ArgumentName::PortPinModeSpi => "PORT_PIN_MODE_SPI",
            ArgumentName::GptModeNormal => "GPT_MODE_NORMAL",
            ArgumentName::GptModeSleep => "GPT_MODE_SLEEP",
            ArgumentName::PwmRisingEdge => "PWM_RISING_EDGE",
            ArgumentName::PwmFallingEdge => "PWM_FALLING_EDGE",
            ArgumentName::PwmBothEdges => "PWM_BOTH_EDGES",
            ArgumentName::IcuRisingEdge => "ICU_RISING_EDGE",
            ArgumentName::IcuFallingEdge => "ICU_FALLING_EDGE",
            ArgumentName::IcuBothEdges => "ICU_BOTH_EDGES",
            ArgumentName::SpiPollingMode => "SPI_POLLING_MODE",
            ArgumentName::SpiInterruptMode => "SPI_INTERRUPT_MODE",
            ArgumentName::StdHigh => "STD_HIGH",
            ArgumentName::StdLow => "STD_LOW",
            ArgumentName::WdgifOffMode => "WDGIF_OFF_MODE",
            ArgumentName::WdgifSlowMode => "WDGIF_SLOW_MODE",
            ArgumentName::WdgifFastMode => "WDGIF_FAST_MODE",
            ArgumentName::Source => "src",
            ArgumentName::Destination => "dst",
            ArgumentName::Null => "null",
            ArgumentName::Invalid => "INVALID",
        }
    }
}

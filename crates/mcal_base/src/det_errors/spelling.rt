ghost use Rattle.std.specs.Prelude.{◌≡◌};
ghost use Rattle.mcal_base.specs.det_errors.Spelling as spec;

use crate::ErrorName;

/// The error as the standard spells it.
pub fn text(error: ErrorName) -> &'static str
    ensures { result.now ≡ spec.error_text error }
{
    match error {
        ErrorName::McuUninit => "MCU_E_UNINIT",
        ErrorName::McuParamRamsection => "MCU_E_PARAM_RAMSECTION",
        ErrorName::McuParamClock => "MCU_E_PARAM_CLOCK",
        ErrorName::McuPllNotLocked => "MCU_E_PLL_NOT_LOCKED",
        ErrorName::McuParamMode => "MCU_E_PARAM_MODE",
        ErrorName::PortUninit => "PORT_E_UNINIT",
        ErrorName::PortParamPin => "PORT_E_PARAM_PIN",
        ErrorName::PortDirectionUnchangeable => "PORT_E_DIRECTION_UNCHANGEABLE",
        ErrorName::PortParamInvalidMode => "PORT_E_PARAM_INVALID_MODE",
        ErrorName::PortModeUnchangeable => "PORT_E_MODE_UNCHANGEABLE",
        ErrorName::GptAlreadyInitialized => "GPT_E_ALREADY_INITIALIZED",
        ErrorName::GptUninit => "GPT_E_UNINIT",
        ErrorName::GptBusy => "GPT_E_BUSY",
        ErrorName::GptParamChannel => "GPT_E_PARAM_CHANNEL",
        ErrorName::GptParamValue => "GPT_E_PARAM_VALUE",
        ErrorName::GptMode => "GPT_E_MODE",
        ErrorName::GptParamMode => "GPT_E_PARAM_MODE",
        ErrorName::PwmAlreadyInitialized => "PWM_E_ALREADY_INITIALIZED",
        ErrorName::PwmUninit => "PWM_E_UNINIT",
        ErrorName::PwmParamChannel => "PWM_E_PARAM_CHANNEL",
        ErrorName::PwmPeriodUnchangeable => "PWM_E_PERIOD_UNCHANGEABLE",
        ErrorName::IcuAlreadyInitialized => "ICU_E_ALREADY_INITIALIZED",
        ErrorName::IcuUninit => "ICU_E_UNINIT",
        ErrorName::IcuParamChannel => "ICU_E_PARAM_CHANNEL",
        ErrorName::IcuParamActivation => "ICU_E_PARAM_ACTIVATION",
        ErrorName::IcuParamBufferSize => "ICU_E_PARAM_BUFFER_SIZE",
        ErrorName::IcuParamNotifyInterval => "ICU_E_PARAM_NOTIFY_INTERVAL",
        ErrorName::IcuNotStarted => "ICU_E_NOT_STARTED",
        ErrorName::AdcAlreadyInitialized => "ADC_E_ALREADY_INITIALIZED",
        ErrorName::AdcUninit => "ADC_E_UNINIT",
        ErrorName::AdcBusy => "ADC_E_BUSY",
        ErrorName::AdcParamGroup => "ADC_E_PARAM_GROUP",
        ErrorName::AdcParamPointer => "ADC_E_PARAM_POINTER",
        ErrorName::AdcWrongTriggSrc => "ADC_E_WRONG_TRIGG_SRC",
        ErrorName::AdcBufferUninit => "ADC_E_BUFFER_UNINIT",
        ErrorName::AdcIdle => "ADC_E_IDLE",
        ErrorName::AdcNotifCapability => "ADC_E_NOTIF_CAPABILITY",
        ErrorName::SpiAlreadyInitialized => "SPI_E_ALREADY_INITIALIZED",
        ErrorName::SpiUninit => "SPI_E_UNINIT",
        ErrorName::SpiParamChannel => "SPI_E_PARAM_CHANNEL",
        ErrorName::SpiParamLength => "SPI_E_PARAM_LENGTH",
        ErrorName::SpiParamSeq => "SPI_E_PARAM_SEQ",
        ErrorName::SpiSeqPending => "SPI_E_SEQ_PENDING",
        ErrorName::SpiParamJob => "SPI_E_PARAM_JOB",
        ErrorName::SpiParamUnit => "SPI_E_PARAM_UNIT",
        ErrorName::SpiSeqInProcess => "SPI_E_SEQ_IN_PROCESS",
        ErrorName::DioParamInvalidChannelId => "DIO_E_PARAM_INVALID_CHANNEL_ID",
        ErrorName::DioParamInvalidPortId => "DIO_E_PARAM_INVALID_PORT_ID",
        ErrorName::DioParamInvalidGroup => "DIO_E_PARAM_INVALID_GROUP",
        ErrorName::WdgDriverState => "WDG_E_DRIVER_STATE",
        ErrorName::WdgParamMode => "WDG_E_PARAM_MODE",
        ErrorName::WdgParamTimeout => "WDG_E_PARAM_TIMEOUT",
    }
}

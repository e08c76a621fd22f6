/// The development errors of the nine modules. `det_errors` says when each comes, and spells it.
#[derive(Clone, Copy)]
pub enum ErrorName {
    /// `MCU_E_UNINIT`
    McuUninit,
    /// `MCU_E_PARAM_RAMSECTION`
    McuParamRamsection,
    /// `MCU_E_PARAM_CLOCK`
    McuParamClock,
    /// `MCU_E_PLL_NOT_LOCKED`
    McuPllNotLocked,
    /// `MCU_E_PARAM_MODE`
    McuParamMode,
    /// `PORT_E_UNINIT`
    PortUninit,
    /// `PORT_E_PARAM_PIN`
    PortParamPin,
    /// `PORT_E_DIRECTION_UNCHANGEABLE`
    PortDirectionUnchangeable,
    /// `PORT_E_PARAM_INVALID_MODE`
    PortParamInvalidMode,
    /// `PORT_E_MODE_UNCHANGEABLE`
    PortModeUnchangeable,
    /// `GPT_E_ALREADY_INITIALIZED`
    GptAlreadyInitialized,
    /// `GPT_E_UNINIT`
    GptUninit,
    /// `GPT_E_BUSY`
    GptBusy,
    /// `GPT_E_PARAM_CHANNEL`
    GptParamChannel,
    /// `GPT_E_PARAM_VALUE`
    GptParamValue,
    /// `GPT_E_MODE`
    GptMode,
    /// `GPT_E_PARAM_MODE`
    GptParamMode,
    /// `PWM_E_ALREADY_INITIALIZED`
    PwmAlreadyInitialized,
    /// `PWM_E_UNINIT`
    PwmUninit,
    /// `PWM_E_PARAM_CHANNEL`
    PwmParamChannel,
    /// `PWM_E_PERIOD_UNCHANGEABLE`
    PwmPeriodUnchangeable,
    /// `ICU_E_ALREADY_INITIALIZED`
    IcuAlreadyInitialized,
    /// `ICU_E_UNINIT`
    IcuUninit,
    /// `ICU_E_PARAM_CHANNEL`
    IcuParamChannel,
    /// `ICU_E_PARAM_ACTIVATION`
    IcuParamActivation,
    /// `ICU_E_PARAM_BUFFER_SIZE`
    IcuParamBufferSize,
    /// `ICU_E_PARAM_NOTIFY_INTERVAL`
    IcuParamNotifyInterval,
    /// `ICU_E_NOT_STARTED`
    IcuNotStarted,
    /// `ADC_E_ALREADY_INITIALIZED`
    AdcAlreadyInitialized,
    /// `ADC_E_UNINIT`
    AdcUninit,
    /// `ADC_E_BUSY`
    AdcBusy,
    /// `ADC_E_PARAM_GROUP`
    AdcParamGroup,
    /// `ADC_E_PARAM_POINTER`
    AdcParamPointer,
    /// `ADC_E_WRONG_TRIGG_SRC`
    AdcWrongTriggSrc,
    /// `ADC_E_BUFFER_UNINIT`
    AdcBufferUninit,
    /// `ADC_E_IDLE`
    AdcIdle,
    /// `ADC_E_NOTIF_CAPABILITY`
    AdcNotifCapability,
    /// `SPI_E_ALREADY_INITIALIZED`
    SpiAlreadyInitialized,
    /// `SPI_E_UNINIT`
    SpiUninit,
    /// `SPI_E_PARAM_CHANNEL`
    SpiParamChannel,
    /// `SPI_E_PARAM_LENGTH`
    SpiParamLength,
    /// `SPI_E_PARAM_SEQ`
    SpiParamSeq,
    /// `SPI_E_SEQ_PENDING`
    SpiSeqPending,
    /// `SPI_E_PARAM_JOB`
    SpiParamJob,
    /// `SPI_E_PARAM_UNIT`
    SpiParamUnit,
    /// `SPI_E_SEQ_IN_PROCESS`
    SpiSeqInProcess,
    /// `DIO_E_PARAM_INVALID_CHANNEL_ID`
    DioParamInvalidChannelId,
    /// `DIO_E_PARAM_INVALID_PORT_ID`
    DioParamInvalidPortId,
    /// `DIO_E_PARAM_INVALID_GROUP`
    DioParamInvalidGroup,
    /// `WDG_E_DRIVER_STATE`
    WdgDriverState,
    /// `WDG_E_PARAM_MODE`
    WdgParamMode,
    /// `WDG_E_PARAM_TIMEOUT`
    WdgParamTimeout,
}

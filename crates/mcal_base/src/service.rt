ghost use Rattle.std.specs.Prelude.{◌≡◌};
ghost use Rattle.mcal_base.specs.Names as spec;

use crate::module_name::ModuleName;

/// The services of the nine modules, in the order of the modules and of their tables.
#[derive(Clone, Copy, Debug)]
pub enum Service {
    /// `Mcu_Init`
    McuInit,
    /// `Mcu_InitRamSection`
    McuInitRamSection,
    /// `Mcu_InitClock`
    McuInitClock,
    /// `Mcu_DistributePllClock`
    McuDistributePllClock,
    /// `Mcu_GetPllStatus`
    McuGetPllStatus,
    /// `Mcu_GetResetReason`
    McuGetResetReason,
    /// `Mcu_PerformReset`
    McuPerformReset,
    /// `Mcu_SetMode`
    McuSetMode,
    /// `Port_Init`
    PortInit,
    /// `Port_SetPinDirection`
    PortSetPinDirection,
    /// `Port_RefreshPortDirection`
    PortRefreshPortDirection,
    /// `Port_SetPinMode`
    PortSetPinMode,
    /// `Gpt_Init`
    GptInit,
    /// `Gpt_DeInit`
    GptDeInit,
    /// `Gpt_GetTimeElapsed`
    GptGetTimeElapsed,
    /// `Gpt_GetTimeRemaining`
    GptGetTimeRemaining,
    /// `Gpt_StartTimer`
    GptStartTimer,
    /// `Gpt_StopTimer`
    GptStopTimer,
    /// `Gpt_EnableNotification`
    GptEnableNotification,
    /// `Gpt_DisableNotification`
    GptDisableNotification,
    /// `Gpt_SetMode`
    GptSetMode,
    /// `Gpt_EnableWakeup`
    GptEnableWakeup,
    /// `Gpt_DisableWakeup`
    GptDisableWakeup,
    /// `Gpt_CheckWakeup`
    GptCheckWakeup,
    /// `Pwm_Init`
    PwmInit,
    /// `Pwm_DeInit`
    PwmDeInit,
    /// `Pwm_SetDutyCycle`
    PwmSetDutyCycle,
    /// `Pwm_SetPeriodAndDuty`
    PwmSetPeriodAndDuty,
    /// `Pwm_SetOutputToIdle`
    PwmSetOutputToIdle,
    /// `Pwm_GetOutputState`
    PwmGetOutputState,
    /// `Pwm_EnableNotification`
    PwmEnableNotification,
    /// `Pwm_DisableNotification`
    PwmDisableNotification,
    /// `Icu_Init`
    IcuInit,
    /// `Icu_DeInit`
    IcuDeInit,
    /// `Icu_SetActivationCondition`
    IcuSetActivationCondition,
    /// `Icu_EnableNotification`
    IcuEnableNotification,
    /// `Icu_DisableNotification`
    IcuDisableNotification,
    /// `Icu_GetInputState`
    IcuGetInputState,
    /// `Icu_EnableEdgeDetection`
    IcuEnableEdgeDetection,
    /// `Icu_DisableEdgeDetection`
    IcuDisableEdgeDetection,
    /// `Icu_ResetEdgeCount`
    IcuResetEdgeCount,
    /// `Icu_EnableEdgeCount`
    IcuEnableEdgeCount,
    /// `Icu_DisableEdgeCount`
    IcuDisableEdgeCount,
    /// `Icu_GetEdgeNumbers`
    IcuGetEdgeNumbers,
    /// `Icu_StartTimestamp`
    IcuStartTimestamp,
    /// `Icu_StopTimestamp`
    IcuStopTimestamp,
    /// `Icu_GetTimestampIndex`
    IcuGetTimestampIndex,
    /// `Icu_StartSignalMeasurement`
    IcuStartSignalMeasurement,
    /// `Icu_StopSignalMeasurement`
    IcuStopSignalMeasurement,
    /// `Icu_GetTimeElapsed`
    IcuGetTimeElapsed,
    /// `Icu_GetDutyCycleValues`
    IcuGetDutyCycleValues,
    /// `Adc_Init`
    AdcInit,
    /// `Adc_DeInit`
    AdcDeInit,
    /// `Adc_SetupResultBuffer`
    AdcSetupResultBuffer,
    /// `Adc_StartGroupConversion`
    AdcStartGroupConversion,
    /// `Adc_StopGroupConversion`
    AdcStopGroupConversion,
    /// `Adc_ReadGroup`
    AdcReadGroup,
    /// `Adc_EnableHardwareTrigger`
    AdcEnableHardwareTrigger,
    /// `Adc_DisableHardwareTrigger`
    AdcDisableHardwareTrigger,
    /// `Adc_EnableGroupNotification`
    AdcEnableGroupNotification,
    /// `Adc_DisableGroupNotification`
    AdcDisableGroupNotification,
    /// `Adc_GetGroupStatus`
    AdcGetGroupStatus,
    /// `Adc_GetStreamLastPointer`
    AdcGetStreamLastPointer,
    /// `Spi_Init`
    SpiInit,
    /// `Spi_DeInit`
    SpiDeInit,
    /// `Spi_WriteIB`
    SpiWriteIb,
    /// `Spi_ReadIB`
    SpiReadIb,
    /// `Spi_SetupEB`
    SpiSetupEb,
    /// `Spi_AsyncTransmit`
    SpiAsyncTransmit,
    /// `Spi_Cancel`
    SpiCancel,
    /// `Spi_GetStatus`
    SpiGetStatus,
    /// `Spi_GetJobResult`
    SpiGetJobResult,
    /// `Spi_GetSequenceResult`
    SpiGetSequenceResult,
    /// `Spi_GetHWUnitStatus`
    SpiGetHwUnitStatus,
    /// `Spi_SetAsyncMode`
    SpiSetAsyncMode,
    /// `Spi_MainFunction_Handling`
    SpiMainFunctionHandling,
    /// `Spi_SyncTransmit`
    SpiSyncTransmit,
    /// `Dio_ReadChannel`
    DioReadChannel,
    /// `Dio_FlipChannel`
    DioFlipChannel,
    /// `Dio_WriteChannel`
    DioWriteChannel,
    /// `Dio_ReadPort`
    DioReadPort,
    /// `Dio_WritePort`
    DioWritePort,
    /// `Dio_ReadChannelGroup`
    DioReadChannelGroup,
    /// `Dio_WriteChannelGroup`
    DioWriteChannelGroup,
    /// `Wdg_Init`
    WdgInit,
    /// `Wdg_SetMode`
    WdgSetMode,
    /// `Wdg_SetTriggerCondition`
    WdgSetTriggerCondition,
}

impl Service {
    /// The service's name as the standard spells it.
    pub fn text(self) -> &'static str
        ensures { result.now ≡ spec.service_text self }
    {
        match self {
            Service::McuInit => "Mcu_Init",
            Service::McuInitRamSection => "Mcu_InitRamSection",
            Service::McuInitClock => "Mcu_InitClock",
            Service::McuDistributePllClock => "Mcu_DistributePllClock",
            Service::McuGetPllStatus => "Mcu_GetPllStatus",
            Service::McuGetResetReason => "Mcu_GetResetReason",
            Service::McuPerformReset => "Mcu_PerformReset",
            Service::McuSetMode => "Mcu_SetMode",
            Service::PortInit => "Port_Init",
            Service::PortSetPinDirection => "Port_SetPinDirection",
            Service::PortRefreshPortDirection => "Port_RefreshPortDirection",
            Service::PortSetPinMode => "Port_SetPinMode",
            Service::GptInit => "Gpt_Init",
            Service::GptDeInit => "Gpt_DeInit",
            Service::GptGetTimeElapsed => "Gpt_GetTimeElapsed",
            Service::GptGetTimeRemaining => "Gpt_GetTimeRemaining",
            Service::GptStartTimer => "Gpt_StartTimer",
            Service::GptStopTimer => "Gpt_StopTimer",
            Service::GptEnableNotification => "Gpt_EnableNotification",
            Service::GptDisableNotification => "Gpt_DisableNotification",
            Service::GptSetMode => "Gpt_SetMode",
            Service::GptEnableWakeup => "Gpt_EnableWakeup",
            Service::GptDisableWakeup => "Gpt_DisableWakeup",
            Service::GptCheckWakeup => "Gpt_CheckWakeup",
            Service::PwmInit => "Pwm_Init",
            Service::PwmDeInit => "Pwm_DeInit",
            Service::PwmSetDutyCycle => "Pwm_SetDutyCycle",
            Service::PwmSetPeriodAndDuty => "Pwm_SetPeriodAndDuty",
            Service::PwmSetOutputToIdle => "Pwm_SetOutputToIdle",
            Service::PwmGetOutputState => "Pwm_GetOutputState",
            Service::PwmEnableNotification => "Pwm_EnableNotification",
            Service::PwmDisableNotification => "Pwm_DisableNotification",
            Service::IcuInit => "Icu_Init",
            Service::IcuDeInit => "Icu_DeInit",
            Service::IcuSetActivationCondition => "Icu_SetActivationCondition",
            Service::IcuEnableNotification => "Icu_EnableNotification",
            Service::IcuDisableNotification => "Icu_DisableNotification",
            Service::IcuGetInputState => "Icu_GetInputState",
            Service::IcuEnableEdgeDetection => "Icu_EnableEdgeDetection",
            Service::IcuDisableEdgeDetection => "Icu_DisableEdgeDetection",
            Service::IcuResetEdgeCount => "Icu_ResetEdgeCount",
            Service::IcuEnableEdgeCount => "Icu_EnableEdgeCount",
            Service::IcuDisableEdgeCount => "Icu_DisableEdgeCount",
            Service::IcuGetEdgeNumbers => "Icu_GetEdgeNumbers",
            Service::IcuStartTimestamp => "Icu_StartTimestamp",
            Service::IcuStopTimestamp => "Icu_StopTimestamp",
            Service::IcuGetTimestampIndex => "Icu_GetTimestampIndex",
            Service::IcuStartSignalMeasurement => "Icu_StartSignalMeasurement",
            Service::IcuStopSignalMeasurement => "Icu_StopSignalMeasurement",
            Service::IcuGetTimeElapsed => "Icu_GetTimeElapsed",
            Service::IcuGetDutyCycleValues => "Icu_GetDutyCycleValues",
            Service::AdcInit => "Adc_Init",
            Service::AdcDeInit => "Adc_DeInit",
            Service::AdcSetupResultBuffer => "Adc_SetupResultBuffer",
            Service::AdcStartGroupConversion => "Adc_StartGroupConversion",
            Service::AdcStopGroupConversion => "Adc_StopGroupConversion",
            Service::AdcReadGroup => "Adc_ReadGroup",
            Service::AdcEnableHardwareTrigger => "Adc_EnableHardwareTrigger",
            Service::AdcDisableHardwareTrigger => "Adc_DisableHardwareTrigger",
            Service::AdcEnableGroupNotification => "Adc_EnableGroupNotification",
            Service::AdcDisableGroupNotification => "Adc_DisableGroupNotification",
            Service::AdcGetGroupStatus => "Adc_GetGroupStatus",
            Service::AdcGetStreamLastPointer => "Adc_GetStreamLastPointer",
            Service::SpiInit => "Spi_Init",
            Service::SpiDeInit => "Spi_DeInit",
            Service::SpiWriteIb => "Spi_WriteIB",
            Service::SpiReadIb => "Spi_ReadIB",
            Service::SpiSetupEb => "Spi_SetupEB",
            Service::SpiAsyncTransmit => "Spi_AsyncTransmit",
            Service::SpiCancel => "Spi_Cancel",
            Service::SpiGetStatus => "Spi_GetStatus",
            Service::SpiGetJobResult => "Spi_GetJobResult",
            Service::SpiGetSequenceResult => "Spi_GetSequenceResult",
            Service::SpiGetHwUnitStatus => "Spi_GetHWUnitStatus",
            Service::SpiSetAsyncMode => "Spi_SetAsyncMode",
            Service::SpiMainFunctionHandling => "Spi_MainFunction_Handling",
            Service::SpiSyncTransmit => "Spi_SyncTransmit",
            Service::DioReadChannel => "Dio_ReadChannel",
            Service::DioFlipChannel => "Dio_FlipChannel",
            Service::DioWriteChannel => "Dio_WriteChannel",
            Service::DioReadPort => "Dio_ReadPort",
            Service::DioWritePort => "Dio_WritePort",
            Service::DioReadChannelGroup => "Dio_ReadChannelGroup",
            Service::DioWriteChannelGroup => "Dio_WriteChannelGroup",
            Service::WdgInit => "Wdg_Init",
            Service::WdgSetMode => "Wdg_SetMode",
            Service::WdgSetTriggerCondition => "Wdg_SetTriggerCondition",
        }
    }
}

impl Service {
    /// The module that offers the service.
    pub fn module(self) -> ModuleName
        ensures { result ≡ spec.module_of self }
    {
        match self {
            Service::McuInit
            | Service::McuInitRamSection
            | Service::McuInitClock
            | Service::McuDistributePllClock
            | Service::McuGetPllStatus
            | Service::McuGetResetReason
            | Service::McuPerformReset
            | Service::McuSetMode => ModuleName::Mcu,
            Service::PortInit
            | Service::PortSetPinDirection
            | Service::PortRefreshPortDirection
            | Service::PortSetPinMode => ModuleName::Port,
            Service::GptInit
            | Service::GptDeInit
            | Service::GptGetTimeElapsed
            | Service::GptGetTimeRemaining
            | Service::GptStartTimer
            | Service::GptStopTimer
            | Service::GptEnableNotification
            | Service::GptDisableNotification
            | Service::GptSetMode
            | Service::GptEnableWakeup
            | Service::GptDisableWakeup
            | Service::GptCheckWakeup => ModuleName::Gpt,
            Service::PwmInit
            | Service::PwmDeInit
            | Service::PwmSetDutyCycle
            | Service::PwmSetPeriodAndDuty
            | Service::PwmSetOutputToIdle
            | Service::PwmGetOutputState
            | Service::PwmEnableNotification
            | Service::PwmDisableNotification => ModuleName::Pwm,
            Service::IcuInit
            | Service::IcuDeInit
            | Service::IcuSetActivationCondition
            | Service::IcuEnableNotification
            | Service::IcuDisableNotification
            | Service::IcuGetInputState
            | Service::IcuEnableEdgeDetection
            | Service::IcuDisableEdgeDetection
            | Service::IcuResetEdgeCount
            | Service::IcuEnableEdgeCount
            | Service::IcuDisableEdgeCount
            | Service::IcuGetEdgeNumbers
            | Service::IcuStartTimestamp
            | Service::IcuStopTimestamp
            | Service::IcuGetTimestampIndex
            | Service::IcuStartSignalMeasurement
            | Service::IcuStopSignalMeasurement
            | Service::IcuGetTimeElapsed
            | Service::IcuGetDutyCycleValues => ModuleName::Icu,
            Service::AdcInit
            | Service::AdcDeInit
            | Service::AdcSetupResultBuffer
            | Service::AdcStartGroupConversion
            | Service::AdcStopGroupConversion
            | Service::AdcReadGroup
            | Service::AdcEnableHardwareTrigger
            | Service::AdcDisableHardwareTrigger
            | Service::AdcEnableGroupNotification
            | Service::AdcDisableGroupNotification
            | Service::AdcGetGroupStatus
            | Service::AdcGetStreamLastPointer => ModuleName::Adc,
            Service::SpiInit
            | Service::SpiDeInit
            | Service::SpiWriteIb
            | Service::SpiReadIb
            | Service::SpiSetupEb
            | Service::SpiAsyncTransmit
            | Service::SpiCancel
            | Service::SpiGetStatus
            | Service::SpiGetJobResult
            | Service::SpiGetSequenceResult
            | Service::SpiGetHwUnitStatus
            | Service::SpiSetAsyncMode
            | Service::SpiMainFunctionHandling
            | Service::SpiSyncTransmit => ModuleName::Spi,
            Service::DioReadChannel
            | Service::DioFlipChannel
            | Service::DioWriteChannel
            | Service::DioReadPort
            | Service::DioWritePort
            | Service::DioReadChannelGroup
            | Service::DioWriteChannelGroup => ModuleName::Dio,
            Service::WdgInit | Service::WdgSetMode | Service::WdgSetTriggerCondition =>
                ModuleName::Wdg,
        }
    }
}

ghost use Rattle.std.specs.Prelude.{◌≡◌};
ghost use Rattle.config_keys.specs.Names as spec;

use std::fmt;

/// The keys of the modules' tables, in the order in which a configuration is walked. A key that stands in more than
/// one table is named once.
#[derive(Clone, Copy)]
pub enum KeyName {
    /// `McuDevErrorDetect`
    McuDevErrorDetect,
    /// `McuClockSettingConfig`
    McuClockSettingConfig,
    /// `McuClockSettingId`
    McuClockSettingId,
    /// `Multiplier`
    Multiplier,
    /// `McuModeSettingConf`
    McuModeSettingConf,
    /// `McuMode`
    McuMode,
    /// `McuRamSectorSettingConf`
    McuRamSectorSettingConf,
    /// `McuRamSectionBaseAddress`
    McuRamSectionBaseAddress,
    /// `McuRamSectionSize`
    McuRamSectionSize,
    /// `McuRamDefaultValue`
    McuRamDefaultValue,
    /// `PortDevErrorDetect`
    PortDevErrorDetect,
    /// `PortPin`
    PortPin,
    /// `PortPinId`
    PortPinId,
    /// `PortPinDirection`
    PortPinDirection,
    /// `PortPinDirectionChangeable`
    PortPinDirectionChangeable,
    /// `PortPinInitialMode`
    PortPinInitialMode,
    /// `PortPinMode`
    PortPinMode,
    /// `PortPinModeChangeable`
    PortPinModeChangeable,
    /// `PortPinLevelValue`
    PortPinLevelValue,
    /// `GptDevErrorDetect`
    GptDevErrorDetect,
    /// `Classification`
    Classification,
    /// `GptChannelConfiguration`
    GptChannelConfiguration,
    /// `GptChannelId`
    GptChannelId,
    /// `GptChannelMode`
    GptChannelMode,
    /// `GptChannelTickValueMax`
    GptChannelTickValueMax,
    /// `GptEnableWakeup`
    GptEnableWakeup,
    /// `GptNotification`
    GptNotification,
    /// `Prescaler`
    Prescaler,
    /// `Level`
    Level,
    /// `PwmDevErrorDetect`
    PwmDevErrorDetect,
    /// `PwmChannel`
    PwmChannel,
    /// `PwmChannelId`
    PwmChannelId,
    /// `PwmChannelClass`
    PwmChannelClass,
    /// `PwmDutycycleDefault`
    PwmDutycycleDefault,
    /// `PwmIdleState`
    PwmIdleState,
    /// `PwmPolarity`
    PwmPolarity,
    /// `PwmNotification`
    PwmNotification,
    /// `PeriodTicks`
    PeriodTicks,
    /// `Pin`
    Pin,
    /// `IcuDevErrorDetect`
    IcuDevErrorDetect,
    /// `IcuChannel`
    IcuChannel,
    /// `IcuChannelId`
    IcuChannelId,
    /// `IcuDefaultStartEdge`
    IcuDefaultStartEdge,
    /// `IcuMeasurementMode`
    IcuMeasurementMode,
    /// `IcuSignalMeasurementProperty`
    IcuSignalMeasurementProperty,
    /// `IcuTimestampMeasurementProperty`
    IcuTimestampMeasurementProperty,
    /// `IcuSignalNotification`
    IcuSignalNotification,
    /// `IcuTimestampNotification`
    IcuTimestampNotification,
    /// `AdcDevErrorDetect`
    AdcDevErrorDetect,
    /// `AdcPriorityImplementation`
    AdcPriorityImplementation,
    /// `AdcEnableQueuing`
    AdcEnableQueuing,
    /// `AdcHwUnit`
    AdcHwUnit,
    /// `AdcHwUnitId`
    AdcHwUnitId,
    /// `AdcGroup`
    AdcGroup,
    /// `AdcGroupId`
    AdcGroupId,
    /// `Unit`
    Unit,
    /// `AdcGroupDefinition`
    AdcGroupDefinition,
    /// `AdcGroupAccessMode`
    AdcGroupAccessMode,
    /// `AdcGroupConversionMode`
    AdcGroupConversionMode,
    /// `AdcGroupPriority`
    AdcGroupPriority,
    /// `AdcGroupReplacement`
    AdcGroupReplacement,
    /// `AdcGroupTriggSrc`
    AdcGroupTriggSrc,
    /// `AdcStreamingBufferMode`
    AdcStreamingBufferMode,
    /// `AdcStreamingNumSamples`
    AdcStreamingNumSamples,
    /// `AdcNotification`
    AdcNotification,
    /// `TriggerInput`
    TriggerInput,
    /// `SpiDevErrorDetect`
    SpiDevErrorDetect,
    /// `Levels`
    Levels,
    /// `SyncUnits`
    SyncUnits,
    /// `SpiChannel`
    SpiChannel,
    /// `SpiChannelId`
    SpiChannelId,
    /// `SpiChannelType`
    SpiChannelType,
    /// `SpiDataWidth`
    SpiDataWidth,
    /// `SpiDefaultData`
    SpiDefaultData,
    /// `SpiIbNBuffers`
    SpiIbNBuffers,
    /// `SpiEbMaxLength`
    SpiEbMaxLength,
    /// `SpiJob`
    SpiJob,
    /// `SpiJobId`
    SpiJobId,
    /// `SpiJobPriority`
    SpiJobPriority,
    /// `SpiJobEndNotification`
    SpiJobEndNotification,
    /// `SpiChannelList`
    SpiChannelList,
    /// `Select`
    Select,
    /// `SpiSequence`
    SpiSequence,
    /// `SpiSequenceId`
    SpiSequenceId,
    /// `SpiInterruptibleSequence`
    SpiInterruptibleSequence,
    /// `SpiJobAssignment`
    SpiJobAssignment,
    /// `SpiSeqEndNotification`
    SpiSeqEndNotification,
    /// `DioDevErrorDetect`
    DioDevErrorDetect,
    /// `DioChannelGroup`
    DioChannelGroup,
    /// `DioChannelGroupId`
    DioChannelGroupId,
    /// `Port`
    Port,
    /// `DioPortOffset`
    DioPortOffset,
    /// `DioPortMask`
    DioPortMask,
    /// `WdgDevErrorDetect`
    WdgDevErrorDetect,
    /// `WdgDefaultMode`
    WdgDefaultMode,
    /// `WdgDisableAllowed`
    WdgDisableAllowed,
    /// `InitialTicks`
    InitialTicks,
    /// `MaxTicks`
    MaxTicks,
}

impl KeyName {
    /// How the key is spelled.
    pub fn text(self) -> &'static str
        ensures { result.now ≡ spec.key_text self }
    {
        match self {
            KeyName::McuDevErrorDetect => "McuDevErrorDetect",
            KeyName::McuClockSettingConfig => "McuClockSettingConfig",
            KeyName::McuClockSettingId => "McuClockSettingId",
            KeyName::Multiplier => "Multiplier",
            KeyName::McuModeSettingConf => "McuModeSettingConf",
            KeyName::McuMode => "McuMode",
            KeyName::McuRamSectorSettingConf => "McuRamSectorSettingConf",
            KeyName::McuRamSectionBaseAddress => "McuRamSectionBaseAddress",
            KeyName::McuRamSectionSize => "McuRamSectionSize",
            KeyName::McuRamDefaultValue => "McuRamDefaultValue",
            KeyName::PortDevErrorDetect => "PortDevErrorDetect",
            KeyName::PortPin => "PortPin",
            KeyName::PortPinId => "PortPinId",
            KeyName::PortPinDirection => "PortPinDirection",
            KeyName::PortPinDirectionChangeable => "PortPinDirectionChangeable",
            KeyName::PortPinInitialMode => "PortPinInitialMode",
            KeyName::PortPinMode => "PortPinMode",
            KeyName::PortPinModeChangeable => "PortPinModeChangeable",
            KeyName::PortPinLevelValue => "PortPinLevelValue",
            KeyName::GptDevErrorDetect => "GptDevErrorDetect",
            KeyName::Classification => "Classification",
            KeyName::GptChannelConfiguration => "GptChannelConfiguration",
            KeyName::GptChannelId => "GptChannelId",
            KeyName::GptChannelMode => "GptChannelMode",
            KeyName::GptChannelTickValueMax => "GptChannelTickValueMax",
            KeyName::GptEnableWakeup => "GptEnableWakeup",
            KeyName::GptNotification => "GptNotification",
            KeyName::Prescaler => "Prescaler",
            KeyName::Level => "Level",
            KeyName::PwmDevErrorDetect => "PwmDevErrorDetect",
            KeyName::PwmChannel => "PwmChannel",
            KeyName::PwmChannelId => "PwmChannelId",
            KeyName::PwmChannelClass => "PwmChannelClass",
            KeyName::PwmDutycycleDefault => "PwmDutycycleDefault",
            KeyName::PwmIdleState => "PwmIdleState",
            KeyName::PwmPolarity => "PwmPolarity",
            KeyName::PwmNotification => "PwmNotification",
            KeyName::PeriodTicks => "PeriodTicks",
            KeyName::Pin => "Pin",
            KeyName::IcuDevErrorDetect => "IcuDevErrorDetect",
            KeyName::IcuChannel => "IcuChannel",
            KeyName::IcuChannelId => "IcuChannelId",
            KeyName::IcuDefaultStartEdge => "IcuDefaultStartEdge",
            KeyName::IcuMeasurementMode => "IcuMeasurementMode",
            KeyName::IcuSignalMeasurementProperty => "IcuSignalMeasurementProperty",
            KeyName::IcuTimestampMeasurementProperty => "IcuTimestampMeasurementProperty",
            KeyName::IcuSignalNotification => "IcuSignalNotification",
            KeyName::IcuTimestampNotification => "IcuTimestampNotification",
            KeyName::AdcDevErrorDetect => "AdcDevErrorDetect",
            KeyName::AdcPriorityImplementation => "AdcPriorityImplementation",
            KeyName::AdcEnableQueuing => "AdcEnableQueuing",
            KeyName::AdcHwUnit => "AdcHwUnit",
            KeyName::AdcHwUnitId => "AdcHwUnitId",
            KeyName::AdcGroup => "AdcGroup",
            KeyName::AdcGroupId => "AdcGroupId",
            KeyName::Unit => "Unit",
            KeyName::AdcGroupDefinition => "AdcGroupDefinition",
            KeyName::AdcGroupAccessMode => "AdcGroupAccessMode",
            KeyName::AdcGroupConversionMode => "AdcGroupConversionMode",
            KeyName::AdcGroupPriority => "AdcGroupPriority",
            KeyName::AdcGroupReplacement => "AdcGroupReplacement",
            KeyName::AdcGroupTriggSrc => "AdcGroupTriggSrc",
            KeyName::AdcStreamingBufferMode => "AdcStreamingBufferMode",
            KeyName::AdcStreamingNumSamples => "AdcStreamingNumSamples",
            KeyName::AdcNotification => "AdcNotification",
            KeyName::TriggerInput => "TriggerInput",
            KeyName::SpiDevErrorDetect => "SpiDevErrorDetect",
            KeyName::Levels => "Levels",
            KeyName::SyncUnits => "SyncUnits",
            KeyName::SpiChannel => "SpiChannel",
            KeyName::SpiChannelId => "SpiChannelId",
            KeyName::SpiChannelType => "SpiChannelType",
            KeyName::SpiDataWidth => "SpiDataWidth",
            KeyName::SpiDefaultData => "SpiDefaultData",
            KeyName::SpiIbNBuffers => "SpiIbNBuffers",
            KeyName::SpiEbMaxLength => "SpiEbMaxLength",
            KeyName::SpiJob => "SpiJob",
            KeyName::SpiJobId => "SpiJobId",
            KeyName::SpiJobPriority => "SpiJobPriority",
            KeyName::SpiJobEndNotification => "SpiJobEndNotification",
            KeyName::SpiChannelList => "SpiChannelList",
            KeyName::Select => "Select",
            KeyName::SpiSequence => "SpiSequence",
            KeyName::SpiSequenceId => "SpiSequenceId",
            KeyName::SpiInterruptibleSequence => "SpiInterruptibleSequence",
            KeyName::SpiJobAssignment => "SpiJobAssignment",
            KeyName::SpiSeqEndNotification => "SpiSeqEndNotification",
            KeyName::DioDevErrorDetect => "DioDevErrorDetect",
            KeyName::DioChannelGroup => "DioChannelGroup",
            KeyName::DioChannelGroupId => "DioChannelGroupId",
            KeyName::Port => "Port",
            KeyName::DioPortOffset => "DioPortOffset",
            KeyName::DioPortMask => "DioPortMask",
            KeyName::WdgDevErrorDetect => "WdgDevErrorDetect",
            KeyName::WdgDefaultMode => "WdgDefaultMode",
            KeyName::WdgDisableAllowed => "WdgDisableAllowed",
            KeyName::InitialTicks => "InitialTicks",
            KeyName::MaxTicks => "MaxTicks",
        }
    }
}

impl fmt::Debug for KeyName {
    fn fmt<W: fmt::Write>(&self, f: &mut fmt::Formatter<W>) -> fmt::Result {
        f.write_str(self.text())
    }
}

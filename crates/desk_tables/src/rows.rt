use crate::keys::{KeyRow, Kind, Need, Range};
use config_keys::KeyName;

/// The directions of a pin.
const DIRECTIONS: [&str; 2] = ["PORT_PIN_IN", "PORT_PIN_OUT"];

/// The modes of a pin.
const MODES: [&str; 5] = [
    "PORT_PIN_MODE_ADC",
    "PORT_PIN_MODE_DIO",
    "PORT_PIN_MODE_ICU",
    "PORT_PIN_MODE_PWM",
    "PORT_PIN_MODE_SPI",
];

/// The levels of a latch.
const LATCHES: [&str; 2] = ["PORT_PIN_LEVEL_HIGH", "PORT_PIN_LEVEL_LOW"];

/// The modes of a timer.
const TIMER_MODES: [&str; 2] = ["GPT_CH_MODE_CONTINUOUS", "GPT_CH_MODE_ONESHOT"];

/// The classes of a pulse output.
const CLASSES: [&str; 3] = [
    "PWM_FIXED_PERIOD",
    "PWM_FIXED_PERIOD_SHIFTED",
    "PWM_VARIABLE_PERIOD",
];

/// The levels of a pulse output.
const PULSE_LEVELS: [&str; 2] = ["PWM_HIGH", "PWM_LOW"];

/// The edges of a capture input.
const EDGES: [&str; 3] = ["ICU_RISING_EDGE", "ICU_FALLING_EDGE", "ICU_BOTH_EDGES"];

/// The uses of a capture input.
const USES: [&str; 4] = [
    "ICU_MODE_SIGNAL_EDGE_DETECT",
    "ICU_MODE_EDGE_COUNTER",
    "ICU_MODE_TIMESTAMP",
    "ICU_MODE_SIGNAL_MEASUREMENT",
];

/// The properties that are measured.
const MEASURES: [&str; 4] = [
    "ICU_LOW_TIME",
    "ICU_HIGH_TIME",
    "ICU_PERIOD_TIME",
    "ICU_DUTY_CYCLE",
];

/// The ways to keep stamps.
const STAMP_BUFFERS: [&str; 2] = ["ICU_LINEAR_BUFFER", "ICU_CIRCULAR_BUFFER"];

/// The ways to see priorities.
const PRIORITIES: [&str; 2] = ["ADC_PRIORITY_NONE", "ADC_PRIORITY_HW_SW"];

/// The ways to read results.
const ACCESSES: [&str; 2] = ["ADC_ACCESS_MODE_SINGLE", "ADC_ACCESS_MODE_STREAMING"];

/// The ways to convert.
const CONVERSIONS: [&str; 2] = ["ADC_CONV_MODE_ONESHOT", "ADC_CONV_MODE_CONTINUOUS"];

/// The fates of a round that is pushed aside.
const REPLACEMENTS: [&str; 2] = [
    "ADC_GROUP_REPL_ABORT_RESTART",
    "ADC_GROUP_REPL_SUSPEND_RESUME",
];

/// The sources of a start.
const TRIGGERS: [&str; 2] = ["ADC_TRIGG_SRC_SW", "ADC_TRIGG_SRC_HW"];

/// The ways to keep results.
const STREAMS: [&str; 2] = ["ADC_STREAM_BUFFER_LINEAR", "ADC_STREAM_BUFFER_CIRCULAR"];

/// The keepers of serial words.
const BUFFERS: [&str; 2] = ["IB", "EB"];

/// The modes of the watchdog.
const WATCHDOG_MODES: [&str; 3] = ["WDGIF_OFF_MODE", "WDGIF_SLOW_MODE", "WDGIF_FAST_MODE"];

/// The keys of `[Mcu]`.
pub(crate) const MCU_KEYS: [KeyRow; 4] = [
    KeyRow(
        KeyName::McuDevErrorDetect,
        Kind::Truth,
        Need::Default("true"),
    ),
    KeyRow(
        KeyName::McuClockSettingConfig,
        Kind::Tables(8),
        Need::Default("[]"),
    ),
    KeyRow(
        KeyName::McuModeSettingConf,
        Kind::Tables(8),
        Need::Default("[]"),
    ),
    KeyRow(
        KeyName::McuRamSectorSettingConf,
        Kind::Tables(8),
        Need::Default("[]"),
    ),
];

/// The keys of an element of `McuClockSettingConfig`.
pub(crate) const MCU_CLOCK_SETTING_CONFIG_KEYS: [KeyRow; 2] = [
    KeyRow(
        KeyName::McuClockSettingId,
        Kind::Whole(Range(0, 7)),
        Need::Id,
    ),
    KeyRow(
        KeyName::Multiplier,
        Kind::Whole(Range(1, 16)),
        Need::Required,
    ),
];

/// The keys of an element of `McuModeSettingConf`.
pub(crate) const MCU_MODE_SETTING_CONF_KEYS: [KeyRow; 1] = [KeyRow(
    KeyName::McuMode,
    Kind::Whole(Range(0, 7)),
    Need::Id,
)];

/// The keys of an element of `McuRamSectorSettingConf`.
pub(crate) const MCU_RAM_SECTOR_SETTING_CONF_KEYS: [KeyRow; 3] = [
    KeyRow(
        KeyName::McuRamSectionBaseAddress,
        Kind::Whole(Range(0, 511)),
        Need::Required,
    ),
    KeyRow(
        KeyName::McuRamSectionSize,
        Kind::Whole(Range(1, 64)),
        Need::Required,
    ),
    KeyRow(
        KeyName::McuRamDefaultValue,
        Kind::Whole(Range(0, 255)),
        Need::Required,
    ),
];

/// The keys of `[Port]`.
pub(crate) const PORT_KEYS: [KeyRow; 2] = [
    KeyRow(
        KeyName::PortDevErrorDetect,
        Kind::Truth,
        Need::Default("true"),
    ),
    KeyRow(KeyName::PortPin, Kind::Tables(64), Need::Default("[]")),
];

/// The keys of an element of `PortPin`.
pub(crate) const PORT_PIN_KEYS: [KeyRow; 7] = [
    KeyRow(KeyName::PortPinId, Kind::Whole(Range(0, 63)), Need::Id),
    KeyRow(
        KeyName::PortPinDirection,
        Kind::Name(&DIRECTIONS),
        Need::Required,
    ),
    KeyRow(
        KeyName::PortPinDirectionChangeable,
        Kind::Truth,
        Need::Default("false"),
    ),
    KeyRow(
        KeyName::PortPinInitialMode,
        Kind::Name(&MODES),
        Need::Default("PORT_PIN_MODE_DIO"),
    ),
    KeyRow(
        KeyName::PortPinMode,
        Kind::Names(Range(1, 5), &MODES),
        Need::Default("the initial mode alone"),
    ),
    KeyRow(
        KeyName::PortPinModeChangeable,
        Kind::Truth,
        Need::Default("false"),
    ),
    KeyRow(
        KeyName::PortPinLevelValue,
        Kind::Name(&LATCHES),
        Need::Default("PORT_PIN_LEVEL_LOW"),
    ),
];

/// The keys of `[Gpt]`.
pub(crate) const GPT_KEYS: [KeyRow; 3] = [
    KeyRow(
        KeyName::GptDevErrorDetect,
        Kind::Truth,
        Need::Default("true"),
    ),
    KeyRow(
        KeyName::Classification,
        Kind::Whole(Range(1, 2)),
        Need::Default("1"),
    ),
    KeyRow(
        KeyName::GptChannelConfiguration,
        Kind::Tables(8),
        Need::Default("[]"),
    ),
];

/// The keys of an element of `GptChannelConfiguration`.
pub(crate) const GPT_CHANNEL_CONFIGURATION_KEYS: [KeyRow; 7] = [
    KeyRow(KeyName::GptChannelId, Kind::Whole(Range(0, 7)), Need::Id),
    KeyRow(
        KeyName::GptChannelMode,
        Kind::Name(&TIMER_MODES),
        Need::Required,
    ),
    KeyRow(
        KeyName::GptChannelTickValueMax,
        Kind::Whole(Range(1, 4294967295)),
        Need::Default("4294967295"),
    ),
    KeyRow(
        KeyName::GptEnableWakeup,
        Kind::Truth,
        Need::Default("false"),
    ),
    KeyRow(KeyName::GptNotification, Kind::Text, Need::Optional),
    KeyRow(
        KeyName::Prescaler,
        Kind::Whole(Range(1, 65535)),
        Need::Default("1"),
    ),
    KeyRow(KeyName::Level, Kind::Whole(Range(1, 7)), Need::Default("1")),
];

/// The keys of `[Pwm]`.
pub(crate) const PWM_KEYS: [KeyRow; 2] = [
    KeyRow(
        KeyName::PwmDevErrorDetect,
        Kind::Truth,
        Need::Default("true"),
    ),
    KeyRow(KeyName::PwmChannel, Kind::Tables(8), Need::Default("[]")),
];

/// The keys of an element of `PwmChannel`.
pub(crate) const PWM_CHANNEL_KEYS: [KeyRow; 9] = [
    KeyRow(KeyName::PwmChannelId, Kind::Whole(Range(0, 7)), Need::Id),
    KeyRow(
        KeyName::PwmChannelClass,
        Kind::Name(&CLASSES),
        Need::Required,
    ),
    KeyRow(
        KeyName::PwmDutycycleDefault,
        Kind::Whole(Range(0, 32768)),
        Need::Required,
    ),
    KeyRow(
        KeyName::PwmIdleState,
        Kind::Name(&PULSE_LEVELS),
        Need::Required,
    ),
    KeyRow(
        KeyName::PwmPolarity,
        Kind::Name(&PULSE_LEVELS),
        Need::Required,
    ),
    KeyRow(KeyName::PwmNotification, Kind::Text, Need::Optional),
    KeyRow(
        KeyName::PeriodTicks,
        Kind::Whole(Range(0, 65535)),
        Need::Required,
    ),
    KeyRow(KeyName::Pin, Kind::Whole(Range(0, 63)), Need::Optional),
    KeyRow(KeyName::Level, Kind::Whole(Range(1, 7)), Need::Default("1")),
];

/// The keys of `[Icu]`.
pub(crate) const ICU_KEYS: [KeyRow; 3] = [
    KeyRow(
        KeyName::IcuDevErrorDetect,
        Kind::Truth,
        Need::Default("true"),
    ),
    KeyRow(
        KeyName::Classification,
        Kind::Whole(Range(1, 2)),
        Need::Default("1"),
    ),
    KeyRow(KeyName::IcuChannel, Kind::Tables(8), Need::Default("[]")),
];

/// The keys of an element of `IcuChannel`.
pub(crate) const ICU_CHANNEL_KEYS: [KeyRow; 9] = [
    KeyRow(KeyName::IcuChannelId, Kind::Whole(Range(0, 7)), Need::Id),
    KeyRow(
        KeyName::IcuDefaultStartEdge,
        Kind::Name(&EDGES),
        Need::Required,
    ),
    KeyRow(
        KeyName::IcuMeasurementMode,
        Kind::Name(&USES),
        Need::Required,
    ),
    KeyRow(
        KeyName::IcuSignalMeasurementProperty,
        Kind::Name(&MEASURES),
        Need::With(KeyName::IcuMeasurementMode, "ICU_MODE_SIGNAL_MEASUREMENT"),
    ),
    KeyRow(
        KeyName::IcuTimestampMeasurementProperty,
        Kind::Name(&STAMP_BUFFERS),
        Need::With(KeyName::IcuMeasurementMode, "ICU_MODE_TIMESTAMP"),
    ),
    KeyRow(KeyName::IcuSignalNotification, Kind::Text, Need::Optional),
    KeyRow(
        KeyName::IcuTimestampNotification,
        Kind::Text,
        Need::Optional,
    ),
    KeyRow(KeyName::Pin, Kind::Whole(Range(0, 63)), Need::Required),
    KeyRow(KeyName::Level, Kind::Whole(Range(1, 7)), Need::Default("1")),
];

/// The keys of `[Adc]`.
pub(crate) const ADC_KEYS: [KeyRow; 6] = [
    KeyRow(
        KeyName::AdcDevErrorDetect,
        Kind::Truth,
        Need::Default("true"),
    ),
    KeyRow(
        KeyName::Classification,
        Kind::Whole(Range(1, 2)),
        Need::Default("1"),
    ),
    KeyRow(
        KeyName::AdcPriorityImplementation,
        Kind::Name(&PRIORITIES),
        Need::Default("ADC_PRIORITY_NONE"),
    ),
    KeyRow(
        KeyName::AdcEnableQueuing,
        Kind::Truth,
        Need::Default("false"),
    ),
    KeyRow(KeyName::AdcHwUnit, Kind::Tables(2), Need::Default("[]")),
    KeyRow(KeyName::AdcGroup, Kind::Tables(16), Need::Default("[]")),
];

/// The keys of an element of `AdcHwUnit`.
pub(crate) const ADC_HW_UNIT_KEYS: [KeyRow; 2] = [
    KeyRow(KeyName::AdcHwUnitId, Kind::Whole(Range(0, 1)), Need::Id),
    KeyRow(KeyName::Level, Kind::Whole(Range(1, 7)), Need::Default("1")),
];

/// The keys of an element of `AdcGroup`.
pub(crate) const ADC_GROUP_KEYS: [KeyRow; 13] = [
    KeyRow(KeyName::AdcGroupId, Kind::Whole(Range(0, 15)), Need::Id),
    KeyRow(KeyName::Unit, Kind::Whole(Range(0, 1)), Need::Required),
    KeyRow(
        KeyName::AdcGroupDefinition,
        Kind::Wholes(Range(1, 32), Range(0, 31)),
        Need::Required,
    ),
    KeyRow(
        KeyName::AdcGroupAccessMode,
        Kind::Name(&ACCESSES),
        Need::Required,
    ),
    KeyRow(
        KeyName::AdcGroupConversionMode,
        Kind::Name(&CONVERSIONS),
        Need::Required,
    ),
    KeyRow(
        KeyName::AdcGroupPriority,
        Kind::Whole(Range(0, 255)),
        Need::Default("0"),
    ),
    KeyRow(
        KeyName::AdcGroupReplacement,
        Kind::Name(&REPLACEMENTS),
        Need::Default("ADC_GROUP_REPL_ABORT_RESTART"),
    ),
    KeyRow(
        KeyName::AdcGroupTriggSrc,
        Kind::Name(&TRIGGERS),
        Need::Required,
    ),
    KeyRow(
        KeyName::AdcStreamingBufferMode,
        Kind::Name(&STREAMS),
        Need::Default("ADC_STREAM_BUFFER_LINEAR"),
    ),
    KeyRow(
        KeyName::AdcStreamingNumSamples,
        Kind::Whole(Range(1, 64)),
        Need::Default("1"),
    ),
    KeyRow(KeyName::AdcNotification, Kind::Text, Need::Optional),
    KeyRow(
        KeyName::TriggerInput,
        Kind::Whole(Range(0, 3)),
        Need::With(KeyName::AdcGroupTriggSrc, "ADC_TRIGG_SRC_HW"),
    ),
    KeyRow(KeyName::Level, Kind::Whole(Range(1, 7)), Need::Default("1")),
];

/// The keys of `[Spi]`.
pub(crate) const SPI_KEYS: [KeyRow; 7] = [
    KeyRow(
        KeyName::SpiDevErrorDetect,
        Kind::Truth,
        Need::Default("true"),
    ),
    KeyRow(
        KeyName::Classification,
        Kind::Whole(Range(1, 2)),
        Need::Default("1"),
    ),
    KeyRow(
        KeyName::Levels,
        Kind::Wholes(Range(2, 2), Range(1, 7)),
        Need::Default("[1, 1]"),
    ),
    KeyRow(
        KeyName::SyncUnits,
        Kind::Wholes(Range(0, 2), Range(0, 1)),
        Need::Default("[]"),
    ),
    KeyRow(KeyName::SpiChannel, Kind::Tables(16), Need::Default("[]")),
    KeyRow(KeyName::SpiJob, Kind::Tables(16), Need::Default("[]")),
    KeyRow(KeyName::SpiSequence, Kind::Tables(8), Need::Default("[]")),
];

/// The keys of an element of `SpiChannel`.
pub(crate) const SPI_CHANNEL_KEYS: [KeyRow; 6] = [
    KeyRow(KeyName::SpiChannelId, Kind::Whole(Range(0, 15)), Need::Id),
    KeyRow(
        KeyName::SpiChannelType,
        Kind::Name(&BUFFERS),
        Need::Required,
    ),
    KeyRow(
        KeyName::SpiDataWidth,
        Kind::Whole(Range(1, 16)),
        Need::Required,
    ),
    KeyRow(
        KeyName::SpiDefaultData,
        Kind::Whole(Range(0, 65535)),
        Need::Default("0"),
    ),
    KeyRow(
        KeyName::SpiIbNBuffers,
        Kind::Whole(Range(1, 64)),
        Need::Only(KeyName::SpiChannelType, "IB"),
    ),
    KeyRow(
        KeyName::SpiEbMaxLength,
        Kind::Whole(Range(1, 64)),
        Need::Only(KeyName::SpiChannelType, "EB"),
    ),
];

/// The keys of an element of `SpiJob`.
pub(crate) const SPI_JOB_KEYS: [KeyRow; 6] = [
    KeyRow(KeyName::SpiJobId, Kind::Whole(Range(0, 15)), Need::Id),
    KeyRow(
        KeyName::SpiJobPriority,
        Kind::Whole(Range(0, 3)),
        Need::Required,
    ),
    KeyRow(KeyName::SpiJobEndNotification, Kind::Text, Need::Optional),
    KeyRow(
        KeyName::SpiChannelList,
        Kind::Wholes(Range(1, 4), Range(0, 15)),
        Need::Required,
    ),
    KeyRow(KeyName::Unit, Kind::Whole(Range(0, 1)), Need::Required),
    KeyRow(KeyName::Select, Kind::Whole(Range(0, 7)), Need::Optional),
];

/// The keys of an element of `SpiSequence`.
pub(crate) const SPI_SEQUENCE_KEYS: [KeyRow; 4] = [
    KeyRow(KeyName::SpiSequenceId, Kind::Whole(Range(0, 7)), Need::Id),
    KeyRow(
        KeyName::SpiInterruptibleSequence,
        Kind::Truth,
        Need::Required,
    ),
    KeyRow(
        KeyName::SpiJobAssignment,
        Kind::Wholes(Range(1, 16), Range(0, 15)),
        Need::Required,
    ),
    KeyRow(KeyName::SpiSeqEndNotification, Kind::Text, Need::Optional),
];

/// The keys of `[Dio]`.
pub(crate) const DIO_KEYS: [KeyRow; 2] = [
    KeyRow(
        KeyName::DioDevErrorDetect,
        Kind::Truth,
        Need::Default("true"),
    ),
    KeyRow(
        KeyName::DioChannelGroup,
        Kind::Tables(8),
        Need::Default("[]"),
    ),
];

/// The keys of an element of `DioChannelGroup`.
pub(crate) const DIO_CHANNEL_GROUP_KEYS: [KeyRow; 4] = [
    KeyRow(
        KeyName::DioChannelGroupId,
        Kind::Whole(Range(0, 7)),
        Need::Id,
    ),
    KeyRow(KeyName::Port, Kind::Whole(Range(0, 7)), Need::Required),
    KeyRow(
        KeyName::DioPortOffset,
        Kind::Whole(Range(0, 7)),
        Need::Required,
    ),
    KeyRow(
        KeyName::DioPortMask,
        Kind::Whole(Range(1, 255)),
        Need::Required,
    ),
];

/// The keys of `[Wdg]`.
pub(crate) const WDG_KEYS: [KeyRow; 5] = [
    KeyRow(
        KeyName::WdgDevErrorDetect,
        Kind::Truth,
        Need::Default("true"),
    ),
    KeyRow(
        KeyName::WdgDefaultMode,
        Kind::Name(&WATCHDOG_MODES),
        Need::Default("WDGIF_OFF_MODE"),
    ),
    KeyRow(
        KeyName::WdgDisableAllowed,
        Kind::Truth,
        Need::Default("true"),
    ),
    KeyRow(
        KeyName::InitialTicks,
        Kind::Whole(Range(1, 65535)),
        Need::Default("1000"),
    ),
    KeyRow(
        KeyName::MaxTicks,
        Kind::Whole(Range(1, 65535)),
        Need::Default("65535"),
    ),
];

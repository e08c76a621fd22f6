use crate::words::{MOST, Operand};
use mcal_base::Service;

/// A service, and its arguments.
#[derive(Clone, Copy)]
pub struct ServiceRow(pub Service, pub &'static [Operand]);

/// Directions of a pin.
const DIRECTIONS: [&str; 2] = ["PORT_PIN_IN", "PORT_PIN_OUT"];

/// Modes of a pin, and a word for none.
const PIN_MODES: [&str; 6] = [
    "PORT_PIN_MODE_ADC",
    "PORT_PIN_MODE_DIO",
    "PORT_PIN_MODE_ICU",
    "PORT_PIN_MODE_PWM",
    "PORT_PIN_MODE_SPI",
    "INVALID",
];

/// Modes of the timers, and a word for none.
const TIMER_MODES: [&str; 3] = ["GPT_MODE_NORMAL", "GPT_MODE_SLEEP", "INVALID"];

/// Edges of a pulse output.
const PULSE_EDGES: [&str; 3] = ["PWM_RISING_EDGE", "PWM_FALLING_EDGE", "PWM_BOTH_EDGES"];

/// Edges of a capture input, and a word for none.
const CAPTURE_EDGES: [&str; 4] = [
    "ICU_RISING_EDGE",
    "ICU_FALLING_EDGE",
    "ICU_BOTH_EDGES",
    "INVALID",
];

/// The source array of a channel, or none.
const SOURCES: [&str; 2] = ["src", "null"];

/// The destination array of a channel, or none.
const DESTINATIONS: [&str; 2] = ["dst", "null"];

/// Modes of asynchronous transmission.
const ASYNC_MODES: [&str; 2] = ["SPI_POLLING_MODE", "SPI_INTERRUPT_MODE"];

/// Levels of a channel.
const LEVELS: [&str; 2] = ["STD_HIGH", "STD_LOW"];

/// Modes of the watchdog, and a word for none.
const WATCHDOG_MODES: [&str; 4] = [
    "WDGIF_OFF_MODE",
    "WDGIF_SLOW_MODE",
    "WDGIF_FAST_MODE",
    "INVALID",
];

/// A RAM section.
const SECTION: [Operand; 1] = [Operand::Number("section", MOST)];

/// A clock setting.
const SETTING: [Operand; 1] = [Operand::Number("setting", MOST)];

/// A mode of the clock.
const MODE: [Operand; 1] = [Operand::Number("mode", MOST)];

/// A channel.
const CHANNEL: [Operand; 1] = [Operand::Number("channel", MOST)];

/// A group of a converter or of channels.
const GROUP: [Operand; 1] = [Operand::Number("group", MOST)];

/// A sequence.
const SEQUENCE: [Operand; 1] = [Operand::Number("sequence", MOST)];

/// A job.
const JOB: [Operand; 1] = [Operand::Number("job", MOST)];

/// A serial unit.
const UNIT: [Operand; 1] = [Operand::Number("unit", MOST)];

/// A port.
const PORT: [Operand; 1] = [Operand::Number("port", MOST)];

/// A channel, and a level.
const CHANNEL_AND_LEVEL: [Operand; 2] = [
    Operand::Number("channel", MOST),
    Operand::Name("level", &LEVELS),
];

/// A port, and a value.
const PORT_AND_VALUE: [Operand; 2] = [Operand::Number("port", MOST), Operand::Number("value", 255)];

/// A group, and a value.
const GROUP_AND_VALUE: [Operand; 2] = [
    Operand::Number("group", MOST),
    Operand::Number("value", 255),
];

/// The services, module by module.
static SERVICES: [ServiceRow; 87] = [
    ServiceRow(Service::McuInit, &[]),
    ServiceRow(Service::McuInitRamSection, &SECTION),
    ServiceRow(Service::McuInitClock, &SETTING),
    ServiceRow(Service::McuDistributePllClock, &[]),
    ServiceRow(Service::McuGetPllStatus, &[]),
    ServiceRow(Service::McuGetResetReason, &[]),
    ServiceRow(Service::McuPerformReset, &[]),
    ServiceRow(Service::McuSetMode, &MODE),
    ServiceRow(Service::PortInit, &[]),
    ServiceRow(
        Service::PortSetPinDirection,
        &[
            Operand::Number("pin", MOST),
            Operand::Name("direction", &DIRECTIONS),
        ],
    ),
    ServiceRow(Service::PortRefreshPortDirection, &[]),
    ServiceRow(
        Service::PortSetPinMode,
        &[
            Operand::Number("pin", MOST),
            Operand::Name("mode", &PIN_MODES),
        ],
    ),
    ServiceRow(Service::GptInit, &[]),
    ServiceRow(Service::GptDeInit, &[]),
    ServiceRow(Service::GptGetTimeElapsed, &CHANNEL),
    ServiceRow(Service::GptGetTimeRemaining, &CHANNEL),
    ServiceRow(
        Service::GptStartTimer,
        &[
            Operand::Number("channel", MOST),
            Operand::Number("value", MOST),
        ],
    ),
    ServiceRow(Service::GptStopTimer, &CHANNEL),
    ServiceRow(Service::GptEnableNotification, &CHANNEL),
    ServiceRow(Service::GptDisableNotification, &CHANNEL),
    ServiceRow(Service::GptSetMode, &[Operand::Name("mode", &TIMER_MODES)]),
    ServiceRow(Service::GptEnableWakeup, &CHANNEL),
    ServiceRow(Service::GptDisableWakeup, &CHANNEL),
    ServiceRow(Service::GptCheckWakeup, &CHANNEL),
    ServiceRow(Service::PwmInit, &[]),
    ServiceRow(Service::PwmDeInit, &[]),
    ServiceRow(
        Service::PwmSetDutyCycle,
        &[
            Operand::Number("channel", MOST),
            Operand::Number("duty", 65_535),
        ],
    ),
    ServiceRow(
        Service::PwmSetPeriodAndDuty,
        &[
            Operand::Number("channel", MOST),
            Operand::Number("period", 65_535),
            Operand::Number("duty", 65_535),
        ],
    ),
    ServiceRow(Service::PwmSetOutputToIdle, &CHANNEL),
    ServiceRow(Service::PwmGetOutputState, &CHANNEL),
    ServiceRow(
        Service::PwmEnableNotification,
        &[
            Operand::Number("channel", MOST),
            Operand::Name("edges", &PULSE_EDGES),
        ],
    ),
    ServiceRow(Service::PwmDisableNotification, &CHANNEL),
    ServiceRow(Service::IcuInit, &[]),
    ServiceRow(Service::IcuDeInit, &[]),
    ServiceRow(
        Service::IcuSetActivationCondition,
        &[
            Operand::Number("channel", MOST),
            Operand::Name("edges", &CAPTURE_EDGES),
        ],
    ),
    ServiceRow(Service::IcuEnableNotification, &CHANNEL),
    ServiceRow(Service::IcuDisableNotification, &CHANNEL),
    ServiceRow(Service::IcuGetInputState, &CHANNEL),
    ServiceRow(Service::IcuEnableEdgeDetection, &CHANNEL),
    ServiceRow(Service::IcuDisableEdgeDetection, &CHANNEL),
    ServiceRow(Service::IcuResetEdgeCount, &CHANNEL),
    ServiceRow(Service::IcuEnableEdgeCount, &CHANNEL),
    ServiceRow(Service::IcuDisableEdgeCount, &CHANNEL),
    ServiceRow(Service::IcuGetEdgeNumbers, &CHANNEL),
    ServiceRow(
        Service::IcuStartTimestamp,
        &[
            Operand::Number("channel", MOST),
            Operand::Number("size", MOST),
            Operand::Number("interval", MOST),
        ],
    ),
    ServiceRow(Service::IcuStopTimestamp, &CHANNEL),
    ServiceRow(Service::IcuGetTimestampIndex, &CHANNEL),
    ServiceRow(Service::IcuStartSignalMeasurement, &CHANNEL),
    ServiceRow(Service::IcuStopSignalMeasurement, &CHANNEL),
    ServiceRow(Service::IcuGetTimeElapsed, &CHANNEL),
    ServiceRow(Service::IcuGetDutyCycleValues, &CHANNEL),
    ServiceRow(Service::AdcInit, &[]),
    ServiceRow(Service::AdcDeInit, &[]),
    ServiceRow(
        Service::AdcSetupResultBuffer,
        &[Operand::Number("group", MOST), Operand::Buffer],
    ),
    ServiceRow(Service::AdcStartGroupConversion, &GROUP),
    ServiceRow(Service::AdcStopGroupConversion, &GROUP),
    ServiceRow(Service::AdcReadGroup, &GROUP),
    ServiceRow(Service::AdcEnableHardwareTrigger, &GROUP),
    ServiceRow(Service::AdcDisableHardwareTrigger, &GROUP),
    ServiceRow(Service::AdcEnableGroupNotification, &GROUP),
    ServiceRow(Service::AdcDisableGroupNotification, &GROUP),
    ServiceRow(Service::AdcGetGroupStatus, &GROUP),
    ServiceRow(Service::AdcGetStreamLastPointer, &GROUP),
    ServiceRow(Service::SpiInit, &[]),
    ServiceRow(Service::SpiDeInit, &[]),
    ServiceRow(
        Service::SpiWriteIb,
        &[
            Operand::Number("channel", MOST),
            Operand::Name("source", &SOURCES),
        ],
    ),
    ServiceRow(Service::SpiReadIb, &CHANNEL),
    ServiceRow(
        Service::SpiSetupEb,
        &[
            Operand::Number("channel", MOST),
            Operand::Name("source", &SOURCES),
            Operand::Name("destination", &DESTINATIONS),
            Operand::Number("length", MOST),
        ],
    ),
    ServiceRow(Service::SpiAsyncTransmit, &SEQUENCE),
    ServiceRow(Service::SpiCancel, &SEQUENCE),
    ServiceRow(Service::SpiGetStatus, &[]),
    ServiceRow(Service::SpiGetJobResult, &JOB),
    ServiceRow(Service::SpiGetSequenceResult, &SEQUENCE),
    ServiceRow(Service::SpiGetHwUnitStatus, &UNIT),
    ServiceRow(
        Service::SpiSetAsyncMode,
        &[Operand::Name("mode", &ASYNC_MODES)],
    ),
    ServiceRow(Service::SpiMainFunctionHandling, &[]),
    ServiceRow(Service::SpiSyncTransmit, &SEQUENCE),
    ServiceRow(Service::DioReadChannel, &CHANNEL),
    ServiceRow(Service::DioFlipChannel, &CHANNEL),
    ServiceRow(Service::DioWriteChannel, &CHANNEL_AND_LEVEL),
    ServiceRow(Service::DioReadPort, &PORT),
    ServiceRow(Service::DioWritePort, &PORT_AND_VALUE),
    ServiceRow(Service::DioReadChannelGroup, &GROUP),
    ServiceRow(Service::DioWriteChannelGroup, &GROUP_AND_VALUE),
    ServiceRow(Service::WdgInit, &[]),
    ServiceRow(
        Service::WdgSetMode,
        &[Operand::Name("mode", &WATCHDOG_MODES)],
    ),
    ServiceRow(
        Service::WdgSetTriggerCondition,
        &[Operand::Number("timeout", 65_535)],
    ),
];

/// The services, module by module.
pub fn services() -> &'static [ServiceRow] {
    &SERVICES
}

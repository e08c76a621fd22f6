ghost use Rattle.std.specs.Prelude.{◌≡◌, ◌≤◌, length};
ghost use Rattle.bench_script.specs.Tables as spec;

use mcal_base::{ArgumentName, Service};

/// What may stand for an argument of a service.
#[derive(Clone, Copy)]
pub(crate) enum Kind {
    /// A number of at most so much.
    Number(u32),
    /// One of the names of a set.
    Name(NameSet),
    /// A result buffer: 0, 1 or `null`.
    Buffer,
}

/// The sets of names that arguments are out of.
#[derive(Clone, Copy)]
pub(crate) enum NameSet {
    /// A direction of a pin.
    Direction,
    /// A mode of a pin, or `INVALID`.
    PinMode,
    /// A mode of Gpt, or `INVALID`.
    GptMode,
    /// Edges of Pwm.
    PwmEdge,
    /// Edges of Icu, or `INVALID`.
    IcuEdge,
    /// `src` or `null`.
    Source,
    /// `dst` or `null`.
    Destination,
    /// A mode of asynchronous transmission.
    AsyncMode,
    /// A level of a pin.
    PinLevel,
    /// A mode of the watchdog, or `INVALID`.
    WdgMode,
}

/// Any number of the language.
const ANY: Kind = Kind::Number(u32::MAX);

/// A number of 16 bits.
const HALF: Kind = Kind::Number(65_535);

/// A number of 8 bits.
const BYTE: Kind = Kind::Number(255);

/// The names of a set.
pub(crate) fn names_of(set: NameSet) -> &'static [ArgumentName]
    ensures { result.now ≡ spec.names_of set }
{
    match set {
        NameSet::Direction => &[ArgumentName::PortPinIn, ArgumentName::PortPinOut],
        NameSet::PinMode => &[
            ArgumentName::PortPinModeAdc,
            ArgumentName::PortPinModeDio,
            ArgumentName::PortPinModeIcu,
            ArgumentName::PortPinModePwm,
            ArgumentName::PortPinModeSpi,
            ArgumentName::Invalid,
        ],
        NameSet::GptMode => &[
            ArgumentName::GptModeNormal,
            ArgumentName::GptModeSleep,
            ArgumentName::Invalid,
        ],
        NameSet::PwmEdge => &[
            ArgumentName::PwmRisingEdge,
            ArgumentName::PwmFallingEdge,
            ArgumentName::PwmBothEdges,
        ],
        NameSet::IcuEdge => &[
            ArgumentName::IcuRisingEdge,
            ArgumentName::IcuFallingEdge,
            ArgumentName::IcuBothEdges,
            ArgumentName::Invalid,
        ],
        NameSet::Source => &[ArgumentName::Source, ArgumentName::Null],
        NameSet::Destination => &[ArgumentName::Destination, ArgumentName::Null],
        NameSet::AsyncMode => &[ArgumentName::SpiPollingMode, ArgumentName::SpiInterruptMode],
        NameSet::PinLevel => &[ArgumentName::StdHigh, ArgumentName::StdLow],
        NameSet::WdgMode => &[
            ArgumentName::WdgifOffMode,
            ArgumentName::WdgifSlowMode,
            ArgumentName::WdgifFastMode,
            ArgumentName::Invalid,
        ],
    }
}

/// What stands for the arguments of a service, in their order.
pub(crate) fn arguments_of(service: Service) -> &'static [Kind]
    ensures kinds { result.now ≡ spec.arguments_of service }
    ensures few { length result.now ≤ 4 }
{
    match service {
        Service::McuInit
        | Service::McuDistributePllClock
        | Service::McuGetPllStatus
        | Service::McuGetResetReason
        | Service::McuPerformReset
        | Service::PortInit
        | Service::PortRefreshPortDirection
        | Service::GptInit
        | Service::GptDeInit
        | Service::PwmInit
        | Service::PwmDeInit
        | Service::IcuInit
        | Service::IcuDeInit
        | Service::AdcInit
        | Service::AdcDeInit
        | Service::SpiInit
        | Service::SpiDeInit
        | Service::SpiGetStatus
        | Service::SpiMainFunctionHandling
        | Service::WdgInit => &[],
        Service::McuInitRamSection
        | Service::McuInitClock
        | Service::McuSetMode
        | Service::GptGetTimeElapsed
        | Service::GptGetTimeRemaining
        | Service::GptStopTimer
        | Service::GptEnableNotification
        | Service::GptDisableNotification
        | Service::GptEnableWakeup
        | Service::GptDisableWakeup
        | Service::GptCheckWakeup
        | Service::PwmSetOutputToIdle
        | Service::PwmGetOutputState
        | Service::PwmDisableNotification
        | Service::IcuEnableNotification
        | Service::IcuDisableNotification
        | Service::IcuGetInputState
        | Service::IcuEnableEdgeDetection
        | Service::IcuDisableEdgeDetection
        | Service::IcuResetEdgeCount
        | Service::IcuEnableEdgeCount
        | Service::IcuDisableEdgeCount
        | Service::IcuGetEdgeNumbers
        | Service::IcuStopTimestamp
        | Service::IcuGetTimestampIndex
        | Service::IcuStartSignalMeasurement
        | Service::IcuStopSignalMeasurement
        | Service::IcuGetTimeElapsed
        | Service::IcuGetDutyCycleValues
        | Service::AdcStartGroupConversion
        | Service::AdcStopGroupConversion
        | Service::AdcReadGroup
        | Service::AdcEnableHardwareTrigger
        | Service::AdcDisableHardwareTrigger
        | Service::AdcEnableGroupNotification
        | Service::AdcDisableGroupNotification
        | Service::AdcGetGroupStatus
        | Service::AdcGetStreamLastPointer
        | Service::SpiReadIb
        | Service::SpiAsyncTransmit
        | Service::SpiCancel
        | Service::SpiSyncTransmit
        | Service::SpiGetJobResult
        | Service::SpiGetSequenceResult
        | Service::SpiGetHwUnitStatus
        | Service::DioReadChannel
        | Service::DioFlipChannel
        | Service::DioReadPort
        | Service::DioReadChannelGroup => &[ANY],
        Service::PortSetPinDirection => &[ANY, Kind::Name(NameSet::Direction)],
        Service::PortSetPinMode => &[ANY, Kind::Name(NameSet::PinMode)],
        Service::GptStartTimer => &[ANY, ANY],
        Service::GptSetMode => &[Kind::Name(NameSet::GptMode)],
        Service::PwmSetDutyCycle => &[ANY, HALF],
        Service::PwmSetPeriodAndDuty => &[ANY, HALF, HALF],
        Service::PwmEnableNotification => &[ANY, Kind::Name(NameSet::PwmEdge)],
        Service::IcuSetActivationCondition => &[ANY, Kind::Name(NameSet::IcuEdge)],
        Service::IcuStartTimestamp => &[ANY, ANY, ANY],
        Service::AdcSetupResultBuffer => &[ANY, Kind::Buffer],
        Service::SpiWriteIb => &[ANY, Kind::Name(NameSet::Source)],
        Service::SpiSetupEb => &[
            ANY,
            Kind::Name(NameSet::Source),
            Kind::Name(NameSet::Destination),
            ANY,
        ],
        Service::SpiSetAsyncMode => &[Kind::Name(NameSet::AsyncMode)],
        Service::DioWriteChannel => &[ANY, Kind::Name(NameSet::PinLevel)],
        Service::DioWritePort | Service::DioWriteChannelGroup => &[ANY, BYTE],
        Service::WdgSetMode => &[Kind::Name(NameSet::WdgMode)],
        Service::WdgSetTriggerCondition => &[HALF],
    }
}

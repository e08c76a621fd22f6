ghost use Rattle.std.specs.Prelude.{◌≡◌, ◌≤◌, length};
ghost use Rattle.mcal_base.specs.det_errors.Rows as spec;

use crate::{ErrorName, Service};

/// What holds of the errors of a service: place i is the condition of the error at place i of the service's row.
#[derive(Clone, Copy, Default)]
pub struct Facts {
    /// The conditions, in the order of the row. Those past its end are of no effect.
    pub holds: [bool; 6],
}

/// The first error of the service's row whose condition holds.
pub fn first_error(service: Service, facts: &Facts) -> Option<ErrorName>
    ensures { result ≡ spec.first_error service facts.now.holds }
{
    first_that_holds(errors_of(service), &facts.holds)
}

/// The first error whose condition, at the same place, holds.
fn first_that_holds(errors: &[ErrorName], holds: &[bool; 6]) -> Option<ErrorName>
    requires { length errors.now ≤ 6 }
    ensures { result ≡ spec.first_that_holds errors.now holds.now }
{
    for (place, error) in errors.iter().enumerate() {
        if holds[place] {
            return Some(*error);
        }
    }
    None
}

/// The errors of a service, in the order in which they are checked.
fn errors_of(service: Service) -> &'static [ErrorName]
    ensures row { result.now ≡ spec.errors_of service }
    ensures few { length result.now ≤ 6 }
{
    match service {
        Service::McuInit => &[],
        Service::McuInitRamSection => &[ErrorName::McuUninit, ErrorName::McuParamRamsection],
        Service::McuInitClock => &[ErrorName::McuUninit, ErrorName::McuParamClock],
        Service::McuDistributePllClock => &[ErrorName::McuUninit, ErrorName::McuPllNotLocked],
        Service::McuGetPllStatus => &[ErrorName::McuUninit],
        Service::McuGetResetReason => &[ErrorName::McuUninit],
        Service::McuPerformReset => &[ErrorName::McuUninit],
        Service::McuSetMode => &[ErrorName::McuUninit, ErrorName::McuParamMode],
        Service::PortInit => &[],
        Service::PortSetPinDirection => &[
            ErrorName::PortUninit,
            ErrorName::PortParamPin,
            ErrorName::PortDirectionUnchangeable,
        ],
        Service::PortRefreshPortDirection => &[ErrorName::PortUninit],
        Service::PortSetPinMode => &[
            ErrorName::PortUninit,
            ErrorName::PortParamPin,
            ErrorName::PortParamInvalidMode,
            ErrorName::PortModeUnchangeable,
        ],
        Service::GptInit => &[ErrorName::GptAlreadyInitialized],
        Service::GptDeInit => &[ErrorName::GptUninit, ErrorName::GptBusy],
        Service::GptGetTimeElapsed => &[ErrorName::GptUninit, ErrorName::GptParamChannel],
        Service::GptGetTimeRemaining => &[ErrorName::GptUninit, ErrorName::GptParamChannel],
        Service::GptStartTimer => &[
            ErrorName::GptUninit,
            ErrorName::GptParamChannel,
            ErrorName::GptParamValue,
            ErrorName::GptMode,
            ErrorName::GptBusy,
        ],
        Service::GptStopTimer => &[ErrorName::GptUninit, ErrorName::GptParamChannel],
        Service::GptEnableNotification => &[ErrorName::GptUninit, ErrorName::GptParamChannel],
        Service::GptDisableNotification => &[ErrorName::GptUninit, ErrorName::GptParamChannel],
        Service::GptSetMode => &[ErrorName::GptUninit, ErrorName::GptParamMode],
        Service::GptEnableWakeup => &[ErrorName::GptUninit, ErrorName::GptParamChannel],
        Service::GptDisableWakeup => &[ErrorName::GptUninit, ErrorName::GptParamChannel],
        Service::GptCheckWakeup => &[ErrorName::GptUninit],
        Service::PwmInit => &[ErrorName::PwmAlreadyInitialized],
        Service::PwmDeInit => &[ErrorName::PwmUninit],
        Service::PwmSetDutyCycle => &[ErrorName::PwmUninit, ErrorName::PwmParamChannel],
        Service::PwmSetPeriodAndDuty => &[
            ErrorName::PwmUninit,
            ErrorName::PwmParamChannel,
            ErrorName::PwmPeriodUnchangeable,
        ],
        Service::PwmSetOutputToIdle => &[ErrorName::PwmUninit, ErrorName::PwmParamChannel],
        Service::PwmGetOutputState => &[ErrorName::PwmUninit, ErrorName::PwmParamChannel],
        Service::PwmEnableNotification => &[ErrorName::PwmUninit, ErrorName::PwmParamChannel],
        Service::PwmDisableNotification => &[ErrorName::PwmUninit, ErrorName::PwmParamChannel],
        Service::IcuInit => &[ErrorName::IcuAlreadyInitialized],
        Service::IcuDeInit => &[ErrorName::IcuUninit],
        Service::IcuSetActivationCondition => &[
            ErrorName::IcuUninit,
            ErrorName::IcuParamChannel,
            ErrorName::IcuParamActivation,
        ],
        Service::IcuEnableNotification => &[ErrorName::IcuUninit, ErrorName::IcuParamChannel],
        Service::IcuDisableNotification => &[ErrorName::IcuUninit, ErrorName::IcuParamChannel],
        Service::IcuGetInputState => &[ErrorName::IcuUninit, ErrorName::IcuParamChannel],
        Service::IcuEnableEdgeDetection => &[ErrorName::IcuUninit, ErrorName::IcuParamChannel],
        Service::IcuDisableEdgeDetection => &[ErrorName::IcuUninit, ErrorName::IcuParamChannel],
        Service::IcuResetEdgeCount => &[ErrorName::IcuUninit, ErrorName::IcuParamChannel],
        Service::IcuEnableEdgeCount => &[ErrorName::IcuUninit, ErrorName::IcuParamChannel],
        Service::IcuDisableEdgeCount => &[ErrorName::IcuUninit, ErrorName::IcuParamChannel],
        Service::IcuGetEdgeNumbers => &[ErrorName::IcuUninit, ErrorName::IcuParamChannel],
        Service::IcuStartTimestamp => &[
            ErrorName::IcuUninit,
            ErrorName::IcuParamChannel,
            ErrorName::IcuParamBufferSize,
            ErrorName::IcuParamNotifyInterval,
        ],
        Service::IcuStopTimestamp => &[
            ErrorName::IcuUninit,
            ErrorName::IcuParamChannel,
            ErrorName::IcuNotStarted,
        ],
        Service::IcuGetTimestampIndex => &[ErrorName::IcuUninit, ErrorName::IcuParamChannel],
        Service::IcuStartSignalMeasurement => &[ErrorName::IcuUninit, ErrorName::IcuParamChannel],
        Service::IcuStopSignalMeasurement => &[ErrorName::IcuUninit, ErrorName::IcuParamChannel],
        Service::IcuGetTimeElapsed => &[ErrorName::IcuUninit, ErrorName::IcuParamChannel],
        Service::IcuGetDutyCycleValues => &[ErrorName::IcuUninit, ErrorName::IcuParamChannel],
        Service::AdcInit => &[ErrorName::AdcAlreadyInitialized],
        Service::AdcDeInit => &[ErrorName::AdcUninit, ErrorName::AdcBusy],
        Service::AdcSetupResultBuffer => &[
            ErrorName::AdcUninit,
            ErrorName::AdcParamGroup,
            ErrorName::AdcParamPointer,
            ErrorName::AdcBusy,
        ],
        Service::AdcStartGroupConversion => &[
            ErrorName::AdcUninit,
            ErrorName::AdcParamGroup,
            ErrorName::AdcWrongTriggSrc,
            ErrorName::AdcBufferUninit,
            ErrorName::AdcBusy,
        ],
        Service::AdcStopGroupConversion => &[
            ErrorName::AdcUninit,
            ErrorName::AdcParamGroup,
            ErrorName::AdcWrongTriggSrc,
            ErrorName::AdcIdle,
        ],
        Service::AdcReadGroup => &[
            ErrorName::AdcUninit,
            ErrorName::AdcParamGroup,
            ErrorName::AdcIdle,
        ],
        Service::AdcEnableHardwareTrigger => &[
            ErrorName::AdcUninit,
            ErrorName::AdcParamGroup,
            ErrorName::AdcWrongTriggSrc,
            ErrorName::AdcBufferUninit,
            ErrorName::AdcBusy,
        ],
        Service::AdcDisableHardwareTrigger => &[
            ErrorName::AdcUninit,
            ErrorName::AdcParamGroup,
            ErrorName::AdcWrongTriggSrc,
            ErrorName::AdcIdle,
        ],
        Service::AdcEnableGroupNotification => &[
            ErrorName::AdcUninit,
            ErrorName::AdcParamGroup,
            ErrorName::AdcNotifCapability,
        ],
        Service::AdcDisableGroupNotification => &[
            ErrorName::AdcUninit,
            ErrorName::AdcParamGroup,
            ErrorName::AdcNotifCapability,
        ],
        Service::AdcGetGroupStatus => &[ErrorName::AdcUninit, ErrorName::AdcParamGroup],
        Service::AdcGetStreamLastPointer => &[
            ErrorName::AdcUninit,
            ErrorName::AdcParamGroup,
            ErrorName::AdcIdle,
        ],
        Service::SpiInit => &[ErrorName::SpiAlreadyInitialized],
        Service::SpiDeInit => &[ErrorName::SpiUninit],
        Service::SpiWriteIb => &[ErrorName::SpiUninit, ErrorName::SpiParamChannel],
        Service::SpiReadIb => &[ErrorName::SpiUninit, ErrorName::SpiParamChannel],
        Service::SpiSetupEb => &[
            ErrorName::SpiUninit,
            ErrorName::SpiParamChannel,
            ErrorName::SpiParamLength,
        ],
        Service::SpiAsyncTransmit => &[
            ErrorName::SpiUninit,
            ErrorName::SpiParamSeq,
            ErrorName::SpiSeqPending,
        ],
        Service::SpiCancel => &[ErrorName::SpiUninit, ErrorName::SpiParamSeq],
        Service::SpiGetStatus => &[],
        Service::SpiGetJobResult => &[ErrorName::SpiUninit, ErrorName::SpiParamJob],
        Service::SpiGetSequenceResult => &[ErrorName::SpiUninit, ErrorName::SpiParamSeq],
        Service::SpiGetHwUnitStatus => &[ErrorName::SpiUninit, ErrorName::SpiParamUnit],
        Service::SpiSetAsyncMode => &[ErrorName::SpiUninit],
        Service::SpiMainFunctionHandling => &[],
        Service::SpiSyncTransmit => &[
            ErrorName::SpiUninit,
            ErrorName::SpiParamSeq,
            ErrorName::SpiSeqInProcess,
        ],
        Service::DioReadChannel => &[ErrorName::DioParamInvalidChannelId],
        Service::DioFlipChannel => &[ErrorName::DioParamInvalidChannelId],
        Service::DioWriteChannel => &[ErrorName::DioParamInvalidChannelId],
        Service::DioReadPort => &[ErrorName::DioParamInvalidPortId],
        Service::DioWritePort => &[ErrorName::DioParamInvalidPortId],
        Service::DioReadChannelGroup => &[ErrorName::DioParamInvalidGroup],
        Service::DioWriteChannelGroup => &[ErrorName::DioParamInvalidGroup],
        Service::WdgInit => &[],
        Service::WdgSetMode => &[ErrorName::WdgDriverState, ErrorName::WdgParamMode],
        Service::WdgSetTriggerCondition => &[ErrorName::WdgDriverState, ErrorName::WdgParamTimeout],
    }
}

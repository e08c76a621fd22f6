ghost use Rattle.std.specs.Prelude.{◌≡◌};
ghost use Rattle.adc_machine.specs.Bounds as bounds;
ghost use Rattle.adc_machine.specs.Checks as spec;

use mcal_base::{ModuleName, Service};
use run_model::{Class, Key, KeyKind, Kind};

/// One of the two result buffers of a group.
#[derive(Clone, Copy)]
pub enum ResultBuffer {
    /// Buffer 0.
    Zero,
    /// Buffer 1.
    One,
}

/// What is asked of a group.
#[derive(Clone, Copy)]
pub enum GroupCall {
    /// `Adc_SetupResultBuffer` with a buffer; `None` is a null pointer.
    SetupResultBuffer(Option<ResultBuffer>),
    /// `Adc_StartGroupConversion`
    StartGroupConversion,
    /// `Adc_StopGroupConversion`
    StopGroupConversion,
    /// `Adc_ReadGroup`
    ReadGroup,
    /// `Adc_EnableHardwareTrigger`
    EnableHardwareTrigger,
    /// `Adc_DisableHardwareTrigger`
    DisableHardwareTrigger,
    /// `Adc_EnableGroupNotification` or `Adc_DisableGroupNotification`
    Notification(bool),
    /// `Adc_GetGroupStatus`
    GetGroupStatus,
    /// `Adc_GetStreamLastPointer`
    GetStreamLastPointer,
}

/// A call of the converter driver, with its arguments. Groups are any numbers.
#[derive(Clone, Copy)]
pub enum Call {
    /// `Adc_Init`
    Init,
    /// `Adc_DeInit`
    DeInit,
    /// A call about the group of this number.
    Group(u32, GroupCall),
}

impl Call {
    /// The service that is called.
    pub fn service(self) -> Service
        ensures { result ≡ spec.service_of self }
    {
        match self {
            Call::Init => Service::AdcInit,
            Call::DeInit => Service::AdcDeInit,
            Call::Group(_, call) => call.service(),
        }
    }

    /// The class of the call: the status of a group may always be asked, any other call about a group has that group
    /// as its key, and a call about the whole module is alone in it.
    pub fn class(self) -> Class
        ensures { result ≡ bounds.class_of self }
    {
        match self {
            Call::Init | Call::DeInit => Class {
                kind: Kind::Exclusive,
                module: ModuleName::Adc,
                key: None,
            },
            Call::Group(_, GroupCall::GetGroupStatus) => Class {
                kind: Kind::Query,
                module: ModuleName::Adc,
                key: None,
            },
            Call::Group(number, _) => Class {
                kind: Kind::Keyed,
                module: ModuleName::Adc,
                key: Some(Key {
                    kind: KeyKind::Group,
                    number,
                }),
            },
        }
    }
}

impl GroupCall {
    fn service(self) -> Service
        ensures { result ≡ spec.group_service self }
    {
        match self {
            GroupCall::SetupResultBuffer(_) => Service::AdcSetupResultBuffer,
            GroupCall::StartGroupConversion => Service::AdcStartGroupConversion,
            GroupCall::StopGroupConversion => Service::AdcStopGroupConversion,
            GroupCall::ReadGroup => Service::AdcReadGroup,
            GroupCall::EnableHardwareTrigger => Service::AdcEnableHardwareTrigger,
            GroupCall::DisableHardwareTrigger => Service::AdcDisableHardwareTrigger,
            GroupCall::Notification(true) => Service::AdcEnableGroupNotification,
            GroupCall::Notification(false) => Service::AdcDisableGroupNotification,
            GroupCall::GetGroupStatus => Service::AdcGetGroupStatus,
            GroupCall::GetStreamLastPointer => Service::AdcGetStreamLastPointer,
        }
    }
}

ghost use Rattle.std.specs.Prelude.{◌≡◌};
ghost use Rattle.module_machines.specs.icu.Classes as classes;
ghost use Rattle.module_machines.specs.icu.Checks as spec;

use mcal_base::{IcuStartEdge, ModuleName, Service};
use run_model::{Class, Key, KeyKind, Kind};

/// What is asked of a channel. Sizes and intervals are any numbers.
#[derive(Clone, Copy)]
pub enum ChannelCall {
    /// `Icu_SetActivationCondition` to the edges that are chosen; `None` is no such choice.
    SetActivationCondition(Option<IcuStartEdge>),
    /// `Icu_EnableNotification`
    EnableNotification,
    /// `Icu_DisableNotification`
    DisableNotification,
    /// `Icu_GetInputState`
    GetInputState,
    /// `Icu_EnableEdgeDetection`
    EnableEdgeDetection,
    /// `Icu_DisableEdgeDetection`
    DisableEdgeDetection,
    /// `Icu_ResetEdgeCount`
    ResetEdgeCount,
    /// `Icu_EnableEdgeCount`
    EnableEdgeCount,
    /// `Icu_DisableEdgeCount`
    DisableEdgeCount,
    /// `Icu_GetEdgeNumbers`
    GetEdgeNumbers,
    /// `Icu_StartTimestamp` with a size and an interval of notices.
    StartTimestamp(u32, u32),
    /// `Icu_StopTimestamp`
    StopTimestamp,
    /// `Icu_GetTimestampIndex`
    GetTimestampIndex,
    /// `Icu_StartSignalMeasurement`
    StartSignalMeasurement,
    /// `Icu_StopSignalMeasurement`
    StopSignalMeasurement,
    /// `Icu_GetTimeElapsed`
    GetTimeElapsed,
    /// `Icu_GetDutyCycleValues`
    GetDutyCycleValues,
}

/// A call of the capture driver, with its arguments. Channels are any numbers.
#[derive(Clone, Copy)]
pub enum Call {
    /// `Icu_Init`
    Init,
    /// `Icu_DeInit`
    DeInit,
    /// A call that has the channel of this number as its key.
    Channel(u32, ChannelCall),
}

impl Call {
    /// The service that is called.
    pub fn service(self) -> Service
        ensures { result ≡ spec.service_of self }
    {
        match self {
            Call::Init => Service::IcuInit,
            Call::DeInit => Service::IcuDeInit,
            Call::Channel(_, call) => call.service(),
        }
    }

    /// The class of the call: `Icu_Init` and `Icu_DeInit` are alone in their module, and any other has its channel as
    /// its key.
    pub fn class(self) -> Class
        ensures { result ≡ classes.class_of self }
    {
        match self {
            Call::Init | Call::DeInit => Class {
                kind: Kind::Exclusive,
                module: ModuleName::Icu,
                key: None,
            },
            Call::Channel(number, _) => Class {
                kind: Kind::Keyed,
                module: ModuleName::Icu,
                key: Some(Key {
                    kind: KeyKind::Channel,
                    number,
                }),
            },
        }
    }
}

impl ChannelCall {
    fn service(self) -> Service
        ensures { result ≡ spec.channel_service self }
    {
        match self {
            ChannelCall::SetActivationCondition(_) => Service::IcuSetActivationCondition,
            ChannelCall::EnableNotification => Service::IcuEnableNotification,
            ChannelCall::DisableNotification => Service::IcuDisableNotification,
            ChannelCall::GetInputState => Service::IcuGetInputState,
            ChannelCall::EnableEdgeDetection => Service::IcuEnableEdgeDetection,
            ChannelCall::DisableEdgeDetection => Service::IcuDisableEdgeDetection,
            ChannelCall::ResetEdgeCount => Service::IcuResetEdgeCount,
            ChannelCall::EnableEdgeCount => Service::IcuEnableEdgeCount,
            ChannelCall::DisableEdgeCount => Service::IcuDisableEdgeCount,
            ChannelCall::GetEdgeNumbers => Service::IcuGetEdgeNumbers,
            ChannelCall::StartTimestamp(..) => Service::IcuStartTimestamp,
            ChannelCall::StopTimestamp => Service::IcuStopTimestamp,
            ChannelCall::GetTimestampIndex => Service::IcuGetTimestampIndex,
            ChannelCall::StartSignalMeasurement => Service::IcuStartSignalMeasurement,
            ChannelCall::StopSignalMeasurement => Service::IcuStopSignalMeasurement,
            ChannelCall::GetTimeElapsed => Service::IcuGetTimeElapsed,
            ChannelCall::GetDutyCycleValues => Service::IcuGetDutyCycleValues,
        }
    }
}

ghost use Rattle.std.specs.Prelude.{◌≡◌};
ghost use Rattle.module_machines.specs.gpt.Checks as spec;
ghost use Rattle.module_machines.specs.gpt.Classes as classes;

use mcal_base::{ModuleName, Service};
use run_model::{Class, Key, KeyKind, Kind};

/// `Gpt_ModeType`.
#[derive(Clone, Copy)]
pub enum GptMode {
    /// `GPT_MODE_NORMAL`
    Normal,
    /// `GPT_MODE_SLEEP`
    Sleep,
}

/// A change of a channel's switches.
#[derive(Clone, Copy)]
pub enum Change {
    /// `Gpt_EnableNotification` or `Gpt_DisableNotification`
    Notification(bool),
    /// `Gpt_EnableWakeup` or `Gpt_DisableWakeup`
    Wakeup(bool),
    /// `Gpt_CheckWakeup`, which takes the wakeup mark.
    Check,
}

/// What is asked of a channel. Values are any numbers.
#[derive(Clone, Copy)]
pub enum ChannelCall {
    /// `Gpt_GetTimeElapsed`
    GetTimeElapsed,
    /// `Gpt_GetTimeRemaining`
    GetTimeRemaining,
    /// `Gpt_StartTimer` with a value.
    StartTimer(u32),
    /// `Gpt_StopTimer`
    StopTimer,
    /// A change of its switches.
    Change(Change),
}

/// A call of the timer driver, with its arguments. Channels are any numbers.
#[derive(Clone, Copy)]
pub enum Call {
    /// `Gpt_Init`
    Init,
    /// `Gpt_DeInit`
    DeInit,
    /// `Gpt_SetMode` to a mode; `None` is no mode.
    SetMode(Option<GptMode>),
    /// A call about the channel of this number, or about its wakeup source.
    Channel(u32, ChannelCall),
}

impl Call {
    /// The service that is called.
    pub fn service(self) -> Service
        ensures { result ≡ spec.service_of self }
    {
        match self {
            Call::Init => Service::GptInit,
            Call::DeInit => Service::GptDeInit,
            Call::SetMode(_) => Service::GptSetMode,
            Call::Channel(_, call) => call.service(),
        }
    }

    /// The class of the call: one about a channel has that channel as its key, and any other is alone in its module.
    pub fn class(self) -> Class
        ensures { result ≡ classes.class_of self }
    {
        match self {
            Call::Init | Call::DeInit | Call::SetMode(_) => Class {
                kind: Kind::Exclusive,
                module: ModuleName::Gpt,
                key: None,
            },
            Call::Channel(number, _) => Class {
                kind: Kind::Keyed,
                module: ModuleName::Gpt,
                key: Some(Key {
                    kind: KeyKind::Channel,
                    number,
                }),
            },
        }
    }
}

impl ChannelCall {
    fn service(self) -> Service
        ensures { result ≡ spec.channel_service self }
    {
        match self {
            ChannelCall::GetTimeElapsed => Service::GptGetTimeElapsed,
            ChannelCall::GetTimeRemaining => Service::GptGetTimeRemaining,
            ChannelCall::StartTimer(_) => Service::GptStartTimer,
            ChannelCall::StopTimer => Service::GptStopTimer,
            ChannelCall::Change(Change::Notification(true)) => Service::GptEnableNotification,
            ChannelCall::Change(Change::Notification(false)) => Service::GptDisableNotification,
            ChannelCall::Change(Change::Wakeup(true)) => Service::GptEnableWakeup,
            ChannelCall::Change(Change::Wakeup(false)) => Service::GptDisableWakeup,
            ChannelCall::Change(Change::Check) => Service::GptCheckWakeup,
        }
    }
}

ghost use Rattle.std.specs.Prelude.{◌≡◌};
ghost use Rattle.module_machines.specs.pwm.Classes as classes;
ghost use Rattle.module_machines.specs.pwm.Checks as spec;

use mcal_base::{ModuleName, Service};
use run_model::{Class, Key, KeyKind, Kind};

/// `Pwm_EdgeNotificationType`: which changes of the level are notified.
#[derive(Clone, Copy)]
pub enum PwmEdge {
    /// `PWM_RISING_EDGE`
    Rising,
    /// `PWM_FALLING_EDGE`
    Falling,
    /// `PWM_BOTH_EDGES`
    Both,
}

/// What is asked of a channel. Periods and duties are any numbers.
#[derive(Clone, Copy)]
pub enum ChannelCall {
    /// `Pwm_SetDutyCycle` with a duty.
    SetDutyCycle(u32),
    /// `Pwm_SetPeriodAndDuty` with a period and a duty.
    SetPeriodAndDuty(u32, u32),
    /// `Pwm_SetOutputToIdle`
    SetOutputToIdle,
    /// `Pwm_EnableNotification` of such changes.
    EnableNotification(PwmEdge),
    /// `Pwm_DisableNotification`
    DisableNotification,
}

/// A call of the pulse driver, with its arguments. Channels are any numbers.
#[derive(Clone, Copy)]
pub enum Call {
    /// `Pwm_Init`
    Init,
    /// `Pwm_DeInit`
    DeInit,
    /// `Pwm_GetOutputState` of the channel of this number.
    GetOutputState(u32),
    /// A call that has the channel of this number as its key.
    Channel(u32, ChannelCall),
}

impl Call {
    /// The service that is called.
    pub fn service(self) -> Service
        ensures { result ≡ spec.service_of self }
    {
        match self {
            Call::Init => Service::PwmInit,
            Call::DeInit => Service::PwmDeInit,
            Call::GetOutputState(_) => Service::PwmGetOutputState,
            Call::Channel(_, call) => call.service(),
        }
    }

    /// The class of the call: `Pwm_Init` and `Pwm_DeInit` are alone in their module, `Pwm_GetOutputState` may always
    /// begin, and any other has its channel as its key.
    pub fn class(self) -> Class
        ensures { result ≡ classes.class_of self }
    {
        match self {
            Call::Init | Call::DeInit => Class {
                kind: Kind::Exclusive,
                module: ModuleName::Pwm,
                key: None,
            },
            Call::GetOutputState(_) => Class {
                kind: Kind::Query,
                module: ModuleName::Pwm,
                key: None,
            },
            Call::Channel(number, _) => Class {
                kind: Kind::Keyed,
                module: ModuleName::Pwm,
                key: Some(Key {
                    kind: KeyKind::Channel,
                    number,
                }),
            },
        }
    }
}

impl ChannelCall {
    fn service(self) -> Service
        ensures { result ≡ spec.channel_service self }
    {
        match self {
            ChannelCall::SetDutyCycle(_) => Service::PwmSetDutyCycle,
            ChannelCall::SetPeriodAndDuty(..) => Service::PwmSetPeriodAndDuty,
            ChannelCall::SetOutputToIdle => Service::PwmSetOutputToIdle,
            ChannelCall::EnableNotification(_) => Service::PwmEnableNotification,
            ChannelCall::DisableNotification => Service::PwmDisableNotification,
        }
    }
}

ghost use Rattle.std.specs.Prelude.{◌≡◌};
ghost use Rattle.module_machines.specs.port.Classes as classes;
ghost use Rattle.module_machines.specs.port.Checks as spec;

use mcal_base::{ModuleName, PortPinDirection, PortPinMode, Service};
use run_model::{Class, Key, KeyKind, Kind};

/// What is asked of a pin.
#[derive(Clone, Copy)]
pub enum PinCall {
    /// `Port_SetPinDirection` to a direction.
    SetPinDirection(PortPinDirection),
    /// `Port_SetPinMode` to a mode; `None` is no mode.
    SetPinMode(Option<PortPinMode>),
}

/// A call of the driver, with its arguments. Pins are any numbers.
#[derive(Clone, Copy)]
pub enum Call {
    /// `Port_Init`
    Init,
    /// `Port_RefreshPortDirection`
    RefreshPortDirection,
    /// A call about the pin of this number.
    Pin(u32, PinCall),
}

impl Call {
    /// The service that is called.
    pub fn service(self) -> Service
        ensures { result ≡ spec.service_of self }
    {
        match self {
            Call::Init => Service::PortInit,
            Call::RefreshPortDirection => Service::PortRefreshPortDirection,
            Call::Pin(_, PinCall::SetPinDirection(_)) => Service::PortSetPinDirection,
            Call::Pin(_, PinCall::SetPinMode(_)) => Service::PortSetPinMode,
        }
    }

    /// The class of the call: one about a pin has that pin as its key, and any other is alone in its module.
    pub fn class(self) -> Class
        ensures { result ≡ classes.class_of self }
    {
        match self {
            Call::Init | Call::RefreshPortDirection => Class {
                kind: Kind::Exclusive,
                module: ModuleName::Port,
                key: None,
            },
            Call::Pin(number, _) => Class {
                kind: Kind::Keyed,
                module: ModuleName::Port,
                key: Some(Key {
                    kind: KeyKind::Pin,
                    number,
                }),
            },
        }
    }
}

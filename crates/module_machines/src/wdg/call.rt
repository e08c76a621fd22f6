ghost use Rattle.std.specs.Prelude.{◌≡◌};
ghost use Rattle.module_machines.specs.wdg.Classes.{class_of};
ghost use Rattle.module_machines.specs.wdg.Checks.{service_of};

use mcal_base::{ModuleName, Service, WdgMode};
use run_model::{Class, Kind};

/// A call of the driver, with its arguments.
#[derive(Clone, Copy)]
pub enum Call {
    /// `Wdg_Init`
    Init,
    /// `Wdg_SetMode` to a mode, none where the argument is none of the three.
    SetMode(Option<WdgMode>),
    /// `Wdg_SetTriggerCondition` with a timeout, any number.
    SetTriggerCondition(u32),
}

impl Call {
    /// The service that is called.
    pub fn service(self) -> Service
        ensures { result ≡ service_of self }
    {
        match self {
            Call::Init => Service::WdgInit,
            Call::SetMode(_) => Service::WdgSetMode,
            Call::SetTriggerCondition(_) => Service::WdgSetTriggerCondition,
        }
    }

    /// The class of the call: each is alone in its module.
    pub fn class(self) -> Class
        ensures { result ≡ class_of self }
    {
        Class {
            kind: Kind::Exclusive,
            module: ModuleName::Wdg,
            key: None,
        }
    }
}

ghost use Rattle.std.specs.Prelude.{◌≡◌};
ghost use Rattle.module_machines.specs.mcu.Classes as classes;
ghost use Rattle.module_machines.specs.mcu.Checks as spec;

use mcal_base::{ModuleName, Service};
use run_model::{Class, Key, KeyKind, Kind};

/// What is asked of the clock.
#[derive(Clone, Copy)]
pub enum ClockCall {
    /// `Mcu_InitClock` with the number of a clock setting.
    InitClock(u32),
    /// `Mcu_DistributePllClock`
    DistributePllClock,
}

/// A call of the driver, with its arguments. Numbers of settings, sections and modes are any numbers.
#[derive(Clone, Copy)]
pub enum Call {
    /// `Mcu_Init`
    Init,
    /// `Mcu_InitRamSection` with the number of a section.
    InitRamSection(u32),
    /// A call about the clock.
    Clock(ClockCall),
    /// `Mcu_GetPllStatus`
    GetPllStatus,
    /// `Mcu_GetResetReason`
    GetResetReason,
    /// `Mcu_PerformReset`
    PerformReset,
    /// `Mcu_SetMode` to a mode.
    SetMode(u32),
}

impl Call {
    /// The service that is called.
    pub fn service(self) -> Service
        ensures { result ≡ spec.service_of self }
    {
        match self {
            Call::Init => Service::McuInit,
            Call::InitRamSection(_) => Service::McuInitRamSection,
            Call::Clock(ClockCall::InitClock(_)) => Service::McuInitClock,
            Call::Clock(ClockCall::DistributePllClock) => Service::McuDistributePllClock,
            Call::GetPllStatus => Service::McuGetPllStatus,
            Call::GetResetReason => Service::McuGetResetReason,
            Call::PerformReset => Service::McuPerformReset,
            Call::SetMode(_) => Service::McuSetMode,
        }
    }

    /// The class of the call: the two that change all of the module are alone in it, those about a section or the
    /// clock have it as their key, and the others may always begin.
    pub fn class(self) -> Class
        ensures { result ≡ classes.class_of self }
    {
        match self {
            Call::Init | Call::SetMode(_) => class_by(Kind::Exclusive, None),
            Call::InitRamSection(number) => keyed(KeyKind::Section, number),
            Call::Clock(_) => keyed(KeyKind::Clock, 0),
            Call::GetPllStatus | Call::GetResetReason | Call::PerformReset => class_by(
                Kind::Query,
                None,
            ),
        }
    }
}

fn keyed(kind: KeyKind, number: u32) -> Class
    ensures { result ≡ classes.keyed kind number }
{
    class_by(Kind::Keyed, Some(Key { kind, number }))
}

fn class_by(kind: Kind, key: Option<Key>) -> Class
    ensures { result ≡ classes.class_by kind key }
{
    Class {
        kind,
        module: ModuleName::Mcu,
        key,
    }
}

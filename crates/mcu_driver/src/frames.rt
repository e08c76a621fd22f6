use crate::asked::Asked;
use crate::driver::McuDriver;
use crate::service::McuBody;
use chip_model::Bus;
use mcal_base::ModuleName;
use module_machines::mcu::Call;
use run_model::Class;
use service_outline::Short;
use std::marker::Model;
use step_runner::Module;

/// A call of the driver, under way.
pub type McuFrame = Short<Asked, McuBody>;

/// The state of the machine of clock, RAM and resets, which contracts alone name.
pub struct McuMachine;

impl Model for McuMachine {
    ghost use Rattle.module_machines.specs.mcu.Machine.{McuState, first_state};

    ghost Value = { McuState };

    ghost view = { λ _. first_state };
}

impl Module for McuDriver {
    type Call = Call;

    type Frame = McuFrame;

    type State = McuMachine;

    ghost use Rattle.service_outline.specs.Services.{services_driver};
    ghost use Rattle.service_outline.specs.laws.Lawful.{services_lawful};
    ghost use Rattle.mcu_driver.specs.laws.Lawful.{mcu, lawful};

    ghost spec = { λ d. services_driver (mcu d) };

    fn frame(&self, call: &Call) -> McuFrame {
        Short::Calling(Asked {
            call: *call,
            driver: *self,
        })
    }

    fn handler(&self, _line: u32) -> Option<McuFrame> {
        None
    }

    fn class(&self, call: &Call) -> Class {
        call.class()
    }

    fn level(&self, _line: u32) -> u32 {
        1
    }

    fn owner(&self, _line: u32) -> ModuleName {
        ModuleName::Mcu
    }

    fn source_use(&self, _bus: &Bus, _channel: u32) -> Option<bool> {
        None
    }

    ghost laws = { λ d fits. services_lawful (mcu d) (lawful d fits) };
}

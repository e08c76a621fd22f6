use crate::asked::Asked;
use crate::driver::PortDriver;
use crate::service::PortBody;
use chip_model::Bus;
use mcal_base::ModuleName;
use module_machines::port::Call;
use run_model::Class;
use service_outline::Short;
use std::marker::Model;
use step_runner::Module;

/// A call of the driver of the pins, under way.
pub type PortFrame = Short<Asked, PortBody>;

/// The state of the machine of the pins, which contracts alone name.
pub struct PortMachine;

impl Model for PortMachine {
    ghost use Rattle.module_machines.specs.port.Machine.{PortState, first_state};

    ghost Value = { PortState };

    ghost view = { λ _. first_state };
}

impl Module for PortDriver {
    type Call = Call;

    type Frame = PortFrame;

    type State = PortMachine;

    ghost use Rattle.service_outline.specs.Services.{services_driver};
    ghost use Rattle.port_driver.specs.laws.Lawful.{port, lawful};

    ghost spec = { λ d. services_driver (port d) };

    fn frame(&self, call: &Call) -> PortFrame {
        Short::Calling(Asked {
            call: *call,
            driver: *self,
        })
    }

    fn handler(&self, _line: u32) -> Option<PortFrame> {
        None
    }

    fn class(&self, call: &Call) -> Class {
        call.class()
    }

    fn level(&self, _line: u32) -> u32 {
        1
    }

    fn owner(&self, _line: u32) -> ModuleName {
        ModuleName::Port
    }

    fn source_use(&self, _bus: &Bus, _channel: u32) -> Option<bool> {
        None
    }

    ghost laws = { λ d fits. lawful d };
}

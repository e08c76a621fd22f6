use crate::asked::Asked;
use crate::driver::PwmDriver;
use crate::service::serve::ServeBody;
use crate::service::{self, PwmBody};
use chip_model::Bus;
use mcal_base::ModuleName;
use module_machines::pwm::Call;
use run_model::Class;
use service_outline::Short;
use std::marker::Model;
use step_runner::Module;

/// A call or a handler of the pulse driver, under way.
pub type PwmFrame = Short<Asked, PwmBody>;

/// The state of the machine of the pulse outputs, which contracts alone name.
pub struct PwmMachine;

impl Model for PwmMachine {
    ghost use Rattle.module_machines.specs.pwm.Machine.{PwmState, first_state};

    ghost Value = { PwmState };

    ghost view = { λ _. first_state };
}

impl Module for PwmDriver {
    type Call = Call;

    type Frame = PwmFrame;

    type State = PwmMachine;

    ghost use Rattle.service_outline.specs.Services.{services_driver};
    ghost use Rattle.pwm_driver.specs.laws.Lawful.{pwm, lawful};

    ghost spec = { λ d. services_driver (pwm d) };

    fn frame(&self, call: &Call) -> PwmFrame {
        Short::Calling(Asked {
            call: *call,
            driver: *self,
        })
    }

    fn handler(&self, line: u32) -> Option<PwmFrame> {
        match self.channel_of_line(line) {
            Some(channel) => {
                let body = ServeBody::Kinds(channel.number);
                Some(Short::Entering(service::serve_body(body)))
            }
            None => None,
        }
    }

    fn serves(&self, line: u32) -> bool {
        self.channel_of_line(line).is_some()
    }

    fn class(&self, call: &Call) -> Class {
        call.class()
    }

    fn level(&self, line: u32) -> u32 {
        match self.channel_of_line(line) {
            Some(channel) => channel.level,
            None => 1,
        }
    }

    fn owner(&self, _line: u32) -> ModuleName {
        ModuleName::Pwm
    }

    fn source_use(&self, _bus: &Bus, _channel: u32) -> Option<bool> {
        None
    }

    ghost laws = { λ d fits. lawful d fits };
}

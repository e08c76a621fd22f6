use crate::asked::Asked;
use crate::driver::GptDriver;
use crate::service::GptBody;
use crate::service::serve::ServeBody;
use chip_model::Bus;
use mcal_base::ModuleName;
use module_machines::gpt::Call;
use run_model::Class;
use service_outline::{Or, Short};
use std::marker::Model;
use step_runner::Module;

/// A call or a handler of the timer driver, under way.
pub type GptFrame = Short<Asked, GptBody>;

/// The state of the timers' machine, which contracts alone name.
pub struct GptMachine;

impl Model for GptMachine {
    ghost use Rattle.module_machines.specs.gpt.Machine.{GptState, first_state};

    ghost Value = { GptState };

    ghost view = { λ _. first_state };
}

impl Module for GptDriver {
    type Call = Call;

    type Frame = GptFrame;

    type State = GptMachine;

    ghost use Rattle.service_outline.specs.ShortServices.{driver_of};
    ghost use Rattle.service_outline.specs.laws.ShortServices.{short_lawful};
    ghost use Rattle.gpt_driver.specs.laws.Lawful.{gpt, lawful};

    ghost spec = { λ d. driver_of (gpt d) };

    fn frame(&self, call: &Call) -> GptFrame {
        Short::Calling(Asked {
            call: *call,
            driver: *self,
        })
    }

    fn handler(&self, line: u32) -> Option<GptFrame> {
        match self.channel(line) {
            Some(channel) => {
                let body = ServeBody::Look(channel.number);
                Some(Short::Entering(Or::Second(Or::Second(body))))
            }
            None => None,
        }
    }

    fn serves(&self, line: u32) -> bool {
        self.channel(line).is_some()
    }

    fn class(&self, call: &Call) -> Class {
        call.class()
    }

    fn level(&self, line: u32) -> u32 {
        match self.channel(line) {
            Some(channel) => channel.level,
            None => 1,
        }
    }

    fn owner(&self, _line: u32) -> ModuleName {
        ModuleName::Gpt
    }

    fn source_use(&self, _bus: &Bus, _channel: u32) -> Option<bool> {
        None
    }

    ghost laws = { λ d fits. short_lawful (gpt d) (lawful d fits) };
}

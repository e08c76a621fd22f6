use crate::asked::Asked;
use crate::driver::IcuDriver;
use crate::handler::handler;
use crate::service::IcuBody;
use chip_model::Bus;
use mcal_base::ModuleName;
use module_machines::icu::Call;
use run_model::Class;
use service_outline::Short;
use std::marker::Model;
use step_runner::Module;

/// A call or a handler of the capture driver, under way.
pub type IcuFrame = Short<Asked, IcuBody>;

/// The state of the machine of the capture channels, which contracts alone name.
pub struct IcuMachine;

impl Model for IcuMachine {
    ghost use Rattle.module_machines.specs.icu.Machine.{IcuState, first_state};

    ghost Value = { IcuState };

    ghost view = { λ _. first_state };
}

impl Module for IcuDriver {
    type Call = Call;

    type Frame = IcuFrame;

    type State = IcuMachine;

    ghost use Rattle.service_outline.specs.ShortServices.{driver_of};
    ghost use Rattle.service_outline.specs.laws.ShortServices.{short_lawful};
    ghost use Rattle.icu_driver.specs.laws.Lawful.{icu, lawful};

    ghost spec = { λ d. driver_of (icu d) };

    fn frame(&self, call: &Call) -> IcuFrame {
        Short::Calling(Asked {
            call: *call,
            driver: *self,
        })
    }

    fn handler(&self, line: u32) -> Option<IcuFrame> {
        match self.channel_of_line(line) {
            Some(channel) => Some(Short::Entering(handler(channel))),
            None => None,
        }
    }

    fn serves(&self, line: u32) -> bool {
        self.channel_of_line(line).is_some()
    }

    fn class(&self, call: &Call) -> Class {
        call.class()
    }

    fn level(&self, line: u32) -> u32 {
        match self.channel_of_line(line) {
            Some(channel) => channel.level,
            None => 1,
        }
    }

    fn owner(&self, _line: u32) -> ModuleName {
        ModuleName::Icu
    }

    fn source_use(&self, _bus: &Bus, _channel: u32) -> Option<bool> {
        None
    }

    ghost laws = { λ d fits. short_lawful (icu d) (lawful d fits) };
}

use crate::asked::Asked;
use crate::driver::WdgDriver;
use crate::service::WdgBody;
use chip_model::Bus;
use mcal_base::ModuleName;
use module_machines::wdg::Call;
use run_model::Class;
use service_outline::Short;
use std::marker::Model;
use step_runner::Module;

/// A call of the driver, under way.
pub type WdgFrame = Short<Asked, WdgBody>;

/// The state of the watchdog's machine, which contracts alone name.
pub struct WdgMachine;

impl Model for WdgMachine {
    ghost use Rattle.module_machines.specs.wdg.Machine.{WdgState, first_state};

    ghost Value = { WdgState };

    ghost view = { λ _. first_state };
}

impl Module for WdgDriver {
    type Call = Call;

    type Frame = WdgFrame;

    type State = WdgMachine;

    ghost use Rattle.service_outline.specs.ShortServices.{driver_of};
    ghost use Rattle.service_outline.specs.laws.ShortServices.{short_lawful};
    ghost use Rattle.wdg_driver.specs.laws.Lawful.{wdg, lawful};

    ghost spec = { λ d. driver_of (wdg d) };

    fn frame(&self, call: &Call) -> WdgFrame {
        Short::Calling(Asked {
            call: *call,
            driver: *self,
        })
    }

    fn handler(&self, _line: u32) -> Option<WdgFrame> {
        None
    }

    fn class(&self, call: &Call) -> Class {
        call.class()
    }

    fn level(&self, _line: u32) -> u32 {
        1
    }

    fn owner(&self, _line: u32) -> ModuleName {
        ModuleName::Wdg
    }

    fn source_use(&self, _bus: &Bus, _channel: u32) -> Option<bool> {
        None
    }

    ghost laws = { λ d fits. short_lawful (wdg d) (lawful d fits) };
}

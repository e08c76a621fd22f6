ghost use Rattle.std.specs.Prelude.{◌≡◌, ℕ, ◌≤◌, Bool, true, List};
ghost use Rattle.chip_model.specs.Chip.{Chip};
ghost use Rattle.mcal_base.specs.declared.directive.Request.{Request};
ghost use Rattle.mcal_base.specs.declared.service.Service.{Service};
ghost use Rattle.run_model.specs.Frame.{Origin, Called, Entered, Open};
ghost use Rattle.run_model.specs.World.{World};

use mcal_base::{Request, Service};
use step_runner::Module;

/// A driver whose calls the requests of a script ask for.
pub trait Caller: Module + Drop {
    /// Whether a service is one of the driver's.
    ghost has_service: { Self → Service → Bool };

    /// The call that a request of such a service asks for.
    ghost call_of: { Self → Request → Self.Call };

    /// Whether a service is one of the driver's.
    fn has(&self, service: Service) -> bool
        ensures { result ≡ has_service self.now service };

    /// The call that a request of one of the driver's services asks for.
    fn call(&self, request: &Request) -> Self::Call
        requires has { has_service self.now request.now.service ≡ true }
        ensures call { result ≡ call_of self.now request.now }
        ensures can { (Self.spec self.now).can_call result };

    /// The most steps of a call, at most 66,656.
    fn call_steps(&self, call: &Self::Call) -> u32
        requires fits { (Self.spec self.now).fits }
        requires can { (Self.spec self.now).can_call call.now }
        ensures steps { result ≡ (Self.spec self.now).setting.steps_of (Called call.now) }
        ensures few { result ≤ 66656 };

    /// The most steps of the handler of a line, at most 66,656.
    fn line_steps(&self, line: u32) -> u32
        requires fits { (Self.spec self.now).fits }
        ensures steps { result ≡ (Self.spec self.now).setting.steps_of (Entered line) }
        ensures few { result ≤ 66656 };

    /// A tick of the oscillator is at most 16 peripheral ticks.
    ghost slow: { (m : Self) (chip : Chip) (w : World) (ps : List (Self.Frame × Open Self.Call)) (s : Self.State) →
        (Self.spec m).fits → (Self.spec m).relates chip w ps s → (Self.spec m).setting.machine.rate s ≤ 16 };
}

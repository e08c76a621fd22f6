ghost use Rattle.std.specs.Prelude.{◌≡◌, ◌<◌, ℕ, List, Option, IfSome, is_some};
ghost use Rattle.run_model.specs.Frame.{Open};
ghost use Rattle.run_model.specs.World.{World};
ghost use Rattle.step_runner.specs.Driver.{Driver, IsLawful, AllOutside};

use chip_model::Bus;
use mcal_base::{ModuleName, Routine};
use run_model::Class;

/// A driver: which frames its calls and its lines have, and how they bear one another.
pub trait Module {
    /// A service with its arguments.
    type Call: Drop;

    /// A call or a handler under way.
    type Frame: Routine + Drop;

    /// The state of its machine. Contracts alone name it.
    type State;

    /// What it is to the runner.
    ghost spec: { Self → Driver Self.State Self.Call Self.Frame };

    /// The frame of a call that begins.
    fn frame(&self, call: &Self::Call) -> Self::Frame
        ensures { result ≡ (spec self.now).frame_of call.now };

    /// The frame of a call that begins, made where another frame stands.
    fn frame_into(&self, call: &Self::Call, place: &mut Self::Frame)
        ensures { place.new ≡ (spec self.now).frame_of call.now }
    {
        *place = self.frame(call);
    }

    /// The frame of a line's handler, if a configured object of the module uses the line.
    fn handler(&self, line: u32) -> Option<Self::Frame>
        ensures { result ≡ (spec self.now).handler_of line };

    /// Whether a line has a handler.
    fn serves(&self, line: u32) -> bool
        ensures { result ≡ is_some ((spec self.now).handler_of line) }
    {
        self.handler(line).is_some()
    }

    /// The frame of a line's handler, made where another frame stands. Where the line has none, any frame may stand there.
    fn handler_into(&self, line: u32, place: &mut Self::Frame)
        ensures { IfSome ((spec self.now).handler_of line) (λ frame. place.new ≡ frame) }
    {
        if let Some(frame) = self.handler(line) {
            *place = frame;
        }
    }

    /// The class of a call.
    fn class(&self, call: &Self::Call) -> Class
        ensures { result ≡ (spec self.now).setting.class_of call.now };

    /// The level of a line.
    fn level(&self, line: u32) -> u32
        ensures { result ≡ (spec self.now).setting.level_of line };

    /// The module to which the handler of a line belongs.
    fn owner(&self, line: u32) -> ModuleName
        ensures { result ≡ (spec self.now).setting.owner_of line };

    /// Whether the machine has the source array of a serial channel in use, while the mask is open; none where there is no
    /// such channel.
    fn source_use(&self, bus: &Bus, channel: u32) -> Option<bool>
        ensures there { is_some result ≡ (spec self.now).setting.fills channel }
        ensures few { IfSome result (λ used. channel < 16) }
        ensures used { (w : World) (ps : List (Self.Frame × Open Self.Call)) (s : Self.State) → (spec self.now).fits →
            AllOutside ps → (spec self.now).relates bus.now w ps s →
            IfSome result (λ used. used ≡ (spec self.now).setting.in_use w s channel) };

    /// What it owes.
    ghost laws: { (m : Self) → (spec m).fits → IsLawful (spec m) Self.Frame.move_of Self.Frame.left Self.Frame.gave };
}

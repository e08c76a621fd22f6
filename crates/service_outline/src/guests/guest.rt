ghost use Rattle.std.specs.Prelude.{◌≡◌};
ghost use Rattle.service_outline.specs.guests.Guest as guests;
ghost use Rattle.run_model.specs.Causes.{guarded};
ghost use Rattle.service_outline.specs.guests.Guest.{IsGuest};

use mcal_base::Routine;
use run_model::Class;

/// A guest: which frames its calls have. It has no lines and no state of its own.
pub trait Guest {
    /// A service with its arguments.
    type Call: Drop;

    /// A call under way.
    type Frame: Routine + Drop;

    /// The state of the host's machine. Contracts alone name it.
    type State;

    /// What it is to its host.
    ghost spec: { Self → guests.Guest Self.State Self.Call Self.Frame };

    /// The frame of a call that begins.
    fn frame(&self, call: &Self::Call) -> Self::Frame
        ensures { result ≡ (spec self.now).frame_of call.now };

    /// The class of its calls.
    fn class(&self) -> Class
        ensures { result ≡ guarded (spec self.now).block };

    /// What it owes.
    ghost laws: { (g : Self) → (spec g).fits → IsGuest (spec g) Self.Frame.move_of Self.Frame.left Self.Frame.gave };
}

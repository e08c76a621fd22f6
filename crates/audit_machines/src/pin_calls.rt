ghost use Rattle.std.specs.Prelude.{◌≡◌, ◌<◌};
ghost use Rattle.module_machines.specs.dio.Machine.{does};
ghost use Rattle.run_model.specs.World.{World};
ghost use Rattle.audit_base.specs.Comes.{Gives};
ghost use Rattle.audit_base.specs.Outside.{IsWorld, IsAfter};
ghost use Rattle.audit_base.specs.declared.outside.Outside as kept;
ghost use Rattle.audit_machines.specs.Guest.{States, host_pins, pin_level};

use crate::around_pins::{around, output};
use audit_base::{Both, Outside, Part, Told};
use audit_clock::{Pins, Ports};
use audit_pulses::Pulses;
use module_machines::dio::Call;

/// The modules that have a state, as one: some, the pins, some, the pulse outputs, and some.
pub type Modules<C, T, K, R> = Both<Both<C, Both<Pins, T>>, Both<Both<Pulses, K>, R>>;

/// The level of a pin, of 64.
pub(crate) fn pin_of<C: Part, T: Part, K: Part, R: Part>(
    modules: &Modules<C, T, K, R>,
    outside: &Outside,
    outputs: &[Option<u32>; 8],
    pin: u32,
) -> bool
    requires { pin < 64 }
    ensures { (w : World) (s : States C.State T.State K.State R.State) → IsWorld outside.now w → ⟦<Modules<C, T, K, R> as Part>⟧.stands modules.now s →
        result ≡ pin_level modules.now.second.first.first.driver outputs.now w s pin }
{
    let seen = output(&modules.second.first.first, outputs, outside.time, pin);
    let outer = outside.level(pin);
    modules.first.second.first.level(pin, outer, seen)
}

/// A call of channels and ports acts on the pins.
pub(crate) fn act_on<C: Part, T: Part, K: Part, R: Part>(
    modules: &mut Modules<C, T, K, R>,
    outside: &Outside,
    ports: &Ports,
    outputs: &[Option<u32>; 8],
    call: Call,
) -> Told
    requires fits { ⟦<Modules<C, T, K, R> as Part>⟧.fits modules.old outside.now }
    ensures gives { (w : World) (s : States C.State T.State K.State R.State) → IsWorld outside.now w → ⟦<Modules<C, T, K, R> as Part>⟧.stands modules.old s →
        Gives (⟦<Modules<C, T, K, R> as Part>⟧.stands modules.new) result (does (host_pins modules.old.second.first.first.driver outputs.now) ports.now w s call) }
    ensures fits { (o : kept.Outside) → IsAfter outside.now o → ⟦<Modules<C, T, K, R> as Part>⟧.fits modules.new o }
    ensures table { ⟦<Modules<C, T, K, R> as Part>⟧.table modules.new ≡ ⟦<Modules<C, T, K, R> as Part>⟧.table modules.old }
{
    let around = around(outside, &modules.second.first.first, outputs);
    ports.act(call, &mut modules.first.second.first, &around)
}

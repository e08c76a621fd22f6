ghost use Rattle.std.specs.Prelude.{◌≡◌};
ghost use Rattle.trace_forms.specs.kinds.Holds as spec;

use irq_control::Held;

/// Whether a frame that is held for such a cause may begin later.
pub fn may_begin(cause: Held) -> bool
    ensures { result ≡ spec.may_begin cause }
{
    match cause {
        Held::Idle | Held::Unknown => false,
        _ => true,
    }
}

ghost use Rattle.std.specs.Prelude.{◌≡◌, ◌<◌, ◌&&◌, Some, length, nat_lt, slice_get, true};
ghost use Rattle.std.specs.Bool.{OnTrue};
ghost use Rattle.script_runner.specs.Scripts.{IsScript};
ghost use Rattle.script_runner.specs.Standing as spec;

use mcal_base::{Directive, Order, Reason};

/// The most directives of a run.
const MOST_DIRECTIVES: usize = 1_100_000;

/// Whether an order is one that a run obeys.
fn is_obeyed(order: &Order) -> bool
    ensures { result ≡ spec.is_built order.now }
{
    match order {
        Order::Tick(ticks) => *ticks <= 1_000_000,
        Order::Miso(unit, _) => *unit < 2,
        Order::Reset(Reason::Software) => false,
        _ => true,
    }
}

/// Whether a directive may stand behind a line: its own is higher, and its order is one that a run obeys.
fn may_stand(low: u32, directive: &Directive) -> bool
    ensures { result ≡ (spec.is_built directive.now.order && nat_lt low directive.now.line) }
{
    is_obeyed(&directive.order) && low < directive.line
}

/// The directive at a place.
fn directive_at(directives: &[Directive], at: usize) -> &Directive
    requires { at < length directives.now }
    ensures { slice_get directives.now at ≡ Some result.now }
{
    &directives[at]
}

/// Whether a script may be run: its lines rise, each order is one that a run obeys, and there are no more than an input
/// can have.
pub(crate) fn may_run(script: &[Directive]) -> bool
    ensures may { OnTrue result (IsScript script.now) }
    ensures only { IsScript script.now → result ≡ true }
{
    if script.len() > MOST_DIRECTIVES {
        return false;
    }
    let mut low = 0;
    for place in 0..script.len() {
        let directive = directive_at(script, place);
        if !may_stand(low, directive) {
            return false;
        }
        low = directive.line;
    }
    true
}

ghost use Rattle.std.specs.Prelude.{◌≡◌, IfOk, string_bytes};
ghost use Rattle.bench_sweep.specs.Spoken as spec;

use crate::places::Spot;
use mcal_base::Order;
use std::alloc::{AllocError, Global};

/// A line that asks for a call to its end, where the call is only begun.
#[tactic(auto, using(crate::proofs::Calls::call_behind, crate::proofs::Calls::call_other))]
fn call_text(alloc: Global, asked: &str) -> Result<String, AllocError>
    ensures { IfOk result (λ text. string_bytes text ≡ spec.call_text asked.now) }
{
    match asked.strip_prefix("do") {
        Some(behind) => format!(in alloc; "call{behind}"),
        None => String::from_str(alloc, asked),
    }
}

/// A directive of a flat script as a line of the language, where the line of the file from which it came asks for this.
pub fn directive_text(alloc: Global, order: &Order, asked: &str) -> Result<String, AllocError>
    ensures { IfOk result (λ text. string_bytes text ≡ spec.order_text order.now asked.now) }
{
    match order {
        Order::Call(..) => call_text(alloc, asked),
        Order::Enter(line) => format!(in alloc; "enter {line}"),
        Order::Run(steps) => format!(in alloc; "run {steps}"),
        Order::Finish => String::from_str(alloc, "finish"),
        _ => String::from_str(alloc, asked),
    }
}

/// Where something stands by the directive of a line, which makes so many steps, with the last move before it.
pub fn spot_text(
    alloc: Global,
    line: u32,
    spot: Spot,
    steps: u32,
    last: &str,
) -> Result<String, AllocError>
    ensures { IfOk result (λ text. string_bytes text ≡ spec.spot_text line spot steps last.now) }
{
    match spot {
        Spot::Before => format!(in alloc; "before line {line}"),
        Spot::Begun => format!(in alloc; "line {line} begun"),
        Spot::Step(made) => format!(in alloc; "line {line} step {made} of {steps} ({last})"),
        Spot::Behind => format!(in alloc; "behind line {line}"),
    }
}

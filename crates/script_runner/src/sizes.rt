//! How much room a run needs.

ghost use Rattle.std.specs.Prelude.{◌≡◌, ◌≤◌, ◌*◌, ◌+◌, [], length, IfOk, Some, true};
ghost use Rattle.run_model.specs.Entry.{words_of_order};
ghost use Rattle.run_model.specs.Script.{beginnings_of};
ghost use Rattle.script_runner.specs.Runs.{room_for};
ghost use Rattle.script_runner.specs.Scripts as spec;
ghost use Rattle.script_runner.specs.Scripts.{AllOffered, is_offered, script_bound};
ghost use Rattle.script_runner.specs.Standing.{bounds_of, words_by};

use crate::caller::Caller;
use mcal_base::{Directive, NoMemory, Order};
use run_model::Journal;
use std::alloc::Global;

/// The most steps of the frame that an order may begin, 0 where it begins none.
fn steps_by<M: Caller>(driver: &M, order: &Order) -> u32
    requires fits { (M.spec driver.now).fits }
    requires offered { is_offered (M.has_service driver.now) order.now ≡ true }
    ensures bound { let d = M.spec driver.now in let calls = M.call_of driver.now in
        result ≡ bounds_of d.setting (beginnings_of calls (Some order.now)) }
    ensures few { result ≤ 66656 }
{
    match order {
        Order::Call(_, request) | Order::Do(_, request) => {
            driver.call_steps(&driver.call(request))
        }
        Order::Enter(line) | Order::Serve(line) => driver.line_steps(*line),
        _ => 0,
    }
}

/// How many words an order brings, at most 64: those that it gives to come in, or that fill an array.
pub(crate) fn words_by(order: &Order) -> usize
    ensures given { result ≡ words_by order.now }
    ensures few { result ≤ 64 }
{
    match order {
        Order::Miso(_, words) | Order::Fill(_, words) => words.len(),
        _ => 0,
    }
}

/// The words that a script of at most 1,100,000 directives brings: those that come in on serial units, and those of fills.
pub fn words_given(script: &[Directive]) -> usize
    requires { length script.now ≤ 1100000 }
    ensures given { result ≡ spec.words_given script.now }
    ensures few { result ≤ 64 * length script.now }
{
    let mut given = 0;
    for directive in script {
        given += words_by(&directive.order);
    }
    given
}

/// How much a script asks for.
#[derive(Clone, Copy)]
pub(crate) struct Sizes {
    /// The most steps of all frames that it may begin.
    pub(crate) steps: u64,
    /// The words that it brings.
    pub(crate) words: usize,
}

/// How much a script asks for, in one walk over it.
pub(crate) fn sizes_of<M: Caller>(driver: &M, script: &[Directive]) -> Sizes
    requires fits { (M.spec driver.now).fits }
    requires offered { AllOffered (M.has_service driver.now) script.now }
    requires few { length script.now ≤ 1100000 }
    ensures steps { result.steps ≡ script_bound (M.spec driver.now).setting (M.call_of driver.now) script.now }
    ensures few_steps { result.steps ≤ 66656 * length script.now }
    ensures words { result.words ≡ spec.words_given script.now }
    ensures few_words { result.words ≤ 64 * length script.now }
{
    let mut steps = 0;
    let mut words = 0;
    for directive in script {
        steps += u64::from(steps_by(driver, &directive.order));
        words += words_by(&directive.order);
    }
    Sizes { steps, words }
}

/// A journal with room for a run of so many directives, of at most so many steps: every second of them has a wait at most.
pub(crate) fn journal_for(alloc: Global, most: u32, directives: usize) -> Result<Journal, NoMemory>
    requires { directives ≤ 1100000 }
    ensures { IfOk result (λ j. j ≡ record { entries = []; room = room_for most directives; words = []; words_room = 64 * directives }) }
{
    match Journal::with_room(
        alloc,
        most as usize + (most as usize + 1) / 2 + 3 * directives,
        64 * directives,
    ) {
        Ok(journal) => Ok(journal),
        Err(_) => Err(NoMemory),
    }
}

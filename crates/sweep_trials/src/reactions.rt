ghost use Rattle.std.specs.Prelude.{◌≡◌, ◌<◌, Some, length, slice_get, MatchOption};
ghost use Rattle.std.specs.List.{position};
ghost use Rattle.std.specs.Option.{IfSome};
ghost use Rattle.sweep_trials.specs.Follows as spec;

use crate::seen::StepSeen;
use mcal_base::{Directive, Notice, Order};

/// A call that is made right behind a notice, wherever that comes.
#[derive(Drop)]
pub struct Reaction {
    /// The notice.
    pub notice: Notice,
    /// The call, on the line of the file.
    pub directive: Directive,
}

/// What follows notices, and where in the file what is placed stands: that may come between a notice and its call.
#[derive(Clone, Copy)]
pub struct Following<'a> {
    /// What follows notices. Of several for one notice the first counts.
    pub calls: &'a [Reaction],
    /// The line of `sweep`: what is placed stands below it.
    pub sweep: u32,
    /// The line of `over`: what is placed stands above it.
    pub over: u32,
}

/// What stays the same in all runs of a sweep.
#[derive(Clone, Copy)]
pub struct Bench<'a, R> {
    /// What runs a script.
    pub runs: &'a R,
    /// What follows notices.
    pub following: Following<'a>,
}

/// Whether two notices are the same.
fn is_same(notice: Notice, other: Notice) -> bool
    ensures { result ≡ spec.is_same notice other }
{
    notice.id == other.id && notice.kind.text() == other.kind.text()
}

/// Which call follows a notice, if one does.
pub fn reaction_to(calls: &[Reaction], notice: Notice) -> Option<usize>
    ensures is { result ≡ spec.reaction_to calls.now notice }
    ensures within { IfSome result (λ n. n < length calls.now) }
{
    calls
        .iter()
        .position(|reaction| is_same(reaction.notice, notice))
}

/// The directive of a script that makes a step, by its number from 0, and the call that is to follow what the step gives.
#[derive(Clone, Copy)]
pub(crate) struct Wanted {
    /// The directive.
    pub directive: usize,
    /// Which call.
    pub reaction: usize,
}

/// Which call is to follow what a step of a script with so many directives gives, if one is.
pub(crate) fn call_wanted(calls: &[Reaction], count: usize, step: StepSeen) -> Option<Wanted>
    ensures { MatchOption result (spec.IsQuiet calls.now count step) (λ w. spec.IsWanted calls.now count step w.directive w.reaction) }
{
    let Some(notice) = step.notice else {
        return None;
    };
    let Some(reaction) = reaction_to(calls, notice) else {
        return None;
    };
    if step.line == 0 || count < step.line as usize {
        return None;
    }
    Some(Wanted {
        directive: step.line as usize - 1,
        reaction,
    })
}

/// The call of a number.
pub(crate) fn reaction_at(calls: &[Reaction], number: usize) -> &Reaction
    requires { number < length calls.now }
    ensures { slice_get calls.now number ≡ Some result.now }
{
    &calls[number]
}

/// Whether a call stands on a line.
fn is_call_line(calls: &[Reaction], line: u32) -> bool
    ensures { result ≡ spec.is_call_line calls.now line }
{
    calls.iter().any(|reaction| reaction.directive.line == line)
}

/// Whether an order begins a call.
fn begins_call(order: &Order) -> bool
    ensures { result ≡ spec.begins_call order.now }
{
    matches!(order, Order::Call(..) | Order::Do(..))
}

/// Whether a directive begins the call from a line.
fn is_call_from(directive: &Directive, line: u32) -> bool
    ensures { result ≡ spec.is_call_from line directive.now }
{
    directive.line == line && begins_call(&directive.order)
}

/// Whether the directive at a place begins the call from a line, and follows no other notice.
fn is_free_call(directive: &Directive, at: usize, line: u32, taken: &[usize]) -> bool
    ensures { result ≡ spec.is_free_call line taken.now at directive.now }
{
    is_call_from(directive, line) && !taken.contains(&at)
}

/// The directive at a place.
fn directive_at(directives: &[Directive], at: usize) -> &Directive
    requires { at < length directives.now }
    ensures { slice_get directives.now at ≡ Some result.now }
{
    &directives[at]
}

impl Following<'_> {
    /// Whether something from a line may stand between a notice and what follows it: what is placed, and what follows others.
    fn may_intrude(self, line: u32) -> bool
        ensures { result ≡ spec.may_intrude self.entry line }
    {
        (self.sweep < line && line < self.over) || is_call_line(self.calls, line)
    }

    /// Where the call from a line stands that follows a notice of a directive's last step, unless it follows an earlier one.
    pub fn follower(
        self,
        directives: &[Directive],
        directive: usize,
        line: u32,
        taken: &[usize],
    ) -> Option<usize>
        requires { directive < length directives.now }
        ensures { MatchOption result (spec.StandsAlone self.entry directives.now taken.now directive line) (spec.StandsBehind self.entry directives.now taken.now directive line) }
    {
        for place in directive + 1..directives.len() {
            let found = directive_at(directives, place);
            if is_free_call(found, place, line, taken) {
                return Some(place);
            }
            if !self.may_intrude(found.line) {
                return None;
            }
        }
        None
    }
}

ghost use Rattle.std.specs.Prelude.{Some, true, ◌≡◌, ◌<◌, ◌++◌, ◌∷◌, length, slice_get, vec_len, IfErr, IfOk, MatchOption};
ghost use Rattle.sweep_trials.specs.Counts.{counts, with_step};
ghost use Rattle.sweep_trials.specs.Follows.{AreAllFollowed, IsUnfollowed, StandsAlone, StandsBehind};
ghost use Rattle.sweep_trials.specs.Grown.{IsSeen, with_call_behind};
ghost use Rattle.sweep_trials.specs.Stops.{StopsRun, Unless};
ghost use Rattle.sweep_trials.specs.declared.reactions.Reaction as records;

use crate::reactions::{Bench, Following, Reaction, call_wanted, reaction_at};
use crate::seen::{RunSeen, Runs, StepSeen};
use crate::stop::Stop;
use bench_sweep::{BlockPlace, Cut, Flat, Spot, copy_behind, cut_block, flatten};
use mcal_base::Directive;
use std::alloc::{AllocError, Global};
use std::slice;

/// The most runs of a script in which calls follow notices: one for each of a thousand notices, and the one in which all are
/// followed.
const MOST_RUNS: usize = 1001;

/// The most directives of a run.
const MOST_DIRECTIVES: usize = 1_100_000;

/// A notice that nothing follows yet.
#[derive(Drop)]
struct Unfollowed {
    /// Which directive gives it.
    directive: usize,
    /// With the last of how many of its steps.
    made: u32,
    /// How many steps each directive makes.
    steps: Vec<u32>,
    /// Which call is to follow it.
    reaction: usize,
}

/// Counts a step of the directive of a number, from 1.
#[tactic(auto, using(crate::proofs::Counting::step_there, crate::proofs::Counting::step_past))]
fn count_step(steps: &mut Vec<u32>, number: u32)
    ensures is { steps.new.items ≡ with_step number steps.old.items }
    ensures length { vec_len steps.new ≡ vec_len steps.old }
{
    if 0 < number {
        let place = number as usize - 1;
        if place < steps.len() {
            steps[place] = steps[place].saturating_add(1);
        }
    }
}

/// How many steps each of so many directives made.
#[tactic(auto, using(crate::proofs::Counting::counts_more, crate::proofs::Counting::none_counted))]
pub(crate) fn steps_of(
    alloc: Global,
    count: usize,
    seen: &[StepSeen],
) -> Result<Vec<u32>, AllocError>
    ensures is { IfOk result (λ steps. steps.items ≡ counts count seen.now) }
    ensures length { IfOk result (λ steps. vec_len steps ≡ count) }
{
    let mut steps = vec![in alloc; 0u32; count]?;
    for step in seen {
        count_step(&mut steps, step.line);
    }
    Ok(steps)
}

/// The number at a place.
fn number_at(numbers: &[u32], at: usize) -> u32
    requires { at < length numbers.now }
    ensures { slice_get numbers.now at ≡ Some result }
{
    numbers[at]
}

/// Where the call from a line stands that follows the notice of a directive's step, unless it follows an earlier one. More steps
/// of the directive are to come, unless it has made them all.
fn own_call(
    following: Following<'_>,
    directives: &[Directive],
    steps: (u32, u32),
    directive: usize,
    line: u32,
    taken: &[usize],
) -> Option<usize>
    requires { directive < length directives.now }
    ensures { MatchOption result (steps.0 ≡ steps.1 → StandsAlone following.entry directives.now taken.now directive line) (λ at. (steps.0 ≡ steps.1) × StandsBehind following.entry directives.now taken.now directive line at) }
{
    let (made, all) = steps;
    if made == all {
        following.follower(directives, directive, line, taken)
    } else {
        None
    }
}

/// The first notice of a run that a call is to follow and doesn't yet.
fn first_unfollowed(
    alloc: Global,
    following: Following<'_>,
    directives: &[Directive],
    seen: &[StepSeen],
) -> Result<Option<Unfollowed>, AllocError>
    ensures { IfOk result (λ found. MatchOption found (AreAllFollowed following.entry directives.now seen.now) (λ f. IsUnfollowed following.entry directives.now seen.now f.directive f.made f.reaction f.steps.items)) }
{
    let count = directives.len();
    let steps = steps_of(alloc, count, seen)?;
    let mut made = steps_of(alloc, count, &[])?;
    let mut taken = Vec::new(alloc);
    for step in seen {
        count_step(&mut made, step.line);
        if let Some(found) = call_wanted(following.calls, count, *step) {
            let line = reaction_at(following.calls, found.reaction).directive.line;
            let so_far = number_at(&made, found.directive);
            let all = number_at(&steps, found.directive);
            match own_call(
                following,
                directives,
                (so_far, all),
                found.directive,
                line,
                &taken,
            ) {
                Some(at) => taken.push(at)?,
                None => {
                    return Ok(Some(Unfollowed {
                        directive: found.directive,
                        made: so_far,
                        steps,
                        reaction: found.reaction,
                    }));
                }
            }
        }
    }
    Ok(None)
}

/// A cut block with a call between what runs up to the place and what runs from there on.
fn joined(cut: Cut, call: &Directive) -> Result<Vec<Directive>, AllocError>
    ensures { IfOk result (λ all. all.items ≡ cut.up.items ++ call.now ∷ cut.on.items) }
{
    let Cut { up, on } = cut;
    let mut all = up;
    copy_behind(&mut all, slice::from_ref(call))?;
    copy_behind(&mut all, &on)?;
    Ok(all)
}

/// Directives with the call that follows a notice, put behind it.
fn put_call(
    alloc: Global,
    calls: &[Reaction],
    directives: &[Directive],
    found: &Unfollowed,
) -> Result<Vec<Directive>, AllocError>
    requires same { vec_len found.now.steps ≡ length directives.now }
    requires there { found.now.directive < length directives.now }
    requires reaction { found.now.reaction < length calls.now }
    ensures { IfOk result (λ all. (r : records.Reaction) → slice_get calls.now found.now.reaction ≡ Some r → all.items ≡ with_call_behind directives.now found.now.steps.items found.now.directive found.now.made r.directive) }
{
    let reaction = reaction_at(calls, found.reaction);
    let place = BlockPlace {
        directive: found.directive,
        spot: Spot::Step(found.made),
    };
    let cut = cut_block(alloc, directives, &found.steps, place)?;
    joined(cut, &reaction.directive)
}

/// A run in which each notice is followed by its call.
#[derive(Drop)]
pub struct Followed {
    /// The directives, on the lines of the file.
    pub directives: Vec<Directive>,
    /// Their flat script.
    pub flat: Flat,
    /// What was seen of its run.
    pub seen: RunSeen,
}

/// Runs directives, and puts behind each notice the call that follows it: one after another, each by a run.
#[tactic(auto, using(crate::proofs::Grown::lines_count))]
pub fn run_followed<R: Runs>(
    alloc: Global,
    bench: &Bench<'_, R>,
    start: Vec<Directive>,
    named: bool,
) -> Result<Followed, Stop>
    ensures seen { IfOk result (λ found. IsSeen (R.is_seen bench.now.runs.now) bench.now.following start.items found) }
    ensures named { named ≡ true → IfOk result (λ found. vec_len found.seen.moves ≡ vec_len found.seen.steps) }
    ensures stopped { IfErr result (Unless (StopsRun (R.is_seen bench.now.runs.now) (R.at_limit bench.now.runs.now) bench.now.following start.items)) }
{
    let runs = bench.runs;
    let following = bench.following;
    let mut directives = start;
    for put in 0..MOST_RUNS {
        if directives.len() > MOST_DIRECTIVES {
            return Err(Stop::TooManyDirectives);
        }
        let flat = flatten(alloc, &directives)?;
        let seen = runs.run(alloc, &flat.script, named)?;
        let Some(found) = first_unfollowed(alloc, following, &directives, &seen.steps)? else {
            return Ok(Followed {
                directives,
                flat,
                seen,
            });
        };
        let next = put_call(alloc, following.calls, &directives, &found)?;
        directives = next;
    }
    Err(Stop::TooManyNotices)
}

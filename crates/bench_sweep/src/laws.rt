ghost use Rattle.std.specs.Prelude.{◌≡◌, ◌==◌, ◌≤◌, ℕ, List, ◌++◌, Some, length, count_by, sum_by, slice_get};
ghost use Rattle.mcal_base.specs.declared.directive.Directive.{Directive};
ghost use Rattle.bench_sweep.specs.Groups.{count_with, numbers_in};
ghost use Rattle.bench_sweep.specs.Outcomes.{AreDifferent, Tells, number_of, telling, with_outcome};
ghost use Rattle.bench_sweep.specs.Placed.{block_on, block_up};
ghost use Rattle.bench_sweep.specs.Places.{at};
ghost use Rattle.bench_sweep.specs.declared.groups.Settled.{Settled};
ghost use Rattle.bench_sweep.specs.declared.outcomes.Outcome.{Outcome};
ghost use Rattle.bench_sweep.specs.declared.places.Spot.TheVariants.{Before, Behind};

/// A block that is cut before or behind one of its directives loses nothing, and gains nothing.
pub fn cut_between_keeps_all()
    ensures before { (block : List Directive) (steps : List ℕ) (i : ℕ) (d : Directive) (n : ℕ) → slice_get block i ≡ Some d → slice_get steps i ≡ Some n →
        block_up block (at i Before) ++ block_on block steps (at i Before) ≡ block }
    ensures behind { (block : List Directive) (steps : List ℕ) (i : ℕ) (d : Directive) (n : ℕ) → slice_get block i ≡ Some d → slice_get steps i ≡ Some n →
        block_up block (at i Behind) ++ block_on block steps (at i Behind) ≡ block }
{}

/// No outcome is counted twice, and the places of all outcomes are all places.
pub fn counts_sum_up()
    ensures once { (settled : List Settled) (outcome : ℕ) → count_by (λ n. n == outcome) (numbers_in settled) ≤ 1 }
    ensures sum { (settled : List Settled) → sum_by (λ n. count_with n settled) (numbers_in settled) ≡ length settled }
{}

/// Outcomes of different numbers tell different things, also with one more. That has a number whose outcome tells the same,
/// and the others keep theirs.
pub fn outcomes_differ()
    ensures differ { (outcome : Outcome) (all : List Outcome) → AreDifferent all → AreDifferent (with_outcome outcome all) }
    ensures tells { (outcome : Outcome) (all : List Outcome) → Tells (with_outcome outcome all) (number_of outcome all) (telling outcome) }
    ensures kept { (outcome : Outcome) (all : List Outcome) (n : ℕ) (a : Outcome) → slice_get all n ≡ Some a → slice_get (with_outcome outcome all) n ≡ Some a }
{}

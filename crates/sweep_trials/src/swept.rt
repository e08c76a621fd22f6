ghost use Rattle.std.specs.Prelude.{◌≡◌, ◌<◌, ◌≤◌, ◌+◌, ◌-◌, ◌^◌, ◌++◌, [], ◌∷◌, None, count_by, false, is_some, map, min, take, vec_len, length, IfErr, IfOk, OnOk};
ghost use Rattle.bench_sweep.specs.Groups.{settled};
ghost use Rattle.bench_sweep.specs.Outcomes.{AreDifferent};
ghost use Rattle.sweep_trials.specs.Pairs.{AreSweptPairs, IsSweptTwice, told_from};
ghost use Rattle.sweep_trials.specs.Standings.{has_neither};
ghost use Rattle.sweep_trials.specs.Stops.{AreFew, HaveSteps, StopsOnce, StopsTrying, StopsTwice, Unless, most_in_all, steps_of};
ghost use Rattle.sweep_trials.specs.Trials.{AreKept, IsSweptOnce, once_from, part_end};
ghost use Rattle.sweep_trials.specs.declared.stop.Stop.TheVariants as stops;

use crate::opened::Opened;
use crate::progress::Progress;
use crate::seen::Runs;
use crate::stop::Stop;
use crate::sweeping::{Moment, Sweep};
use crate::trials::{Ends, Trials, Wish, end_of};
use bench_sweep::{Outcome, Settled, Tried, settle};
use std::alloc::{AllocError, Global};

/// The most steps of all runs of a sweep.
const MOST_IN_ALL: usize = 100_000_000;

/// What came of a sweep.
#[derive(Drop)]
pub struct Swept {
    /// All outcomes that there were.
    pub outcomes: Vec<Outcome>,
    /// The moments that are told of.
    pub moments: Vec<Moment>,
    /// What came of each.
    pub settled: Vec<Settled>,
    /// How many moments there are where one of two waits, which are not told of.
    pub skipped: usize,
    /// The number of the outcome at the first place.
    pub before: usize,
    /// The number of the outcome at the last place.
    pub behind: usize,
}

impl Swept {
    /// Whether some place has an outcome that is neither as before nor as behind.
    pub fn has_neither(&self) -> bool
        ensures { result ≡ has_neither self.now }
    {
        let before = self.before;
        let behind = self.behind;
        self.settled
            .iter()
            .any(|found| found.outcome != before && found.outcome != behind)
    }
}

/// What came of the first of the places that were tried, at most so many.
fn settled_of(alloc: Global, tried: &[Tried], most: usize) -> Result<Vec<Settled>, AllocError>
    requires { length tried.now < 4294967296 }
    ensures { IfOk result (λ all. all.items ≡ take most (settled tried.now)) }
{
    let mut all = settle(alloc, tried)?;
    all.truncate(most);
    Ok(all)
}

/// The moments of so many places from one on, at most so many, where something is placed once.
#[tactic(auto, using(crate::proofs::Trying::once_more))]
fn moments_of(
    alloc: Global,
    first: usize,
    count: usize,
    most: usize,
) -> Result<Vec<Moment>, AllocError>
    requires { first + count < 2 ^ 64 }
    ensures { IfOk result (λ all. all.items ≡ take most (once_from first count)) }
{
    let mut all = Vec::new(alloc);
    for place in 0..count {
        all.push(Moment {
            number: first + place,
            first: first + place,
            second: None,
        })?;
    }
    all.truncate(most);
    Ok(all)
}

/// Where a sweep is to stop that stops at the first outcome that is neither as before nor as behind.
fn stops_of(wish: Wish, ends: Ends) -> Option<Ends>
    ensures { wish.first ≡ false → result ≡ None }
{
    if wish.first { Some(ends) } else { None }
}

/// Tries what is placed once, at the places from one up to another.
fn sweep_once<R: Runs, P: Progress>(
    alloc: Global,
    sweep: &Sweep<'_, R>,
    opened: &Opened,
    wish: Wish,
    first: usize,
    end: usize,
    trials: Trials,
    progress: &mut P,
) -> Result<Swept, Stop>
    requires differ { AreDifferent trials.outcomes.items }
    requires first { first ≤ vec_len opened.now.all }
    requires end { end ≤ vec_len opened.now.all }
    requires few { vec_len opened.now.all ≤ 100000000 }
    ensures swept { IfOk result (λ s. IsSweptOnce (R.is_seen sweep.now.bench.runs.now) sweep.now.bench.following sweep.now.parts.swept.now sweep.now.parts.behind.now opened.now first end wish.first s) }
    ensures stopped { IfErr result (Unless (StopsTrying (R.is_seen sweep.now.bench.runs.now) (R.at_limit sweep.now.bench.runs.now) sweep.now.bench.following sweep.now.parts.swept.now sweep.now.parts.behind.now opened.now first end)) }
{
    let mut trials = trials;
    let ends = trials.try_ends(alloc, sweep, opened)?;
    let stops = stops_of(wish, ends);
    let tried = trials.try_part(
        alloc,
        sweep,
        opened,
        sweep.parts.swept,
        first,
        end,
        stops,
        progress,
    )?;
    let most = end.saturating_sub(first);
    let settled = settled_of(alloc, &tried, most)?;
    let moments = moments_of(alloc, first, most, settled.len())?;
    Ok(Swept {
        outcomes: trials.outcomes,
        moments,
        settled,
        skipped: 0,
        before: ends.before,
        behind: ends.behind,
    })
}

/// Tries what is placed once, at the places of a part.
fn sweep_places<R: Runs, P: Progress>(
    alloc: Global,
    sweep: &Sweep<'_, R>,
    opened: &Opened,
    wish: Wish,
    trials: Trials,
    progress: &mut P,
) -> Result<Swept, Stop>
    requires differ { AreDifferent trials.outcomes.items }
    requires few { steps_of opened.now ≤ most_in_all }
    ensures swept { IfOk result (λ s. IsSweptOnce (R.is_seen sweep.now.bench.runs.now) sweep.now.bench.following sweep.now.parts.swept.now sweep.now.parts.behind.now opened.now
        (part_end (vec_len opened.now.all) (wish.part - 1) wish.parts) (part_end (vec_len opened.now.all) wish.part wish.parts) wish.first s) }
    ensures stopped { IfErr result (Unless (StopsTrying (R.is_seen sweep.now.bench.runs.now) (R.at_limit sweep.now.bench.runs.now) sweep.now.bench.following sweep.now.parts.swept.now sweep.now.parts.behind.now opened.now (part_end (vec_len opened.now.all) (wish.part - 1) wish.parts) (part_end (vec_len opened.now.all) wish.part wish.parts))) }
{
    let count = opened.count();
    let first = end_of(count, wish.part.saturating_sub(1), wish.parts);
    let end = end_of(count, wish.part, wish.parts);
    sweep_once(alloc, sweep, opened, wish, first, end, trials, progress)
}

/// The pairs of places that are told of.
#[derive(Drop)]
struct Pairs {
    moments: Vec<Moment>,
    settled: Vec<Settled>,
    skipped: usize,
}

/// How many places there are where what is placed waits.
fn count_waiting(tried: &[Tried]) -> usize
    ensures is { result ≡ count_by (λ t. t.waits) tried.now }
{
    tried.iter().filter(|found| found.waits).count()
}

impl Pairs {
    /// Keeps what came of a pair, unless one of the two waits: then it comes again at a later one.
    fn keep(&mut self, number: usize, first: usize, second: usize, found: Tried) -> Result<(), Stop>
        requires { number + second < 2 ^ 64 }
        ensures moments { OnOk result (self.new.moments.items ≡ self.old.moments.items ++ map (λ t. t.0) (told_from number first second (found ∷ []))) }
        ensures settled { OnOk result (self.new.settled.items ≡ self.old.settled.items ++ map (λ t. t.1) (told_from number first second (found ∷ []))) }
        ensures skipped { self.new.skipped ≡ self.old.skipped }
        ensures memory { IfErr result (λ stop. stop ≡ stops.NoMemory) }
    {
        if found.waits {
            return Ok(());
        }
        self.moments.push(Moment {
            number: number + second,
            first,
            second: Some(second),
        })?;
        self.settled.push(Settled {
            outcome: found.outcome,
            wait: 0,
        })?;
        Ok(())
    }

    /// Keeps what came of the pairs behind a first place, of which the first has the number.
    #[tactic(auto, using(crate::proofs::Pairing::few_waiting))]
    fn keep_all(&mut self, number: usize, first: usize, tried: &[Tried]) -> Result<(), Stop>
        requires number { number + length tried.now < 2 ^ 64 }
        requires skipped { self.old.skipped ≤ number }
        ensures moments { OnOk result (self.new.moments.items ≡ self.old.moments.items ++ map (λ t. t.0) (told_from number first 0 tried.now)) }
        ensures settled { OnOk result (self.new.settled.items ≡ self.old.settled.items ++ map (λ t. t.1) (told_from number first 0 tried.now)) }
        ensures skipped { OnOk result (self.new.skipped ≡ self.old.skipped + count_by (λ t. t.waits) tried.now) }
        ensures memory { IfErr result (λ stop. stop ≡ stops.NoMemory) }
    {
        for second in 0..tried.len() {
            self.keep(number, first, second, tried[second])?;
        }
        self.skipped += count_waiting(tried);
        Ok(())
    }

    /// Tries all pairs of places whose first one is of a part.
    #[tactic(auto, using(crate::proofs::Pairing::few_waiting))]
    fn sweep_part<R: Runs, P: Progress>(
        &mut self,
        alloc: Global,
        sweep: &Sweep<'_, R>,
        opened: &Opened,
        part: (usize, usize),
        trials: &mut Trials,
        stops: Option<Ends>,
        progress: &mut P,
    ) -> Result<(), Stop>
        requires end { part.1 ≤ vec_len opened.now.all }
        requires moments { self.old.moments.items ≡ [] }
        requires settled { self.old.settled.items ≡ [] }
        requires skipped { self.old.skipped ≡ 0 }
        ensures pairs { OnOk result (AreSweptPairs (R.is_seen sweep.now.bench.runs.now) sweep.now.bench.following sweep.now.parts.swept.now sweep.now.parts.second.now sweep.now.parts.behind.now opened.now trials.new.outcomes.items part.0 part.1 (is_some stops) self.new.moments.items self.new.settled.items self.new.skipped) }
        ensures kept { OnOk result (AreKept trials.old.outcomes.items trials.new.outcomes.items) }
        ensures stopped { AreFew (R.is_seen sweep.now.bench.runs.now) sweep.now.bench.following sweep.now.parts.swept.now opened.now → IfErr result (Unless (StopsTwice (R.is_seen sweep.now.bench.runs.now) (R.at_limit sweep.now.bench.runs.now) sweep.now.bench.following sweep.now.parts.swept.now sweep.now.parts.second.now sweep.now.parts.behind.now opened.now)) }
    {
        let (from, end) = part;
        let mut number = 0usize;
        for first in 0..end {
            let inner = sweep.inner(alloc, opened, first)?;
            let count = inner.count();
            if count > MOST_IN_ALL - number {
                return Err(Stop::TooManyInAll);
            }
            let tried = trials.try_behind(alloc, sweep, &inner, first, from, stops, progress)?;
            self.keep_all(number, first, &tried)?;
            if Ends::are_passed_by(stops, &tried) {
                return Ok(());
            }
            number += count;
        }
        Ok(())
    }
}

/// Tries all pairs of places whose first one is of a part.
fn sweep_twice<R: Runs, P: Progress>(
    alloc: Global,
    sweep: &Sweep<'_, R>,
    opened: &Opened,
    wish: Wish,
    trials: Trials,
    progress: &mut P,
) -> Result<Swept, Stop>
    requires { AreDifferent trials.outcomes.items }
    ensures swept { IfOk result (λ s. IsSweptTwice (R.is_seen sweep.now.bench.runs.now) sweep.now.bench.following sweep.now.parts.swept.now sweep.now.parts.second.now sweep.now.parts.behind.now opened.now
        (part_end (vec_len opened.now.all) (wish.part - 1) wish.parts) (part_end (vec_len opened.now.all) wish.part wish.parts) wish.first s) }
    ensures stopped { AreFew (R.is_seen sweep.now.bench.runs.now) sweep.now.bench.following sweep.now.parts.swept.now opened.now → IfErr result (Unless (StopsTwice (R.is_seen sweep.now.bench.runs.now) (R.at_limit sweep.now.bench.runs.now) sweep.now.bench.following sweep.now.parts.swept.now sweep.now.parts.second.now sweep.now.parts.behind.now opened.now)) }
{
    let mut trials = trials;
    let ends = trials.try_end_pairs(alloc, sweep, opened)?;
    let stops = stops_of(wish, ends);
    let mut pairs = Pairs {
        moments: Vec::new(alloc),
        settled: Vec::new(alloc),
        skipped: 0,
    };
    let count = opened.count();
    let from = end_of(count, wish.part.saturating_sub(1), wish.parts);
    let end = end_of(count, wish.part, wish.parts);
    pairs.sweep_part(
        alloc,
        sweep,
        opened,
        (from, end),
        &mut trials,
        stops,
        progress,
    )?;
    Ok(Swept {
        outcomes: trials.outcomes,
        moments: pairs.moments,
        settled: pairs.settled,
        skipped: pairs.skipped,
        before: ends.before,
        behind: ends.behind,
    })
}

/// So many steps, with those of the runs of all places of one block more.
fn with_steps(steps: usize, inner: &Opened) -> usize
    ensures { result ≡ min (steps + steps_of inner.now) (2 ^ 64 - 1) }
{
    steps.saturating_add(inner.steps_of_all())
}

/// How many pairs of places there are, and how many steps all their runs take at most.
fn lengths_of_pairs<R: Runs>(
    alloc: Global,
    sweep: &Sweep<'_, R>,
    opened: &Opened,
) -> Result<(usize, usize), Stop>
    ensures steps { IfOk result (λ r. HaveSteps (R.is_seen sweep.now.bench.runs.now) sweep.now.bench.following sweep.now.parts.swept.now opened.now (vec_len opened.now.all) r.1) }
    ensures stopped { IfErr result (Unless (StopsTwice (R.is_seen sweep.now.bench.runs.now) (R.at_limit sweep.now.bench.runs.now) sweep.now.bench.following sweep.now.parts.swept.now sweep.now.parts.second.now sweep.now.parts.behind.now opened.now)) }
{
    let mut pairs = 0usize;
    let mut steps = 0usize;
    for first in 0..opened.count() {
        let inner = sweep.inner(alloc, opened, first)?;
        pairs = pairs.saturating_add(inner.count());
        steps = with_steps(steps, &inner);
    }
    Ok((pairs, steps))
}

/// Makes a sweep of all pairs of places.
fn make_double<R: Runs, P: Progress>(
    alloc: Global,
    sweep: &Sweep<'_, R>,
    opened: &Opened,
    wish: Wish,
    progress: &mut P,
) -> Result<Swept, Stop>
    ensures swept { IfOk result (λ s. IsSweptTwice (R.is_seen sweep.now.bench.runs.now) sweep.now.bench.following sweep.now.parts.swept.now sweep.now.parts.second.now sweep.now.parts.behind.now opened.now
        (part_end (vec_len opened.now.all) (wish.part - 1) wish.parts) (part_end (vec_len opened.now.all) wish.part wish.parts) wish.first s) }
    ensures few { OnOk result (AreFew (R.is_seen sweep.now.bench.runs.now) sweep.now.bench.following sweep.now.parts.swept.now opened.now) }
    ensures stopped { IfErr result (Unless (StopsTwice (R.is_seen sweep.now.bench.runs.now) (R.at_limit sweep.now.bench.runs.now) sweep.now.bench.following sweep.now.parts.swept.now sweep.now.parts.second.now sweep.now.parts.behind.now opened.now)) }
{
    let (all, steps) = lengths_of_pairs(alloc, sweep, opened)?;
    if steps > MOST_IN_ALL {
        return Err(Stop::TooManyInAll);
    }
    sweep_twice(
        alloc,
        sweep,
        opened,
        wish,
        Trials::new(alloc, all),
        progress,
    )
}

/// Makes a sweep of all places.
fn make_single<R: Runs, P: Progress>(
    alloc: Global,
    sweep: &Sweep<'_, R>,
    opened: &Opened,
    wish: Wish,
    progress: &mut P,
) -> Result<Swept, Stop>
    ensures swept { IfOk result (λ s. IsSweptOnce (R.is_seen sweep.now.bench.runs.now) sweep.now.bench.following sweep.now.parts.swept.now sweep.now.parts.behind.now opened.now
        (part_end (vec_len opened.now.all) (wish.part - 1) wish.parts) (part_end (vec_len opened.now.all) wish.part wish.parts) wish.first s) }
    ensures few { OnOk result (steps_of opened.now ≤ most_in_all) }
    ensures stopped { IfErr result (Unless (StopsOnce (R.is_seen sweep.now.bench.runs.now) (R.at_limit sweep.now.bench.runs.now) sweep.now.bench.following sweep.now.parts.swept.now sweep.now.parts.behind.now opened.now (part_end (vec_len opened.now.all) (wish.part - 1) wish.parts) (part_end (vec_len opened.now.all) wish.part wish.parts))) }
{
    if opened.steps_of_all() > MOST_IN_ALL {
        return Err(Stop::TooManyInAll);
    }
    sweep_places(
        alloc,
        sweep,
        opened,
        wish,
        Trials::new(alloc, opened.count()),
        progress,
    )
}

/// Makes a sweep.
pub fn make_sweep<R: Runs, P: Progress>(
    alloc: Global,
    sweep: &Sweep<'_, R>,
    opened: &Opened,
    wish: Wish,
    progress: &mut P,
) -> Result<Swept, Stop>
    ensures once { length sweep.now.parts.second.now ≡ 0 → IfOk result (λ s. IsSweptOnce (R.is_seen sweep.now.bench.runs.now) sweep.now.bench.following sweep.now.parts.swept.now sweep.now.parts.behind.now opened.now
        (part_end (vec_len opened.now.all) (wish.part - 1) wish.parts) (part_end (vec_len opened.now.all) wish.part wish.parts) wish.first s) }
    ensures twice { 0 < length sweep.now.parts.second.now → IfOk result (λ s. IsSweptTwice (R.is_seen sweep.now.bench.runs.now) sweep.now.bench.following sweep.now.parts.swept.now sweep.now.parts.second.now sweep.now.parts.behind.now opened.now
        (part_end (vec_len opened.now.all) (wish.part - 1) wish.parts) (part_end (vec_len opened.now.all) wish.part wish.parts) wish.first s) }
    ensures few_once { length sweep.now.parts.second.now ≡ 0 → OnOk result (steps_of opened.now ≤ most_in_all) }
    ensures few_twice { 0 < length sweep.now.parts.second.now → OnOk result (AreFew (R.is_seen sweep.now.bench.runs.now) sweep.now.bench.following sweep.now.parts.swept.now opened.now) }
    ensures stopped_once { length sweep.now.parts.second.now ≡ 0 → IfErr result (Unless (StopsOnce (R.is_seen sweep.now.bench.runs.now) (R.at_limit sweep.now.bench.runs.now) sweep.now.bench.following sweep.now.parts.swept.now sweep.now.parts.behind.now opened.now
        (part_end (vec_len opened.now.all) (wish.part - 1) wish.parts) (part_end (vec_len opened.now.all) wish.part wish.parts))) }
    ensures stopped_twice { 0 < length sweep.now.parts.second.now → IfErr result (Unless (StopsTwice (R.is_seen sweep.now.bench.runs.now) (R.at_limit sweep.now.bench.runs.now) sweep.now.bench.following sweep.now.parts.swept.now sweep.now.parts.second.now sweep.now.parts.behind.now opened.now)) }
{
    if sweep.is_double() {
        make_double(alloc, sweep, opened, wish, progress)
    } else {
        make_single(alloc, sweep, opened, wish, progress)
    }
}

ghost use Rattle.std.specs.Prelude.{◌≡◌, ℕ, ◌<◌, ◌≤◌, ◌+◌, ◌-◌, ◌||◌, ◌++◌, [], ◌∷◌, None, false, nat_lt, vec_len, IfErr, IfOk, OnOk, string_bytes};
ghost use Rattle.bench_sweep.specs.Outcomes.{Tells};
ghost use Rattle.bench_sweep.specs.Reports.{telling_of};
ghost use Rattle.sweep_trials.specs.Pairs.{IsPairTried};
ghost use Rattle.sweep_trials.specs.Stops.{StopsAt, StopsTrying, StopsTryingPairs, Unless};
ghost use Rattle.sweep_trials.specs.Trials.{AreKept, AreTried, IsTriedAt, part_end};
ghost use Rattle.sweep_trials.specs.declared.stop.Stop.TheVariants as stops;

use crate::followed::Followed;
use crate::opened::Opened;
use crate::progress::Progress;
use crate::seen::Runs;
use crate::stop::Stop;
use crate::sweeping::Sweep;
use bench_sweep::{Outcome, Tried, number_among, outcome_of};
use mcal_base::Directive;
use std::alloc::Global;

/// Which places are to be tried.
#[derive(Clone, Copy)]
pub struct Wish {
    /// To stop at the first outcome that is neither as before nor as behind.
    pub first: bool,
    /// Which part of the places is tried, from 1.
    pub part: usize,
    /// Of how many parts.
    pub parts: usize,
}

/// The outcomes at the first place and at the last, by their numbers.
#[derive(Clone, Copy)]
pub(crate) struct Ends {
    /// At the first place.
    pub before: usize,
    /// At the last place.
    pub behind: usize,
}

impl Ends {
    /// Whether an outcome is neither.
    pub fn is_neither(self, outcome: usize) -> bool {
        outcome != self.before && outcome != self.behind
    }

    /// Whether a sweep that stops at an outcome that is neither stops at this one.
    pub fn are_passed(stops: Option<Ends>, outcome: usize) -> bool
        ensures { stops ≡ None → result ≡ false }
    {
        match stops {
            Some(ends) => ends.is_neither(outcome),
            None => false,
        }
    }

    /// Whether a sweep that stops at an outcome that is neither stopped at the last of these places.
    pub fn are_passed_by(stops: Option<Ends>, tried: &[Tried]) -> bool
        ensures { stops ≡ None → result ≡ false }
    {
        match tried.last() {
            Some(found) => !found.waits && Ends::are_passed(stops, found.outcome),
            None => false,
        }
    }
}

/// The first of so many places that is behind a part. The product has room in 128 bits.
pub(crate) fn end_of(places: usize, part: usize, parts: usize) -> usize
    ensures is { result ≡ part_end places part parts }
    ensures within { result ≤ places }
{
    if parts == 0 {
        return 0;
    }
    (places as u128 * part as u128 / parts as u128).min(places as u128) as usize
}

/// Whether a place is to be tried: it is before the end of a part, or what is placed waits at the place before.
fn is_wanted(place: usize, end: usize, waits: bool) -> bool
    ensures is { result ≡ (nat_lt place end || waits) }
    ensures no { result ≡ false → end ≤ place }
{
    place < end || waits
}

/// The line of the first of some directives.
fn first_line(directives: &[Directive]) -> u32 {
    match directives.first() {
        Some(directive) => directive.line,
        None => 0,
    }
}

/// Whether the directive of a number, from 1, came from a line of the file.
fn is_from(lines: &[u32], number: u32, line: u32) -> bool {
    match (number as usize).checked_sub(1) {
        Some(place) => place < lines.len() && lines[place] == line,
        None => false,
    }
}

impl Followed {
    /// Whether a directive from a line was held, and waits.
    fn waits(&self, line: u32) -> bool {
        self.seen
            .waiting
            .iter()
            .any(|number| is_from(&self.flat.lines, *number, line))
    }
}

/// The outcomes of what was tried, and how many places were.
#[derive(Drop)]
pub(crate) struct Trials {
    /// All outcomes that there were.
    pub outcomes: Vec<Outcome>,
    /// How many places were tried.
    pub tried: usize,
    /// How many there are.
    pub all: usize,
}

impl Trials {
    /// Nothing was tried yet, of so many places.
    pub fn new(alloc: Global, all: usize) -> Trials
        ensures { result.outcomes.items ≡ [] }
    {
        Trials {
            outcomes: Vec::new(alloc),
            tried: 0,
            all,
        }
    }

    /// Tells that one place more was tried.
    pub fn count<P: Progress>(&mut self, progress: &mut P)
        ensures { self.new.outcomes ≡ self.old.outcomes }
    {
        self.tried = self.tried.saturating_add(1);
        progress.tried(self.tried, self.all);
    }

    /// The number of the outcome of a run, which is put behind the others where it is new.
    fn keep(&mut self, alloc: Global, found: &Followed) -> Result<usize, Stop>
        ensures tells { IfOk result (λ n. Tells self.new.outcomes.items n (telling_of found.now.flat.lines.items (string_bytes found.now.seen.report))) }
        ensures kept { OnOk result (AreKept self.old.outcomes.items self.new.outcomes.items) }
        ensures memory { IfErr result (λ stop. stop ≡ stops.NoMemory) }
    {
        let outcome = outcome_of(alloc, found.seen.report.as_str(), &found.flat.lines)?;
        let number = number_among(&mut self.outcomes, outcome)?;
        Ok(number)
    }

    /// Tries a place: runs the script in which something is placed there.
    pub fn try_at<R: Runs>(
        &mut self,
        alloc: Global,
        sweep: &Sweep<'_, R>,
        opened: &Opened,
        place: usize,
        placed: &[Directive],
    ) -> Result<Tried, Stop>
        requires { place < vec_len opened.now.all }
        ensures tried { IfOk result (λ t. IsTriedAt (R.is_seen sweep.now.bench.runs.now) sweep.now.bench.following placed.now sweep.now.parts.behind.now opened.now self.new.outcomes.items place t.outcome) }
        ensures kept { OnOk result (AreKept self.old.outcomes.items self.new.outcomes.items) }
        ensures stopped { IfErr result (Unless (StopsAt (R.is_seen sweep.now.bench.runs.now) (R.at_limit sweep.now.bench.runs.now) sweep.now.bench.following placed.now sweep.now.parts.behind.now opened.now place)) }
    {
        let found = sweep.with(alloc, opened, place, placed)?;
        let outcome = self.keep(alloc, &found)?;
        let waits = found.waits(first_line(sweep.parts.swept))
            || found.waits(first_line(sweep.parts.second));
        Ok(Tried { outcome, waits })
    }

    /// Tries the first place and the last.
    pub fn try_ends<R: Runs>(
        &mut self,
        alloc: Global,
        sweep: &Sweep<'_, R>,
        opened: &Opened,
    ) -> Result<Ends, Stop>
        ensures before { IfOk result (λ e. IsTriedAt (R.is_seen sweep.now.bench.runs.now) sweep.now.bench.following sweep.now.parts.swept.now sweep.now.parts.behind.now opened.now self.new.outcomes.items 0 e.before) }
        ensures behind { IfOk result (λ e. IsTriedAt (R.is_seen sweep.now.bench.runs.now) sweep.now.bench.following sweep.now.parts.swept.now sweep.now.parts.behind.now opened.now self.new.outcomes.items (vec_len opened.now.all - 1) e.behind) }
        ensures kept { OnOk result (AreKept self.old.outcomes.items self.new.outcomes.items) }
        ensures stopped { (from until : ℕ) → IfErr result (Unless (StopsTrying (R.is_seen sweep.now.bench.runs.now) (R.at_limit sweep.now.bench.runs.now) sweep.now.bench.following sweep.now.parts.swept.now sweep.now.parts.behind.now opened.now from until)) }
    {
        let count = opened.count();
        let placed = sweep.parts.swept;
        let before = self.try_at(alloc, sweep, opened, 0, placed)?;
        let behind = self.try_at(alloc, sweep, opened, count - 1, placed)?;
        Ok(Ends {
            before: before.outcome,
            behind: behind.outcome,
        })
    }

    /// Tries the first pair and the last.
    pub fn try_end_pairs<R: Runs>(
        &mut self,
        alloc: Global,
        sweep: &Sweep<'_, R>,
        opened: &Opened,
    ) -> Result<Ends, Stop>
        ensures before { IfOk result (λ e. IsPairTried (R.is_seen sweep.now.bench.runs.now) sweep.now.bench.following sweep.now.parts.swept.now sweep.now.parts.second.now sweep.now.parts.behind.now opened.now self.new.outcomes.items 0 (λ inner. 0) e.before) }
        ensures behind { IfOk result (λ e. IsPairTried (R.is_seen sweep.now.bench.runs.now) sweep.now.bench.following sweep.now.parts.swept.now sweep.now.parts.second.now sweep.now.parts.behind.now opened.now self.new.outcomes.items (vec_len opened.now.all - 1) (λ inner. vec_len inner.all - 1) e.behind) }
        ensures kept { OnOk result (AreKept self.old.outcomes.items self.new.outcomes.items) }
        ensures stopped { IfErr result (Unless (StopsTryingPairs (R.is_seen sweep.now.bench.runs.now) (R.at_limit sweep.now.bench.runs.now) sweep.now.bench.following sweep.now.parts.swept.now sweep.now.parts.second.now sweep.now.parts.behind.now opened.now)) }
    {
        let placed = sweep.parts.second;
        let first = sweep.inner(alloc, opened, 0)?;
        let before = self.try_at(alloc, sweep, &first, 0, placed)?;
        let last = sweep.inner(alloc, opened, opened.count() - 1)?;
        let behind = self.try_at(alloc, sweep, &last, last.count() - 1, placed)?;
        Ok(Ends {
            before: before.outcome,
            behind: behind.outcome,
        })
    }

    /// Tries the place that comes next, and keeps what came of it behind the others.
    fn try_next<R: Runs, P: Progress>(
        &mut self,
        alloc: Global,
        sweep: &Sweep<'_, R>,
        opened: &Opened,
        place: usize,
        placed: &[Directive],
        all: &mut Vec<Tried>,
        progress: &mut P,
    ) -> Result<Tried, Stop>
        requires { place < vec_len opened.now.all }
        ensures each { OnOk result ((from : ℕ) → from + vec_len all.old ≡ place →
            AreTried (R.is_seen sweep.now.bench.runs.now) sweep.now.bench.following placed.now sweep.now.parts.behind.now opened.now self.old.outcomes.items from all.old.items →
            AreTried (R.is_seen sweep.now.bench.runs.now) sweep.now.bench.following placed.now sweep.now.parts.behind.now opened.now self.new.outcomes.items from all.new.items) }
        ensures more { OnOk result (vec_len all.new ≡ vec_len all.old + 1) }
        ensures pushed { IfOk result (λ t. all.new.items ≡ all.old.items ++ t ∷ []) }
        ensures kept { OnOk result (AreKept self.old.outcomes.items self.new.outcomes.items) }
        ensures stopped { IfErr result (Unless (StopsAt (R.is_seen sweep.now.bench.runs.now) (R.at_limit sweep.now.bench.runs.now) sweep.now.bench.following placed.now sweep.now.parts.behind.now opened.now place)) }
    {
        let found = self.try_at(alloc, sweep, opened, place, placed)?;
        self.count(progress);
        all.push(found)?;
        Ok(found)
    }

    /// Tries something at the places from one up to another, and those behind them where what is placed waits.
    pub fn try_part<R: Runs, P: Progress>(
        &mut self,
        alloc: Global,
        sweep: &Sweep<'_, R>,
        opened: &Opened,
        placed: &[Directive],
        first: usize,
        end: usize,
        stops: Option<Ends>,
        progress: &mut P,
    ) -> Result<Vec<Tried>, Stop>
        requires first { first ≤ vec_len opened.now.all }
        requires end { end ≤ vec_len opened.now.all }
        ensures few { IfOk result (λ all. vec_len all ≤ vec_len opened.now.all) }
        ensures whole { stops ≡ None → IfOk result (λ all. end - first ≤ vec_len all) }
        ensures each { IfOk result (λ all. AreTried (R.is_seen sweep.now.bench.runs.now) sweep.now.bench.following placed.now sweep.now.parts.behind.now opened.now self.new.outcomes.items first all.items) }
        ensures kept { OnOk result (AreKept self.old.outcomes.items self.new.outcomes.items) }
        ensures stopped { IfErr result (Unless (StopsTrying (R.is_seen sweep.now.bench.runs.now) (R.at_limit sweep.now.bench.runs.now) sweep.now.bench.following placed.now sweep.now.parts.behind.now opened.now first end)) }
    {
        let mut all = Vec::new(alloc);
        let mut waits = false;
        for place in first..opened.count() {
            if !is_wanted(place, end, waits) {
                return Ok(all);
            }
            let found = self.try_next(alloc, sweep, opened, place, placed, &mut all, progress)?;
            waits = found.waits;
            if !waits && Ends::are_passed(stops, found.outcome) {
                return Ok(all);
            }
        }
        Ok(all)
    }

    /// Tries what is placed a second time at all places of the block that begins at the first place of a number, where that is of
    /// the part that begins at another.
    pub fn try_behind<R: Runs, P: Progress>(
        &mut self,
        alloc: Global,
        sweep: &Sweep<'_, R>,
        inner: &Opened,
        first: usize,
        from: usize,
        stops: Option<Ends>,
        progress: &mut P,
    ) -> Result<Vec<Tried>, Stop>
        ensures few { IfOk result (λ all. vec_len all ≤ vec_len inner.now.all) }
        ensures ahead { first < from → IfOk result (λ all. all.items ≡ []) }
        ensures whole { from ≤ first → stops ≡ None → IfOk result (λ all. vec_len inner.now.all ≤ vec_len all) }
        ensures each { IfOk result (λ all. AreTried (R.is_seen sweep.now.bench.runs.now) sweep.now.bench.following sweep.now.parts.second.now sweep.now.parts.behind.now inner.now self.new.outcomes.items 0 all.items) }
        ensures kept { OnOk result (AreKept self.old.outcomes.items self.new.outcomes.items) }
        ensures stopped { IfErr result (Unless (StopsTrying (R.is_seen sweep.now.bench.runs.now) (R.at_limit sweep.now.bench.runs.now) sweep.now.bench.following sweep.now.parts.second.now sweep.now.parts.behind.now inner.now 0 (vec_len inner.now.all))) }
    {
        if first < from {
            return Ok(Vec::new(alloc));
        }
        let second = sweep.parts.second;
        self.try_part(
            alloc,
            sweep,
            inner,
            second,
            0,
            inner.count(),
            stops,
            progress,
        )
    }
}

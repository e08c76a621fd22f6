ghost use Rattle.std.specs.Prelude.{◌≡◌, ◌<◌, Some, false, true, length, IfErr, IfOk, slice_get, string_bytes, vec_len};
ghost use Rattle.bench_sweep.specs.Placed.{put_in};
ghost use Rattle.bench_sweep.specs.Places.{places};
ghost use Rattle.bench_sweep.specs.declared.places.BlockPlace.{BlockPlace};
ghost use Rattle.sweep_trials.specs.Grown.{IsSeen};
ghost use Rattle.sweep_trials.specs.Names.{IsNameBy, IsPairName};
ghost use Rattle.sweep_trials.specs.Shown.{IsPairSeen, IsPlaceSeen};
ghost use Rattle.sweep_trials.specs.Stops.{StopsAt, StopsInner, StopsName, StopsOpening, StopsPair, StopsShown, Unless};
ghost use Rattle.sweep_trials.specs.Trials.{IsBlock, IsInner};

use crate::followed::{Followed, run_followed};
use crate::opened::Opened;
use crate::reactions::Bench;
use crate::seen::Runs;
use crate::stop::Stop;
use bench_sweep::{Parts, copy_behind};
use mcal_base::Directive;
use std::alloc::Global;

/// A sweep that is to be made.
#[derive(Drop)]
pub struct Sweep<'a, R> {
    /// What stays the same in all its runs.
    pub bench: Bench<'a, R>,
    /// The parts of the script.
    pub parts: Parts<'a>,
    pub ghost swept_some: { 0 < length parts.swept.now },
    pub ghost block_some: { 0 < length parts.block.now },
}

/// What is placed once stands at a place of the block, and what is placed a second time at one of what runs from there on;
/// each by its number from 0.
#[derive(Clone, Copy)]
pub struct Moment {
    /// The number of the moment, from 0.
    pub number: usize,
    /// The place in the block.
    pub first: usize,
    /// The place in what runs from there on.
    pub second: Option<usize>,
}

impl<R: Runs> Sweep<'_, R> {
    /// The block, run with nothing placed in it.
    pub fn open(&self, alloc: Global) -> Result<Opened, Stop>
        ensures opened { IfOk result (λ o. IsBlock (R.is_seen self.now.bench.runs.now) self.now.bench.following self.now.parts.before.now self.now.parts.block.now o) }
        ensures stopped { IfErr result (Unless (StopsOpening (R.is_seen self.now.bench.runs.now) (R.at_limit self.now.bench.runs.now) self.now.bench.following self.now.parts.before.now self.now.parts.block.now)) }
    {
        let mut before = Vec::new(alloc);
        copy_behind(&mut before, self.parts.before)?;
        let before = run_followed(alloc, &self.bench, before, false)?;
        Opened::new(alloc, &self.bench, before.directives, self.parts.block)
    }

    /// What runs from a place on, with what is placed there.
    pub(crate) fn inner(&self, alloc: Global, opened: &Opened, first: usize) -> Result<Opened, Stop>
        requires { first < vec_len opened.now.all }
        ensures opened { IfOk result (λ inner. (p : BlockPlace) → slice_get (places opened.now.block.items opened.now.steps.items) first ≡ Some p →
            IsInner (R.is_seen self.now.bench.runs.now) self.now.bench.following opened.now self.now.parts.swept.now p inner) }
        ensures stopped { IfErr result (Unless (StopsInner (R.is_seen self.now.bench.runs.now) (R.at_limit self.now.bench.runs.now) self.now.bench.following self.now.parts.swept.now opened.now first)) }
    {
        opened.inner(alloc, &self.bench, first, self.parts.swept)
    }

    /// The run in which something is placed at a place.
    pub(crate) fn with(
        &self,
        alloc: Global,
        opened: &Opened,
        place: usize,
        placed: &[Directive],
    ) -> Result<Followed, Stop>
        requires { place < vec_len opened.now.all }
        ensures seen { IfOk result (λ found. (p : BlockPlace) → slice_get (places opened.now.block.items opened.now.steps.items) place ≡ Some p →
            IsSeen (R.is_seen self.now.bench.runs.now) self.now.bench.following (put_in opened.now.before.items placed.now opened.now.block.items self.now.parts.behind.now opened.now.steps.items p) found) }
        ensures stopped { IfErr result (Unless (StopsAt (R.is_seen self.now.bench.runs.now) (R.at_limit self.now.bench.runs.now) self.now.bench.following placed.now self.now.parts.behind.now opened.now place)) }
    {
        opened.with(alloc, &self.bench, place, placed, self.parts.behind)
    }

    /// Whether something is placed a second time.
    pub fn is_double(&self) -> bool
        ensures no { length self.now.parts.second.now ≡ 0 → result ≡ false }
        ensures yes { 0 < length self.now.parts.second.now → result ≡ true }
    {
        !self.parts.second.is_empty()
    }

    /// The run of the pair of a number, from 0.
    fn run_of_pair(&self, alloc: Global, opened: &Opened, number: usize) -> Result<Followed, Stop>
        ensures seen { IfOk result (IsPairSeen (R.is_seen self.now.bench.runs.now) self.now.bench.following self.now.parts.swept.now self.now.parts.second.now self.now.parts.behind.now opened.now number) }
        ensures stopped { IfErr result (Unless (StopsPair (R.is_seen self.now.bench.runs.now) (R.at_limit self.now.bench.runs.now) self.now.bench.following self.now.parts.swept.now self.now.parts.second.now self.now.parts.behind.now opened.now number)) }
    {
        let mut left = number;
        for first in 0..opened.count() {
            let inner = self.inner(alloc, opened, first)?;
            let count = inner.count();
            if left < count {
                return self.with(alloc, &inner, left, self.parts.second);
            }
            left -= count;
        }
        Err(Stop::NoPlace(number - left))
    }

    /// The run of the place of a number, from 0, or of the pair.
    pub fn run_at(&self, alloc: Global, opened: &Opened, number: usize) -> Result<Followed, Stop>
        ensures once { length self.now.parts.second.now ≡ 0 → IfOk result (IsPlaceSeen (R.is_seen self.now.bench.runs.now) self.now.bench.following self.now.parts.swept.now self.now.parts.behind.now opened.now number) }
        ensures twice { 0 < length self.now.parts.second.now → IfOk result (IsPairSeen (R.is_seen self.now.bench.runs.now) self.now.bench.following self.now.parts.swept.now self.now.parts.second.now self.now.parts.behind.now opened.now number) }
        ensures stopped_once { length self.now.parts.second.now ≡ 0 → IfErr result (Unless (StopsShown (R.is_seen self.now.bench.runs.now) (R.at_limit self.now.bench.runs.now) self.now.bench.following self.now.parts.swept.now self.now.parts.behind.now opened.now number)) }
        ensures stopped_twice { 0 < length self.now.parts.second.now → IfErr result (Unless (StopsPair (R.is_seen self.now.bench.runs.now) (R.at_limit self.now.bench.runs.now) self.now.bench.following self.now.parts.swept.now self.now.parts.second.now self.now.parts.behind.now opened.now number)) }
    {
        if self.is_double() {
            return self.run_of_pair(alloc, opened, number);
        }
        if opened.count() <= number {
            return Err(Stop::NoPlace(opened.count()));
        }
        self.with(alloc, opened, number, self.parts.swept)
    }

    /// The name of a pair.
    fn name_of_pair(
        &self,
        alloc: Global,
        opened: &Opened,
        first: usize,
        second: usize,
    ) -> Result<String, Stop>
        requires { first < vec_len opened.now.all }
        ensures name { IfOk result (λ text. IsPairName (R.is_seen self.now.bench.runs.now) self.now.bench.following self.now.parts.swept.now opened.now first second (string_bytes text)) }
        ensures stopped { IfErr result (Unless (StopsInner (R.is_seen self.now.bench.runs.now) (R.at_limit self.now.bench.runs.now) self.now.bench.following self.now.parts.swept.now opened.now first)) }
    {
        let inner = self.inner(alloc, opened, first)?;
        let front = opened.name(alloc, first)?;
        let back = inner.name(alloc, second)?;
        Ok(format!(in alloc; "{front}; {back}")?)
    }

    /// The name of a moment. All moments of a sweep are at places of its block.
    pub(crate) fn name_of(
        &self,
        alloc: Global,
        opened: &Opened,
        moment: Moment,
    ) -> Result<String, Stop>
        ensures name { IfOk result (λ text. IsNameBy (R.is_seen self.now.bench.runs.now) self.now.bench.following self.now.parts.swept.now opened.now moment.first moment.second (string_bytes text)) }
        ensures stopped { IfErr result (Unless (StopsName (R.is_seen self.now.bench.runs.now) (R.at_limit self.now.bench.runs.now) self.now.bench.following self.now.parts.swept.now opened.now moment)) }
    {
        match moment.second {
            None => Ok(opened.name(alloc, moment.first)?),
            Some(second) => {
                let first = moment.first.min(opened.count() - 1);
                self.name_of_pair(alloc, opened, first, second)
            }
        }
    }
}

ghost use Rattle.std.specs.Prelude.{◌≡◌, ◌<◌, ◌-◌, ◌^◌, ◌++◌, Some, drop, map, min, take, length, string_bytes, vec_len, IfErr, IfOk, slice_get};
ghost use Rattle.bench_sweep.specs.Placed.{block_on, block_up, put_in};
ghost use Rattle.bench_sweep.specs.Places.{places};
ghost use Rattle.bench_sweep.specs.declared.places.BlockPlace.{BlockPlace};
ghost use Rattle.sweep_trials.specs.Counts.{counts};
ghost use Rattle.sweep_trials.specs.Grown.{IsSeen};
ghost use Rattle.sweep_trials.specs.Names.{IsPlaceName, last_move, move_of};
ghost use Rattle.sweep_trials.specs.Stops.{StopsAt, StopsInner, StopsRun, Unless, steps_of};
ghost use Rattle.sweep_trials.specs.Trials.{IsInner, IsOpened, has_steps};

use crate::followed::{Followed, run_followed, steps_of};
use crate::opened::Opened;
use crate::reactions::Bench;
use crate::seen::{Runs, StepSeen};
use crate::stop::Stop;
use bench_sweep::{BlockPlace, Cut, Spot, copy_behind, cut_block, places_in, spot_text};
use mcal_base::Directive;
use std::alloc::{AllocError, Global};

/// The directives of a list from a number on.
#[tactic(auto, using(crate::proofs::Counting::drop_least))]
fn from_number(
    alloc: Global,
    directives: &[Directive],
    number: usize,
) -> Result<Vec<Directive>, AllocError>
    ensures { IfOk result (λ all. all.items ≡ drop number directives.now) }
{
    let mut all = Vec::new(alloc);
    copy_behind(&mut all, &directives[number.min(directives.len())..])?;
    Ok(all)
}

/// The same numbers, from a number on.
#[tactic(auto, using(crate::proofs::Counting::drop_least))]
fn steps_from(alloc: Global, steps: &[u32], number: usize) -> Result<Vec<u32>, AllocError>
    ensures { IfOk result (λ all. all.items ≡ drop number steps.now) }
{
    Vec::from_slice(alloc, &steps[number.min(steps.len())..])
}

/// What is placed where a block is cut, and what runs from there on.
fn behind_cut(alloc: Global, placed: &[Directive], cut: &Cut) -> Result<Vec<Directive>, AllocError>
    ensures { IfOk result (λ all. all.items ≡ placed.now ++ cut.now.on.items) }
{
    let mut all = Vec::new(alloc);
    copy_behind(&mut all, placed)?;
    copy_behind(&mut all, &cut.on)?;
    Ok(all)
}

/// The move of a step of the directive of a number, by which of its steps that is, from 1; the moves of all steps stand beside
/// them.
fn move_of<'a>(number: usize, step: u32, steps: &[StepSeen], moves: &'a [String]) -> &'a str
    ensures { result.now ≡ move_of number step steps.now (map string_bytes moves.now) }
{
    let mut left = step;
    let mut steps = steps;
    let mut moves = moves;
    while let [seen, others @ ..] = steps {
        let [text, more @ ..] = moves else {
            return "";
        };
        if seen.line as usize == number {
            if left == 1 {
                return text.as_str();
            }
            left = left.saturating_sub(1);
        }
        steps = others;
        moves = more;
    }
    ""
}

impl Opened {
    /// Runs what stands before a block and the block, in which each notice is followed.
    pub fn new<R: Runs>(
        alloc: Global,
        bench: &Bench<'_, R>,
        before: Vec<Directive>,
        block: &[Directive],
    ) -> Result<Opened, Stop>
        requires { 0 < length block.now }
        ensures opened { IfOk result (λ o. IsOpened (R.is_seen bench.now.runs.now) bench.now.following (before.items ++ block.now) (vec_len before) o) }
        ensures stopped { IfErr result (Unless (StopsRun (R.is_seen bench.now.runs.now) (R.at_limit bench.now.runs.now) bench.now.following (before.items ++ block.now))) }
    {
        let count = before.len();
        let mut start = before;
        copy_behind(&mut start, block)?;
        let found = run_followed(alloc, bench, start, true)?;
        Ok(Opened::of(alloc, found, count)?)
    }

    /// The block of a run, behind the first so many directives.
    fn of(alloc: Global, found: Followed, count: usize) -> Result<Opened, AllocError>
        requires { count < vec_len found.directives }
        ensures before { IfOk result (λ o. o.before.items ≡ take count found.directives.items) }
        ensures block { IfOk result (λ o. o.block.items ≡ drop count found.directives.items) }
        ensures steps { IfOk result (λ o. o.steps.items ≡ drop count (counts (vec_len found.directives) found.seen.steps.items)) }
        ensures made { IfOk result (λ o. o.seen.items ≡ found.seen.steps.items) }
        ensures moves { IfOk result (λ o. o.moves.items ≡ found.seen.moves.items) }
        ensures named { vec_len found.seen.moves ≡ vec_len found.seen.steps → IfOk result (λ o. vec_len o.moves ≡ vec_len o.seen) }
    {
        let mut before = found.directives;
        let seen = found.seen;
        let block = from_number(alloc, &before, count)?;
        let steps = steps_of(alloc, before.len(), &seen.steps)?;
        let steps = steps_from(alloc, &steps, count)?;
        before.truncate(count);
        let all = places_in(alloc, &block, &steps)?;
        Ok(Opened {
            before,
            block,
            steps,
            all,
            seen: seen.steps,
            moves: seen.moves,
        })
    }

    /// How many places there are in the block.
    pub fn count(&self) -> usize
        ensures is { result ≡ vec_len self.now.all }
        ensures some { 0 < result }
    {
        self.all.len()
    }

    /// The place of a number, from 0.
    fn place(&self, number: usize) -> BlockPlace
        requires { number < vec_len self.now.all }
        ensures is { slice_get (places self.now.block.items self.now.steps.items) number ≡ Some result }
        ensures by { result.directive < vec_len self.now.block }
    {
        self.all[number]
    }

    /// How many steps the runs of all places take at most: each as many as this one, and one at least.
    pub fn steps_of_all(&self) -> usize
        ensures { result ≡ min (steps_of self.now) (2 ^ 64 - 1) }
    {
        self.all.len().saturating_mul(self.seen.len().max(1))
    }

    /// The block, cut at a place.
    fn cut(&self, alloc: Global, place: usize) -> Result<Cut, AllocError>
        requires { place < vec_len self.now.all }
        ensures up { IfOk result (λ cut. (p : BlockPlace) → slice_get (places self.now.block.items self.now.steps.items) place ≡ Some p → cut.up.items ≡ block_up self.now.block.items p) }
        ensures on { IfOk result (λ cut. (p : BlockPlace) → slice_get (places self.now.block.items self.now.steps.items) place ≡ Some p → cut.on.items ≡ block_on self.now.block.items self.now.steps.items p) }
    {
        let place = self.place(place);
        cut_block(alloc, &self.block, &self.steps, place)
    }

    /// The directives in which something is placed at a place, with something behind the block.
    fn placed(
        &self,
        alloc: Global,
        place: usize,
        placed: &[Directive],
        behind: &[Directive],
    ) -> Result<Vec<Directive>, AllocError>
        requires { place < vec_len self.now.all }
        ensures { IfOk result (λ all. (p : BlockPlace) → slice_get (places self.now.block.items self.now.steps.items) place ≡ Some p →
            all.items ≡ put_in self.now.before.items placed.now self.now.block.items behind.now self.now.steps.items p) }
    {
        let cut = self.cut(alloc, place)?;
        let mut all = Vec::new(alloc);
        copy_behind(&mut all, &self.before)?;
        copy_behind(&mut all, &cut.up)?;
        copy_behind(&mut all, placed)?;
        copy_behind(&mut all, &cut.on)?;
        copy_behind(&mut all, behind)?;
        Ok(all)
    }

    /// The run in which something is placed at a place.
    pub fn with<R: Runs>(
        &self,
        alloc: Global,
        bench: &Bench<'_, R>,
        place: usize,
        placed: &[Directive],
        behind: &[Directive],
    ) -> Result<Followed, Stop>
        requires { place < vec_len self.now.all }
        ensures seen { IfOk result (λ found. (p : BlockPlace) → slice_get (places self.now.block.items self.now.steps.items) place ≡ Some p →
            IsSeen (R.is_seen bench.now.runs.now) bench.now.following (put_in self.now.before.items placed.now self.now.block.items behind.now self.now.steps.items p) found) }
        ensures stopped { IfErr result (Unless (StopsAt (R.is_seen bench.now.runs.now) (R.at_limit bench.now.runs.now) bench.now.following placed.now behind.now self.now place)) }
    {
        let start = self.placed(alloc, place, placed, behind)?;
        run_followed(alloc, bench, start, false)
    }

    /// What runs up to the place where the block is cut.
    fn up_to(&self, alloc: Global, cut: &Cut) -> Result<Vec<Directive>, AllocError>
        ensures { IfOk result (λ all. all.items ≡ self.now.before.items ++ cut.now.up.items) }
    {
        let mut all = Vec::new(alloc);
        copy_behind(&mut all, &self.before)?;
        copy_behind(&mut all, &cut.up)?;
        Ok(all)
    }

    /// The block that begins at a place, with something placed there.
    pub fn inner<R: Runs>(
        &self,
        alloc: Global,
        bench: &Bench<'_, R>,
        place: usize,
        placed: &[Directive],
    ) -> Result<Opened, Stop>
        requires there { place < vec_len self.now.all }
        requires some { 0 < length placed.now }
        ensures opened { IfOk result (λ inner. (p : BlockPlace) → slice_get (places self.now.block.items self.now.steps.items) place ≡ Some p →
            IsInner (R.is_seen bench.now.runs.now) bench.now.following self.now placed.now p inner) }
        ensures stopped { IfErr result (Unless (StopsInner (R.is_seen bench.now.runs.now) (R.at_limit bench.now.runs.now) bench.now.following placed.now self.now place)) }
    {
        let cut = self.cut(alloc, place)?;
        let before = self.up_to(alloc, &cut)?;
        let block = behind_cut(alloc, placed, &cut)?;
        Opened::new(alloc, bench, before, &block)
    }

    /// The last move before a spot by a directive of the block.
    fn last_move(&self, directive: usize, spot: Spot) -> &str
        requires { directive < vec_len self.now.block }
        ensures { result.now ≡ last_move self.now directive spot }
    {
        let number = self
            .before
            .len()
            .saturating_add(directive)
            .saturating_add(1);
        match spot {
            Spot::Step(made) => move_of(number, made, &self.seen, &self.moves),
            _ => "",
        }
    }

    /// The name of a place, and none where there is no such place.
    pub fn name(&self, alloc: Global, place: usize) -> Result<String, AllocError>
        ensures { IfOk result (λ text. IsPlaceName self.now place (string_bytes text)) }
    {
        if self.all.len() <= place {
            return Ok(String::new(alloc));
        }
        let BlockPlace { directive, spot } = self.place(place);
        let line = self.block[directive].line;
        let steps = self.steps[directive];
        spot_text(alloc, line, spot, steps, self.last_move(directive, spot))
    }

    /// Whether any directive of the block makes a step.
    pub fn has_steps(&self) -> bool
        ensures { result ≡ has_steps self.now }
    {
        self.steps.iter().any(|steps| 0 < *steps)
    }
}

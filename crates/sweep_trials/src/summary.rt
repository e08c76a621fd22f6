ghost use Rattle.std.specs.Prelude.{◌≡◌, ◌<◌, Some, length, map, slice_get, string_bytes, sum_by, vec_len, IfErr, IfOk};
ghost use Rattle.std.specs.List.{All};
ghost use Rattle.bench_sweep.specs.Groups as spec;
ghost use Rattle.sweep_trials.specs.Names.{IsNamed};
ghost use Rattle.sweep_trials.specs.Rows.{AreRowsOf, IsNumberOf, IsRowAt, IsRowOf};
ghost use Rattle.sweep_trials.specs.Standings as standings;
ghost use Rattle.sweep_trials.specs.Stops.{StopsNaming, Unless};

use crate::opened::Opened;
use crate::seen::Runs;
use crate::stop::Stop;
use crate::sweeping::{Moment, Sweep};
use crate::swept::Swept;
use bench_sweep::{Range, count_with, numbers_in, ranges};
use std::alloc::Global;

/// How an outcome stands to those before and behind the block.
#[derive(Clone, Copy)]
pub enum Standing {
    /// It is the one before the block, and the one behind it.
    Both,
    /// It is the one before the block.
    Before,
    /// It is the one behind the block.
    Behind,
    /// It is neither.
    Neither,
}

impl Standing {
    /// The words.
    pub fn text(self) -> &'static str
        ensures { result.now ≡ standings.standing_text self }
    {
        match self {
            Standing::Both => "as before and behind",
            Standing::Before => "as before",
            Standing::Behind => "as behind",
            Standing::Neither => "AS NEITHER",
        }
    }
}

/// Places that stand next to one another and have one outcome.
#[derive(Drop)]
pub struct Row {
    /// The number of the first, from 1.
    pub first: usize,
    /// The number of the last.
    pub last: usize,
    /// The name of the first.
    pub first_name: String,
    /// The name of the last.
    pub last_name: String,
    /// The longest wait at one of them.
    pub wait: usize,
}

/// An outcome, and where it comes.
#[derive(Drop)]
pub struct Group {
    /// The number of the outcome, from 0.
    pub outcome: usize,
    /// How it stands to those before and behind.
    pub standing: Standing,
    /// How many places have it.
    pub places: usize,
    /// The first rows of these places.
    pub rows: Vec<Row>,
    /// How many rows there are more.
    pub more: usize,
}

/// The range of a number.
fn range_at(ranges: &[Range], number: usize) -> Range
    requires { number < length ranges.now }
    ensures { slice_get ranges.now number ≡ Some result }
{
    ranges[number]
}

/// The moment that is told of at a place.
fn moment_at(moments: &[Moment], place: usize) -> Moment
    requires { place < length moments.now }
    ensures { slice_get moments.now place ≡ Some result }
{
    moments[place]
}

impl Swept {
    /// How an outcome stands to those before and behind the block.
    fn standing(&self, outcome: usize) -> Standing
        ensures { result ≡ standings.standing_of self.now outcome }
    {
        match (outcome == self.before, outcome == self.behind) {
            (true, true) => Standing::Both,
            (true, false) => Standing::Before,
            (false, true) => Standing::Behind,
            (false, false) => Standing::Neither,
        }
    }

    /// The number, from 1, and the name of one of the moments that are told of.
    fn named<R: Runs>(
        &self,
        alloc: Global,
        sweep: &Sweep<'_, R>,
        opened: &Opened,
        place: usize,
    ) -> Result<(usize, String), Stop>
        ensures number { IfOk result (λ r. IsNumberOf self.now place r.0) }
        ensures name { IfOk result (λ r. IsNamed (R.is_seen sweep.now.bench.runs.now) sweep.now.bench.following sweep.now.parts.swept.now opened.now self.now.moments.items place (string_bytes r.1)) }
        ensures stopped { IfErr result (Unless (StopsNaming (R.is_seen sweep.now.bench.runs.now) (R.at_limit sweep.now.bench.runs.now) sweep.now.bench.following sweep.now.parts.swept.now opened.now self.now.moments.items)) }
    {
        if self.moments.len() <= place {
            return Ok((0, String::new(alloc)));
        }
        let moment = moment_at(&self.moments, place);
        let name = sweep.name_of(alloc, opened, moment)?;
        Ok((moment.number.saturating_add(1), name))
    }

    /// A row of places.
    fn row<R: Runs>(
        &self,
        alloc: Global,
        sweep: &Sweep<'_, R>,
        opened: &Opened,
        range: Range,
    ) -> Result<Row, Stop>
        ensures row { IfOk result (λ row. IsRowAt (R.is_seen sweep.now.bench.runs.now) sweep.now.bench.following sweep.now.parts.swept.now opened.now self.now range row) }
        ensures stopped { IfErr result (Unless (StopsNaming (R.is_seen sweep.now.bench.runs.now) (R.at_limit sweep.now.bench.runs.now) sweep.now.bench.following sweep.now.parts.swept.now opened.now self.now.moments.items)) }
    {
        let (first, first_name) = self.named(alloc, sweep, opened, range.first)?;
        let (last, last_name) = self.named(alloc, sweep, opened, range.last)?;
        Ok(Row {
            first,
            last,
            first_name,
            last_name,
            wait: range.wait,
        })
    }

    /// An outcome with at most so many rows of its places.
    fn group<R: Runs>(
        &self,
        alloc: Global,
        sweep: &Sweep<'_, R>,
        opened: &Opened,
        outcome: usize,
        most: usize,
    ) -> Result<Group, Stop>
        ensures outcome { IfOk result (λ g. g.outcome ≡ outcome) }
        ensures standing { IfOk result (λ g. g.standing ≡ standings.standing_of self.now outcome) }
        ensures places { IfOk result (λ g. g.places ≡ spec.count_with outcome self.now.settled.items) }
        ensures rows { IfOk result (λ g. All (IsRowOf (R.is_seen sweep.now.bench.runs.now) sweep.now.bench.following sweep.now.parts.swept.now opened.now self.now outcome) g.rows.items) }
        ensures ranges { IfOk result (λ g. AreRowsOf (R.is_seen sweep.now.bench.runs.now) sweep.now.bench.following sweep.now.parts.swept.now opened.now self.now outcome most g.rows.items g.more) }
        ensures stopped { IfErr result (Unless (StopsNaming (R.is_seen sweep.now.bench.runs.now) (R.at_limit sweep.now.bench.runs.now) sweep.now.bench.following sweep.now.parts.swept.now opened.now self.now.moments.items)) }
    {
        let ranges = ranges(alloc, &self.settled, outcome)?;
        let shown = ranges.len().min(most);
        let mut rows = Vec::new(alloc);
        for place in 0..shown {
            let row = self.row(alloc, sweep, opened, range_at(&ranges, place))?;
            rows.push(row)?;
        }
        Ok(Group {
            outcome,
            standing: self.standing(outcome),
            places: count_with(&self.settled, outcome),
            rows,
            more: ranges.len() - shown,
        })
    }
}

/// The outcomes of a sweep, in the order of their first places, each with at most so many rows of places.
pub fn groups_of<R: Runs>(
    alloc: Global,
    sweep: &Sweep<'_, R>,
    opened: &Opened,
    swept: &Swept,
    most: usize,
) -> Result<Vec<Group>, Stop>
    ensures outcomes { IfOk result (λ groups. map (λ g. g.outcome) groups.items ≡ spec.numbers_in swept.now.settled.items) }
    ensures standings { IfOk result (λ groups. All (λ g. g.standing ≡ standings.standing_of swept.now g.outcome) groups.items) }
    ensures places { IfOk result (λ groups. map (λ g. g.places) groups.items ≡ map (λ n. spec.count_with n swept.now.settled.items) (spec.numbers_in swept.now.settled.items)) }
    ensures rows { IfOk result (λ groups. All (λ g. All (IsRowOf (R.is_seen sweep.now.bench.runs.now) sweep.now.bench.following sweep.now.parts.swept.now opened.now swept.now g.outcome) g.rows.items) groups.items) }
    ensures ranges { IfOk result (λ groups. All (λ g. AreRowsOf (R.is_seen sweep.now.bench.runs.now) sweep.now.bench.following sweep.now.parts.swept.now opened.now swept.now g.outcome most g.rows.items g.more) groups.items) }
    ensures all { IfOk result (λ groups. sum_by (λ g. g.places) groups.items ≡ vec_len swept.now.settled) }
    ensures stopped { IfErr result (Unless (StopsNaming (R.is_seen sweep.now.bench.runs.now) (R.at_limit sweep.now.bench.runs.now) sweep.now.bench.following sweep.now.parts.swept.now opened.now swept.now.moments.items)) }
{
    let mut groups = Vec::new(alloc);
    let numbers = numbers_in(alloc, &swept.settled)?;
    for number in &numbers {
        groups.push(swept.group(alloc, sweep, opened, *number, most)?)?;
    }
    Ok(groups)
}

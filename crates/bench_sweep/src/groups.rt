ghost use Rattle.std.specs.Prelude.{◌≡◌, ℕ, ◌+◌, ◌-◌, ◌<◌, ◌==◌, ◌++◌, ◌∷◌, [], List, None, Some, take, slice_get, length, IfOk, IfSome, IsTrue, OnOk};
ghost use Rattle.std.specs.List.{All};
ghost use Rattle.bench_sweep.specs.declared.groups.Settled as records;
ghost use Rattle.bench_sweep.specs.Groups as spec;

use std::alloc::{AllocError, Global};

/// What came of a place that was tried.
#[derive(Clone, Copy)]
pub struct Tried {
    /// The number of its outcome.
    pub outcome: usize,
    /// Whether what is placed there is held, and waits.
    pub waits: bool,
}

/// What comes of a place: what is placed waits up to the place where it gets in.
#[derive(Clone, Copy)]
pub struct Settled {
    /// The number of the outcome, which is that of the place where it gets in.
    pub outcome: usize,
    /// How many places it waits.
    pub wait: usize,
}

/// What comes of a place, by what comes of the next.
fn settled_before(tried: Tried, next: Option<Settled>) -> Settled
    requires { IfSome next (λ n. n.wait < 4294967296) }
    ensures { result ≡ spec.settled_by tried.waits tried.outcome next }
{
    match next {
        Some(next) if tried.waits => Settled {
            outcome: next.outcome,
            wait: next.wait + 1,
        },
        _ => Settled {
            outcome: tried.outcome,
            wait: 0,
        },
    }
}

/// What comes of each place. At the last one nothing waits.
pub fn settle(alloc: Global, tried: &[Tried]) -> Result<Vec<Settled>, AllocError>
    requires { length tried.now < 4294967296 }
    ensures { IfOk result (λ all. all.items ≡ spec.settled tried.now) }
{
    let mut backwards = Vec::new(alloc);
    let mut next = None;
    let mut place = tried.len();
    while 0 < place {
        place -= 1;
        let found = settled_before(tried[place], next);
        backwards.push(found)?;
        next = Some(found);
    }
    backwards.reverse();
    Ok(backwards)
}

/// Places that stand next to one another and have one outcome.
#[derive(Clone, Copy)]
pub struct Range {
    /// The first of them, from 0.
    pub first: usize,
    /// The last of them.
    pub last: usize,
    /// The longest wait at one of them.
    pub wait: usize,
}

impl Range {
    /// One place.
    fn of(place: usize, wait: usize) -> Range
        ensures is { result ≡ spec.one_place place wait }
        ensures first { result.first ≡ place }
        ensures last { result.last ≡ place }
    {
        Range {
            first: place,
            last: place,
            wait,
        }
    }

    /// One place more, behind the last.
    fn longer(self, place: usize, wait: usize) -> Range
        ensures is { result ≡ spec.longer self place wait }
        ensures first { result.first ≡ self.first }
        ensures last { result.last ≡ place }
    {
        Range {
            first: self.first,
            last: place,
            wait: self.wait.max(wait),
        }
    }

    /// Whether a place is the next one.
    fn is_before(self, place: usize) -> bool
        ensures is { result ≡ (self.last + 1 == place) }
        ensures next { IsTrue result → self.last + 1 ≡ place }
    {
        0 < place && self.last == place - 1
    }
}

/// The range of a place that has an outcome, which goes on with the last range where it stands next to that.
fn range_with(last: Option<Range>, place: usize, wait: usize) -> Range
    ensures is { result ≡ spec.range_with last place wait }
    ensures each { (settled : List records.Settled) (outcome : ℕ) (s : records.Settled) → slice_get settled place ≡ Some s → s.outcome ≡ outcome → IfSome last (λ r. spec.IsRangeOf settled outcome r) → spec.IsRangeOf settled outcome result }
{
    match last {
        Some(last) if last.is_before(place) => last.longer(place, wait),
        _ => Range::of(place, wait),
    }
}

/// Whether a place stands next to the last range.
fn goes_on(last: Option<Range>, place: usize) -> bool
    ensures { result ≡ spec.goes_on last place }
{
    match last {
        Some(last) => last.is_before(place),
        None => false,
    }
}

/// The last range.
fn last_of(ranges: &[Range]) -> Option<Range>
    ensures none { result ≡ None → ranges.now ≡ [] }
    ensures some { IfSome result (λ r. ranges.now ≡ take (length ranges.now - 1) ranges.now ++ r ∷ []) }
    ensures each { (settled : List records.Settled) (outcome : ℕ) → All (spec.IsRangeOf settled outcome) ranges.now → IfSome result (λ r. spec.IsRangeOf settled outcome r) }
{
    let count = ranges.len();
    if count == 0 {
        return None;
    }
    Some(ranges[count - 1])
}

/// Drops the last range, where a longer one takes its place.
fn make_way(ranges: &mut Vec<Range>, goes_on: bool)
    ensures is { ranges.new.items ≡ spec.cut_last goes_on ranges.old.items }
    ensures each { (settled : List records.Settled) (outcome : ℕ) → All (spec.IsRangeOf settled outcome) ranges.old.items → All (spec.IsRangeOf settled outcome) ranges.new.items }
{
    if goes_on {
        ranges.truncate(ranges.len().saturating_sub(1));
    }
}

/// Keeps a place that has an outcome, in the last range where it stands next to that.
fn keep_place(ranges: &mut Vec<Range>, place: usize, wait: usize) -> Result<(), AllocError>
    ensures is { OnOk result (ranges.new.items ≡ spec.with_place ranges.old.items place wait) }
    ensures each { OnOk result ((settled : List records.Settled) (outcome : ℕ) (s : records.Settled) → slice_get settled place ≡ Some s → s.outcome ≡ outcome → All (spec.IsRangeOf settled outcome) ranges.old.items → All (spec.IsRangeOf settled outcome) ranges.new.items) }
{
    let last = last_of(ranges);
    let range = range_with(last, place, wait);
    make_way(ranges, goes_on(last, place));
    ranges.push(range)?;
    Ok(())
}

/// What came of the place of a number.
fn settled_at(settled: &[Settled], place: usize) -> Settled
    requires { place < length settled.now }
    ensures { slice_get settled.now place ≡ Some result }
{
    settled[place]
}

/// Keeps a place where it has an outcome.
fn keep_where(
    ranges: &mut Vec<Range>,
    settled: &[Settled],
    place: usize,
    outcome: usize,
) -> Result<(), AllocError>
    requires { place < length settled.now }
    ensures is { OnOk result ((s : records.Settled) → slice_get settled.now place ≡ Some s → ranges.new.items ≡ spec.with_settled outcome ranges.old.items place s) }
    ensures each { OnOk result (All (spec.IsRangeOf settled.now outcome) ranges.old.items → All (spec.IsRangeOf settled.now outcome) ranges.new.items) }
{
    let found = settled_at(settled, place);
    if found.outcome != outcome {
        return Ok(());
    }
    keep_place(ranges, place, found.wait)?;
    Ok(())
}

/// The ranges of the places that have an outcome.
pub fn ranges(alloc: Global, settled: &[Settled], outcome: usize) -> Result<Vec<Range>, AllocError>
    ensures is { IfOk result (λ ranges. ranges.items ≡ spec.ranges_of outcome settled.now) }
    ensures each { IfOk result (λ ranges. All (spec.IsRangeOf settled.now outcome) ranges.items) }
{
    let mut ranges = Vec::new(alloc);
    for place in 0..settled.len() {
        keep_where(&mut ranges, settled, place, outcome)?;
    }
    Ok(ranges)
}

/// How many places have an outcome.
pub fn count_with(settled: &[Settled], outcome: usize) -> usize
    ensures { result ≡ spec.count_with outcome settled.now }
{
    settled
        .iter()
        .filter(|found| outcome == found.outcome)
        .count()
}

/// Keeps a number where it is not among others.
fn keep_number(numbers: &mut Vec<usize>, number: usize) -> Result<(), AllocError>
    ensures { OnOk result (numbers.new.items ≡ spec.with_number number numbers.old.items) }
{
    if !numbers.contains(&number) {
        numbers.push(number)?;
    }
    Ok(())
}

/// The outcomes that there are at some place, in the order of their first places.
pub fn numbers_in(alloc: Global, settled: &[Settled]) -> Result<Vec<usize>, AllocError>
    ensures { IfOk result (λ numbers. numbers.items ≡ spec.numbers_in settled.now) }
{
    let mut numbers = Vec::new(alloc);
    for found in settled {
        keep_number(&mut numbers, found.outcome)?;
    }
    Ok(numbers)
}

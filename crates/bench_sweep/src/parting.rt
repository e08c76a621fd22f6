ghost use Rattle.std.specs.Prelude.{◌≡◌, ◌≤◌, ◌<◌, ◌++◌, nat_lt, length, IfOk, IfSome, MatchResult};
ghost use Rattle.std.specs.List.{position};
ghost use Rattle.bench_sweep.specs.Parts as spec;

use crate::fault::SweepFault;
use crate::marking::{Mark, Marks};
use mcal_base::Directive;

/// The parts of a sweep's script.
#[derive(Clone, Copy)]
pub struct Parts<'a> {
    /// What runs before the block.
    pub before: &'a [Directive],
    /// What is placed.
    pub swept: &'a [Directive],
    /// What is placed a second time: nothing where all is placed once.
    pub second: &'a [Directive],
    /// What it is placed in.
    pub block: &'a [Directive],
    /// What runs behind the block.
    pub behind: &'a [Directive],
}

/// The place of the first directive below a line.
fn first_below(directives: &[Directive], line: u32) -> Option<usize>
    ensures place { result ≡ position (λ d. nat_lt line d.line) directives.now }
    ensures within { IfSome result (λ n. n < length directives.now) }
{
    directives
        .iter()
        .position(|directive| line < directive.line)
}

/// How many directives stand above the first that is below a line.
fn count_above(directives: &[Directive], line: u32) -> usize
    ensures is { result ≡ spec.count_above line directives.now }
    ensures within { result ≤ length directives.now }
{
    match first_below(directives, line) {
        Some(place) => place,
        None => directives.len(),
    }
}

/// The directives above a line, and those from the first on that is below it.
fn parted(directives: &[Directive], line: u32) -> (&[Directive], &[Directive])
    ensures above { result.0.now ≡ spec.above line directives.now }
    ensures below { result.1.now ≡ spec.below line directives.now }
    ensures all { directives.now ≡ result.0.now ++ result.1.now }
{
    let count = count_above(directives, line);
    (&directives[..count], &directives[count..])
}

/// The parts between these marks.
fn parted_at(directives: &[Directive], marks: Marks) -> Parts<'_>
    ensures is { spec.pieces_of result ≡ spec.pieces_between directives.now marks }
    ensures all { directives.now ≡ result.before.now ++ result.swept.now ++ result.second.now ++ result.block.now ++ result.behind.now }
{
    let (before, rest) = parted(directives, marks.sweep);
    let (placed, rest) = parted(rest, marks.over);
    let (block, behind) = parted(rest, marks.end);
    let (swept, second) = parted(placed, marks.second.unwrap_or(marks.over));
    Parts {
        before,
        swept,
        second,
        block,
        behind,
    }
}

/// The parts of a script that has these marks. What is placed, and what it is placed in, has a directive at least.
pub fn parts_of(directives: &[Directive], marks: Marks) -> Result<Parts<'_>, SweepFault>
    ensures is { MatchResult result (λ p. spec.parts directives.now marks ≡ Ok (spec.pieces_of p)) (λ fault. spec.parts directives.now marks ≡ Err fault) }
    ensures all { IfOk result (λ p. directives.now ≡ p.before.now ++ p.swept.now ++ p.second.now ++ p.block.now ++ p.behind.now) }
    ensures swept { IfOk result (λ p. 0 < length p.swept.now) }
    ensures block { IfOk result (λ p. 0 < length p.block.now) }
{
    let parts = parted_at(directives, marks);
    if parts.swept.is_empty() {
        return Err(SweepFault::Empty(marks.sweep, Mark::Sweep));
    }
    if let Some(line) = marks.second {
        if parts.second.is_empty() {
            return Err(SweepFault::Empty(line, Mark::And));
        }
    }
    if parts.block.is_empty() {
        return Err(SweepFault::Empty(marks.over, Mark::Over));
    }
    Ok(parts)
}

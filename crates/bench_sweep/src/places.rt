ghost use Rattle.std.specs.Prelude.{◌≡◌, ◌++◌, ◌<◌, length, IfOk, OnOk};
ghost use Rattle.std.specs.List.{All};
ghost use Rattle.bench_sweep.specs.Places as spec;

use mcal_base::{Directive, Order};
use std::alloc::{AllocError, Global};

/// Where something stands by a directive.
#[derive(Clone, Copy)]
pub enum Spot {
    /// Before it.
    Before,
    /// Behind the beginning of its frame, before the first step of that.
    Begun,
    /// Behind so many of its steps.
    Step(u32),
    /// Behind it.
    Behind,
}

/// A place in a block.
#[derive(Clone, Copy)]
pub struct BlockPlace {
    /// Which directive of the block, from 0.
    pub directive: usize,
    /// Where by that directive.
    pub spot: Spot,
}

/// Whether a directive begins a frame and steps it.
pub fn begins_frame(order: &Order) -> bool
    ensures { result ≡ spec.begins_frame order.now }
{
    matches!(order, Order::Do(..) | Order::Serve(_))
}

/// Keeps the place behind the beginning of a frame, where an order begins one.
fn keep_begun(all: &mut Vec<BlockPlace>, directive: usize, order: &Order) -> Result<(), AllocError>
    ensures { OnOk result (all.new.items ≡ all.old.items ++ spec.when_begun directive order.now) }
{
    if begins_frame(order) {
        all.push(BlockPlace {
            directive,
            spot: Spot::Begun,
        })?;
    }
    Ok(())
}

/// Keeps the places of a directive that makes so many steps.
#[tactic(auto, using(crate::proofs::Placed::places_by_some))]
fn places_of(
    all: &mut Vec<BlockPlace>,
    directive: usize,
    order: &Order,
    steps: u32,
) -> Result<(), AllocError>
    ensures { OnOk result (all.new.items ≡ all.old.items ++ spec.places_by directive order.now steps) }
{
    if steps == 0 {
        all.push(BlockPlace {
            directive,
            spot: Spot::Behind,
        })?;
        return Ok(());
    }
    keep_begun(all, directive, order)?;
    for made in 0..steps {
        all.push(BlockPlace {
            directive,
            spot: Spot::Step(made + 1),
        })?;
    }
    Ok(())
}

/// All places in a block whose directives make so many steps each: before the block, behind a directive that makes no
/// step, behind the beginning of a frame, and behind each step.
#[tactic(auto, using(crate::proofs::Placed::places_are_by))]
pub fn places_in(
    alloc: Global,
    block: &[Directive],
    steps: &[u32],
) -> Result<Vec<BlockPlace>, AllocError>
    requires { length steps.now ≡ length block.now }
    ensures all { IfOk result (λ all. all.items ≡ spec.places block.now steps.now) }
    ensures by { 0 < length block.now → IfOk result (λ all. All (spec.IsBy (length block.now)) all.items) }
{
    let mut all = Vec::new(alloc);
    all.push(BlockPlace {
        directive: 0,
        spot: Spot::Before,
    })?;
    for number in 0..block.len() {
        places_of(&mut all, number, &block[number].order, steps[number])?;
    }
    Ok(all)
}

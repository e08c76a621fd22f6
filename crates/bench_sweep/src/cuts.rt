ghost use Rattle.std.specs.Prelude.{◌≡◌, ◌<◌, ◌+◌, ◌++◌, ◌∷◌, [], length, Some, IfOk, OnOk, slice_get};
ghost use Rattle.bench_sweep.specs.Cuts as spec;
ghost use Rattle.bench_sweep.specs.Placed.{block_on, block_up};

use crate::copies::{copied, copied_request, copy_behind};
use crate::places::{BlockPlace, Spot};
use mcal_base::{Directive, Order};
use std::alloc::{AllocError, Global};

/// A block that is cut at a place.
#[derive(Drop)]
pub struct Cut {
    /// What runs up to there.
    pub up: Vec<Directive>,
    /// What runs from there on.
    pub on: Vec<Directive>,
}

/// What begins the frame of an order, where it begins one and steps it.
fn beginning_of(order: &Order) -> Option<Order>
    ensures { result ≡ spec.beginning_of order.now }
{
    match order {
        Order::Do(level, request) => Some(Order::Call(*level, copied_request(request))),
        Order::Serve(line) => Some(Order::Enter(*line)),
        _ => None,
    }
}

/// What makes the rest of an order's steps behind so many of them.
fn rest_of(alloc: Global, order: &Order, made: u32) -> Result<Order, AllocError>
    ensures { IfOk result (λ rest. rest ≡ spec.rest_of order.now made) }
{
    match order {
        Order::Do(..) | Order::Serve(_) => Ok(Order::Finish),
        Order::Run(steps) => Ok(Order::Run(steps.saturating_sub(made))),
        _ => copied(alloc, order),
    }
}

impl Cut {
    /// A directive that stands up to the place.
    fn push_up(&mut self, line: u32, order: Order) -> Result<(), AllocError>
        ensures up { OnOk result (self.new.up.items ≡ self.old.up.items ++ record { line = line; order = order } ∷ []) }
        ensures on { self.new.on ≡ self.old.on }
    {
        self.up.push(Directive { line, order })?;
        Ok(())
    }

    /// A directive that stands from the place on.
    fn push_on(&mut self, line: u32, order: Order) -> Result<(), AllocError>
        ensures on { OnOk result (self.new.on.items ≡ self.old.on.items ++ record { line = line; order = order } ∷ []) }
        ensures up { self.new.up ≡ self.old.up }
    {
        self.on.push(Directive { line, order })?;
        Ok(())
    }

    /// Cuts a directive of so many steps behind some of them, or behind the beginning of its frame.
    fn split(&mut self, directive: &Directive, made: u32, steps: u32) -> Result<(), AllocError>
        ensures up { OnOk result (self.new.up.items ≡ self.old.up.items ++ spec.on_line directive.now.line (spec.orders_up directive.now.order made)) }
        ensures on { OnOk result (self.new.on.items ≡ self.old.on.items ++ spec.on_line directive.now.line (spec.orders_on directive.now.order made steps)) }
    {
        let alloc = *self.on.allocator();
        if let Some(beginning) = beginning_of(&directive.order) {
            self.push_up(directive.line, beginning)?;
        }
        if 0 < made {
            self.push_up(directive.line, Order::Run(made))?;
        }
        if made < steps {
            self.push_on(directive.line, rest_of(alloc, &directive.order, made)?)?;
        }
        Ok(())
    }

    /// Puts a directive of so many steps there, cut at the spot.
    fn at(&mut self, directive: &Directive, spot: Spot, steps: u32) -> Result<(), AllocError>
        ensures up { OnOk result (self.new.up.items ≡ self.old.up.items ++ spec.up_by spot directive.now) }
        ensures on { OnOk result (self.new.on.items ≡ self.old.on.items ++ spec.on_by steps spot directive.now) }
    {
        let alloc = *self.on.allocator();
        match spot {
            Spot::Before => self.push_on(directive.line, copied(alloc, &directive.order)?),
            Spot::Begun => self.split(directive, 0, steps),
            Spot::Step(made) => self.split(directive, made, steps),
            Spot::Behind => self.push_up(directive.line, copied(alloc, &directive.order)?),
        }
    }
}

/// The directive at a place.
fn directive_at(block: &[Directive], at: usize) -> &Directive
    requires { at < length block.now }
    ensures { slice_get block.now at ≡ Some result.now }
{
    &block[at]
}

/// The number at a place.
fn number_at(numbers: &[u32], at: usize) -> u32
    requires { at < length numbers.now }
    ensures { slice_get numbers.now at ≡ Some result }
{
    numbers[at]
}

/// A block that is cut at a place; its directives make so many steps each.
pub fn cut_block(
    alloc: Global,
    block: &[Directive],
    steps: &[u32],
    place: BlockPlace,
) -> Result<Cut, AllocError>
    requires same { length steps.now ≡ length block.now }
    requires there { place.directive < length block.now }
    ensures up { IfOk result (λ cut. cut.up.items ≡ block_up block.now place) }
    ensures on { IfOk result (λ cut. cut.on.items ≡ block_on block.now steps.now place) }
{
    let mut cut = Cut {
        up: Vec::new(alloc),
        on: Vec::new(alloc),
    };
    copy_behind(&mut cut.up, &block[..place.directive])?;
    let directive = directive_at(block, place.directive);
    let made = number_at(steps, place.directive);
    cut.at(directive, place.spot, made)?;
    copy_behind(&mut cut.on, &block[place.directive + 1..])?;
    Ok(cut)
}

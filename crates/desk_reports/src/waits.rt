use crate::parts::{ReportLine, lines_at};
use mcal_base::{Directive, Order};
use std::alloc::{AllocError, Global};

/// How long a handler had to wait that was asked for and held.
#[derive(Clone, Copy)]
pub struct Wait {
    /// The interrupt line.
    pub line: u32,
    /// The script line in which it was asked for first.
    pub asked: u32,
    /// The script line in which it began, if it did.
    pub began: Option<u32>,
    /// The steps of other frames in between.
    pub steps: u64,
    /// The ticks of the oscillator in between.
    pub ticks: u64,
}

/// The line whose handler an order asks for.
fn line_of(order: &Order) -> Option<u32> {
    match order {
        Order::Enter(line) | Order::Serve(line) => Some(*line),
        _ => None,
    }
}

/// The ticks that pass by an order.
fn ticks_of(order: &Order) -> u64 {
    match order {
        Order::Tick(ticks) => *ticks as u64,
        _ => 0,
    }
}

/// Whether a cause passes by itself, so that who is held by it waits.
fn passes(text: &str) -> bool {
    matches!(text, "held masked" | "held level" | "held full")
}

/// The ticks that a step waits by a line of a report.
fn stalled(text: &str) -> u64 {
    match text.strip_prefix("stall ") {
        Some(ticks) => ticks.parse::<u64>().unwrap_or(0),
        None => 0,
    }
}

/// Adds what passed to the waits that go on.
fn pass(waits: &mut [Wait], steps: u64, ticks: u64) {
    for wait in waits.iter_mut() {
        if wait.began.is_none() {
            wait.steps = wait.steps.saturating_add(steps);
            wait.ticks = wait.ticks.saturating_add(ticks);
        }
    }
}

/// Whether a line waits.
fn is_waiting(waits: &[Wait], line: u32) -> bool {
    for wait in waits {
        if wait.line == line && wait.began.is_none() {
            return true;
        }
    }
    false
}

/// Has a line wait no longer.
fn end_wait(waits: &mut [Wait], line: u32, began: u32) {
    for wait in waits.iter_mut() {
        if wait.line == line && wait.began.is_none() {
            wait.began = Some(began);
        }
    }
}

/// Looks at a directive that asks for a handler: whether it begins, or waits from here on.
fn asked(
    waits: &mut Vec<Wait>,
    line: u32,
    number: u32,
    told: &[ReportLine<'_>],
) -> Result<(), AllocError> {
    let Some(first) = told.first() else {
        return Ok(());
    };
    if passes(first.text) {
        if !is_waiting(waits, line) {
            waits.push(Wait {
                line,
                asked: number,
                began: None,
                steps: 0,
                ticks: 0,
            })?;
        }
    } else if !first.text.starts_with("held ") {
        end_wait(waits, line, number);
    }
    Ok(())
}

/// The waits of a traced run, in the order in which they began.
pub fn waits_in(
    alloc: Global,
    script: &[Directive],
    report: &[ReportLine<'_>],
) -> Result<Vec<Wait>, AllocError> {
    let mut waits = Vec::new(alloc);
    let mut place = 0usize;
    for directive in script {
        let own = lines_at(&*report, place, directive.line);
        place = place.saturating_add(own.len());
        if let Some(line) = line_of(&directive.order) {
            asked(&mut waits, line, directive.line, own)?;
        }
        let mut steps = 0u64;
        let mut ticks = ticks_of(&directive.order);
        for line in own {
            if line.text.starts_with("step ") {
                steps = steps.saturating_add(1);
            }
            ticks = ticks.saturating_add(stalled(line.text));
        }
        pass(&mut waits, steps, ticks);
    }
    Ok(waits)
}

use crate::parts::{ReportLine, lines_at};
use mcal_base::{Directive, Order, Service};
use std::alloc::{AllocError, Global};

/// What a frame is of.
#[derive(Clone, Copy)]
pub enum FrameName {
    /// A call of a service.
    Call(Service),
    /// The handler of a line.
    Handler(u32),
}

/// What the frames of one name did in a run.
#[derive(Clone, Copy)]
pub struct FrameTally {
    /// What they are of.
    pub name: FrameName,
    /// How many ended.
    pub ended: usize,
    /// The fewest steps of one that ended.
    pub fewest: usize,
    /// The most steps of one.
    pub most: usize,
    /// How many windows they had.
    pub windows: usize,
    /// The most moves of a window, its first and last ones among them.
    pub longest: usize,
    /// The most steps that one may make.
    pub bound: u32,
}

/// A frame that is under way.
#[derive(Clone, Copy)]
struct Open {
    name: FrameName,
    bound: u32,
    steps: usize,
    /// The moves of the window that is open, 0 where none is.
    window: usize,
}

/// Counts of a run.
#[derive(Drop)]
pub struct Tallies {
    /// One for each name, in the order in which they first began.
    pub frames: Vec<FrameTally>,
    /// How often directives were held, by cause, in the order in which these first came.
    pub held: Vec<(String, usize)>,
    /// All steps.
    pub steps: usize,
    open: Vec<Open>,
}

/// Whether two frames are of the same.
fn is_same(one: FrameName, other: FrameName) -> bool {
    match (one, other) {
        (FrameName::Call(one), FrameName::Call(other)) => one.text() == other.text(),
        (FrameName::Handler(one), FrameName::Handler(other)) => one == other,
        _ => false,
    }
}

/// The frame that an order begins.
fn begun_by(order: &Order) -> Option<FrameName> {
    match order {
        Order::Call(_, request) | Order::Do(_, request) => Some(FrameName::Call(request.service)),
        Order::Enter(line) | Order::Serve(line) => Some(FrameName::Handler(*line)),
        _ => None,
    }
}

/// The place of the tally of a name.
fn place_of_name(frames: &[FrameTally], name: FrameName) -> Option<usize> {
    for (place, tally) in frames.iter().enumerate() {
        if is_same(tally.name, name) {
            return Some(place);
        }
    }
    None
}

/// The place of the count of a cause.
fn place_of_cause(held: &[(String, usize)], cause: &str) -> Option<usize> {
    for (place, (other, _)) in held.iter().enumerate() {
        if other.as_str() == cause {
            return Some(place);
        }
    }
    None
}

impl Tallies {
    /// The tally of a name, begun where there is none.
    fn tally_of(&mut self, open: Open) -> Result<usize, AllocError> {
        if let Some(place) = place_of_name(&self.frames, open.name) {
            return Ok(place);
        }
        self.frames.push(FrameTally {
            name: open.name,
            ended: 0,
            fewest: usize::MAX,
            most: 0,
            windows: 0,
            longest: 0,
            bound: open.bound,
        })?;
        Ok(self.frames.len().saturating_sub(1))
    }

    /// Counts a window that was closed.
    fn count_window(&mut self, open: Open) -> Result<(), AllocError> {
        let place = self.tally_of(open)?;
        if let Some(tally) = self.frames.get_mut(place) {
            tally.windows = tally.windows.saturating_add(1);
            tally.longest = tally.longest.max(open.window);
        }
        Ok(())
    }

    /// Counts a frame that ended, or that a reset dropped.
    fn count_frame(&mut self, open: Open, has_ended: bool) -> Result<(), AllocError> {
        let place = self.tally_of(open)?;
        if let Some(tally) = self.frames.get_mut(place) {
            tally.most = tally.most.max(open.steps);
            tally.bound = tally.bound.max(open.bound);
            if has_ended {
                tally.ended = tally.ended.saturating_add(1);
                tally.fewest = tally.fewest.min(open.steps);
            }
        }
        Ok(())
    }

    /// Counts a step of the topmost frame.
    fn step(&mut self, made: &str) -> Result<(), AllocError> {
        self.steps = self.steps.saturating_add(1);
        let Some(mut open) = self.open.pop() else {
            return Ok(());
        };
        open.steps = open.steps.saturating_add(1);
        if open.window > 0 {
            open.window = open.window.saturating_add(1);
        } else if made == "mask" {
            open.window = 1;
        }
        if made == "unmask" {
            self.count_window(open)?;
            open.window = 0;
        }
        self.open.push(open)?;
        Ok(())
    }

    /// Counts a cause for which a directive was held.
    fn hold(&mut self, alloc: Global, cause: &str) -> Result<(), AllocError> {
        match place_of_cause(&self.held, cause) {
            Some(place) => {
                if let Some((_, count)) = self.held.get_mut(place) {
                    *count = count.saturating_add(1);
                }
            }
            None => self.held.push((String::from_str(alloc, cause)?, 1))?,
        }
        Ok(())
    }

    /// Counts what a line of a report tells.
    fn line(&mut self, alloc: Global, text: &str) -> Result<(), AllocError> {
        if let Some(cause) = text.strip_prefix("held ") {
            return self.hold(alloc, cause);
        }
        if let Some(step) = text.strip_prefix("step ") {
            return self.step(made_by(step));
        }
        if text.starts_with("return ") || text.starts_with("left ") {
            if let Some(open) = self.open.pop() {
                self.count_frame(open, true)?;
            }
        }
        if text.starts_with("reset ") {
            self.drop_all()?;
        }
        Ok(())
    }

    /// Counts the frames that are under way as such as don't end.
    fn drop_all(&mut self) -> Result<(), AllocError> {
        for _ in 0..self.open.len() {
            if let Some(open) = self.open.pop() {
                self.count_frame(open, false)?;
            }
        }
        Ok(())
    }
}

/// The name of the move that a step made, by what stands behind its word.
fn made_by(step: &str) -> &str {
    match step.split_once(' ') {
        Some((_, made)) => first_word(made),
        None => "",
    }
}

/// The first word of a text.
fn first_word(text: &str) -> &str {
    match text.split_once(' ') {
        Some((word, _)) => word,
        None => text,
    }
}

/// Whether lines of a report say that their directive was held.
fn is_held(lines: &[ReportLine<'_>]) -> bool {
    match lines.first() {
        Some(line) => line.text.starts_with("held "),
        None => false,
    }
}

/// Counts what the report of a traced run tells. The bounds are those of the frames that the directives begin, in their
/// order; 0 stands for none.
pub fn tally(
    alloc: Global,
    script: &[Directive],
    bounds: &[u32],
    report: &[ReportLine<'_>],
) -> Result<Tallies, AllocError> {
    let mut tallies = Tallies {
        frames: Vec::new(alloc),
        held: Vec::new(alloc),
        steps: 0,
        open: Vec::new(alloc),
    };
    let mut place = 0usize;
    for (directive, bound) in script.iter().zip(bounds) {
        let own = lines_at(&*report, place, directive.line);
        place = place.saturating_add(own.len());
        if let (Some(name), false) = (begun_by(&directive.order), is_held(own)) {
            tallies.open.push(Open {
                name,
                bound: *bound,
                steps: 0,
                window: 0,
            })?;
        }
        for line in own {
            tallies.line(alloc, line.text)?;
        }
    }
    tallies.drop_all()?;
    Ok(tallies)
}

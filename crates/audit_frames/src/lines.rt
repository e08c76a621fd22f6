ghost use Rattle.std.specs.Prelude.{◌≡◌};
ghost use Rattle.audit_frames.specs.LineRules as spec;

use crate::bits::{has_any, has_bit, includes, with_bit, with_bits};
use crate::terms::{Around, Task};
use mcal_base::Event;

/// What a frame has done with lines, as masks: those that its call polled where it acted, those that it served, and, of those
/// that are asked for, those that weren't ready at one of its steps.
#[derive(Clone, Copy)]
pub struct Lines {
    /// Polled.
    pub polled: u64,
    /// Served.
    pub served: u64,
    /// Not ready.
    pub missed: u64,
    /// Whether one was served.
    pub has_served: bool,
}

/// The lines that were polled, after an event.
fn polled_after(task: Task, polled: u64, event: Option<Event>, polls: &[u32]) -> u64
    ensures { result ≡ spec.polled_after task polled event polls.now }
{
    match task {
        Task::Call(_) => match event {
            Some(Event::Act) => with_bits(0, polls),
            _ => polled,
        },
        Task::Line(_) => polled,
    }
}

/// Whether the line is one that is polled, and neither it nor one that comes after it was served.
fn is_next(polls: &[u32], served: u64, line: u32) -> bool
    ensures { result ≡ spec.is_next polls.now served line }
{
    match polls {
        [] => false,
        [first, rest @ ..] => {
            if *first == line {
                !has_any(served, polls)
            } else {
                is_next(rest, served, line)
            }
        }
    }
}

impl Lines {
    /// Nothing was done yet.
    pub(crate) fn none() -> Lines
        ensures { result ≡ spec.lines_none }
    {
        Lines {
            polled: 0,
            served: 0,
            missed: 0,
            has_served: false,
        }
    }

    /// After a step with this event, before which these lines weren't ready.
    pub(crate) fn after(
        &self,
        task: Task,
        event: Option<Event>,
        polls: &[u32],
        unready: u64,
    ) -> Lines
        ensures { result ≡ spec.lines_after self.now task event polls.now unready }
    {
        let polled = polled_after(task, self.polled, event, polls);
        let missed = self.missed | unready;
        match event {
            Some(Event::Serve(line)) => Lines {
                polled,
                served: with_bit(self.served, line),
                missed,
                has_served: true,
            },
            _ => Lines {
                polled,
                served: self.served,
                missed,
                has_served: self.has_served,
            },
        }
    }

    /// Whether a frame may serve a line: a call one that it polls, in their order, and with no notice owed, a handler its own,
    /// once.
    pub(crate) fn may_serve(&self, task: Task, polls: &[u32], line: u32, owes: bool) -> bool
        ensures { result ≡ spec.may_serve self.now task polls.now line owes }
    {
        match task {
            Task::Call(_) => is_next(polls, self.served, line) && !owes,
            Task::Line(own) => line == own && !self.has_served,
        }
    }

    /// Whether each line was met that has to be: it was served, or wasn't ready at a step of the frame.
    pub(crate) fn are_met(&self, task: Task) -> bool
        ensures { result ≡ spec.are_met self.now task }
    {
        let met = self.served | self.missed;
        match task {
            Task::Call(_) => includes(self.polled, met),
            Task::Line(own) => has_bit(met, own),
        }
    }

    /// Whether no unit waits whose line was served.
    pub(crate) fn are_left(&self, task: Task, around: &Around) -> bool
        ensures { result ≡ spec.are_left self.now task around.now.calm }
    {
        match task {
            Task::Call(_) => includes(self.polled & self.served, around.calm),
            Task::Line(own) => !has_bit(self.served, own) || has_bit(around.calm, own),
        }
    }
}

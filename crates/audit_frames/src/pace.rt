ghost use Rattle.std.specs.Prelude.{◌≡◌, ◌<◌, ◌||◌};
ghost use Rattle.std.specs.Bool.{OnTrue};
ghost use Rattle.run_model.specs.Frame.{is_act, inside_after, acts_after, window_after, is_note};
ghost use Rattle.audit_frames.specs.PaceRules as spec;

use crate::terms::Terms;
use mcal_base::{Event, Move};

/// Where a frame stands in its steps and windows.
#[derive(Clone, Copy)]
pub struct Pace {
    /// Whether it holds the mask closed.
    pub inside: bool,
    /// Whether it acted since it last closed or opened the mask.
    pub acts_since: bool,
    /// Its steps.
    pub steps: u32,
    /// The moves of its present or latest window.
    pub window: u32,
    /// Whether its last move is a notice.
    pub noted: bool,
}

/// Whether the event is the act of a call.
pub(crate) fn is_act(event: Option<Event>) -> bool
    ensures { result ≡ is_act event }
{
    matches!(event, Some(Event::Act))
}

fn is_note(made: &Move) -> bool
    ensures { result ≡ is_note made.now }
{
    matches!(made, Move::Note(_))
}

fn inside_after(inside: bool, made: &Move) -> bool
    ensures { result ≡ inside_after inside made.now }
{
    match *made {
        Move::Mask => true,
        Move::Unmask => false,
        _ => inside,
    }
}

fn acts_after(acts: bool, made: &Move, event: Option<Event>) -> bool
    ensures { result ≡ acts_after acts made.now event }
{
    match *made {
        Move::Mask => is_act(event),
        Move::Unmask => false,
        _ => acts || is_act(event),
    }
}

/// The moves of a window, with this one where it is inside.
fn window_after(inside: bool, window: u32, made: &Move) -> u64
    ensures { result ≡ window_after inside window made.now }
{
    match *made {
        Move::Mask => 1,
        Move::Unmask => window as u64 + 1,
        _ => {
            if inside {
                window as u64 + 1
            } else {
                window as u64
            }
        }
    }
}

impl Pace {
    /// Before the first step.
    pub(crate) fn none() -> Pace
        ensures { result ≡ spec.pace_none }
    {
        Pace {
            inside: false,
            acts_since: false,
            steps: 0,
            window: 0,
            noted: false,
        }
    }

    /// Whether it acted since it last closed or opened the mask, with this event.
    pub(crate) fn has_acted(&self, event: Option<Event>) -> bool
        ensures { result ≡ (self.now.acts_since || is_act event) }
    {
        self.acts_since || is_act(event)
    }

    /// Whether there is room for a step with this move, in all and in its window.
    pub(crate) fn has_room(&self, terms: &Terms, made: &Move) -> bool
        ensures is { result ≡ spec.has_room self.now terms.now made.now }
        ensures steps { OnTrue result (self.now.steps < 4294967295) }
        ensures window { OnTrue result (window_after self.now.inside self.now.window made.now < 4294967296) }
    {
        self.steps < terms.steps
            && window_after(self.inside, self.window, made) <= terms.window as u64
    }

    /// After a step for which there was room.
    pub(crate) fn after(&self, made: &Move, event: Option<Event>) -> Pace
        requires steps { self.now.steps < 4294967295 }
        requires window { window_after self.now.inside self.now.window made.now < 4294967296 }
        ensures { result ≡ spec.pace_after self.now made.now event }
    {
        Pace {
            inside: inside_after(self.inside, made),
            acts_since: acts_after(self.acts_since, made, event),
            steps: self.steps + 1,
            window: window_after(self.inside, self.window, made) as u32,
            noted: is_note(made),
        }
    }

    /// Whether the frame can make one more step within its bounds.
    pub(crate) fn is_going(&self, terms: &Terms) -> bool
        ensures { result ≡ spec.is_going self.now terms.now }
    {
        self.steps < terms.steps && (!self.inside || self.window < terms.window)
    }
}

ghost use Rattle.std.specs.Prelude.{◌≡◌, ◌&&◌, ◌||◌};
ghost use Rattle.report_steps.specs.Reaching as spec;

use mcal_base::{Event, Move, Reg, Stop};
use run_model::StopCondition;

/// A step that was made.
#[derive(Clone, Copy)]
pub struct Made {
    /// Its move.
    pub made: Move,
    /// The event that stands at it.
    pub event: Option<Event>,
    /// Whether the frame ended with it.
    pub ended: bool,
}

impl Made {
    /// Whether `upto` stops at it.
    fn stops_at(&self, stop: Stop) -> bool
        ensures { result ≡ spec.stops_at stop self.now }
    {
        match stop {
            Stop::Act => matches!(self.event, Some(Event::Act)),
            Stop::Mask => matches!(self.made, Move::Mask),
            Stop::Unmask => matches!(self.made, Move::Unmask),
            Stop::Note => matches!(self.made, Move::Note(_)),
        }
    }

    /// Whether a directive stops after it, with which so many were made.
    fn is_reached(&self, reach: StopCondition, count: u64) -> bool
        ensures { result ≡ spec.is_reached reach count self.now }
    {
        match reach {
            StopCondition::Count(most) => count == most as u64,
            StopCondition::Until(stop) => self.stops_at(stop),
            StopCondition::Whole => false,
        }
    }

    /// Whether it is the last of a directive's, with which so many were made.
    pub fn is_last(&self, reach: StopCondition, count: u64) -> bool
        ensures { result ≡ (self.now.ended || spec.is_reached reach count self.now) }
    {
        self.ended || self.is_reached(reach, count)
    }

    /// Whether it resets the chip.
    pub fn resets(&self) -> bool
        ensures { result ≡ spec.resets self.now }
    {
        matches!(self.made, Move::Write(Reg::ResetRequest, _))
    }

    /// Whether no line tells of it but its own.
    fn is_silent(&self) -> bool
        ensures { result ≡ spec.is_silent self.now }
    {
        !self.ended && !matches!(self.made, Move::Note(_) | Move::Report(_))
    }

    /// Whether a directive is silent with it that was so before it.
    pub fn keeps_silent(&self, silent: bool) -> bool
        ensures { result ≡ (silent && spec.is_silent self.now) }
    {
        silent && self.is_silent()
    }
}

ghost use Rattle.std.specs.Prelude.{◌≡◌, [], ◌∷◌, Ok, true, not, length, IfOk, slice_get, option_copied};
ghost use Rattle.std.specs.List.{list_all, list_any};
ghost use Rattle.mcal_base.specs.Reach.{CanApply};
ghost use Rattle.run_model.specs.Causes.{blocks, reads_source, call_level_allows, line_level_allows, may_reenter, is_full};
ghost use Rattle.audit_frames.specs.FrameRules.{fresh};
ghost use Rattle.audit_frames.specs.StackRules as spec;

use crate::frame::Frame;
use crate::terms::{Around, Step, Terms};
use audit_base::Told;
use irq_control::Held;
use mcal_base::NoMemory;
use run_model::{Class, MOST_FRAMES, Tag, is_blocked, reads_source};
use std::alloc::Global;
use std::marker::Model;

/// The frames under way, the newest first.
#[derive(Drop)]
pub struct Frames {
    frames: Vec<Frame>,
}

impl Model for Frames {
    ghost use Rattle.std.specs.Prelude.{List};
    ghost use Rattle.audit_frames.specs.Kept.{Kept};

    ghost Value = { List Kept };

    ghost view = { λ f. f.frames.items };
}

/// The tag of a frame.
fn tag_of(frame: &Frame) -> Tag
    ensures { result ≡ frame.now.terms.tag }
{
    frame.terms().tag
}

/// Whether a call of this class may begin over each of these frames.
fn none_blocks(class: &Class, frames: &[Frame]) -> bool
    ensures { result ≡ list_all (λ k. not (blocks class.now k.terms.tag)) frames.now }
{
    frames
        .iter()
        .all(|frame| !is_blocked(class, &tag_of(frame)))
}

/// Whether one of these frames is of a call that reads the source array of a serial channel.
fn one_reads(channel: u32, frames: &[Frame]) -> bool
    ensures { result ≡ list_any (λ k. reads_source channel k.terms.tag.class) frames.now }
{
    frames
        .iter()
        .any(|frame| reads_source(channel, tag_of(frame).class))
}

impl Frames {
    /// No frame.
    pub fn new(alloc: Global) -> Frames
        ensures { result ≡ [] }
    {
        Frames {
            frames: Vec::new(alloc),
        }
    }

    /// How many there are.
    pub fn depth(&self) -> usize
        ensures { result ≡ length self.now }
    {
        self.frames.as_slice().len()
    }

    /// The newest one.
    pub fn top(&self) -> Option<&Frame>
        ensures { option_copied result ≡ slice_get self.now 0 }
    {
        self.frames.as_slice().first()
    }

    /// Whether a call of this level may begin over the newest one.
    fn call_level_allows(&self, level: u32) -> bool
        ensures { result ≡ call_level_allows (spec.tags_of self.now) (spec.top_noted self.now) level }
    {
        match self.frames.as_slice() {
            [] => true,
            [top, ..] => tag_of(top).level < level || top.noted() && level == tag_of(top).level,
        }
    }

    /// Whether the handler of a line of this level may begin over the newest one.
    fn line_level_allows(&self, level: u32) -> bool
        ensures { result ≡ line_level_allows (spec.tags_of self.now) level }
    {
        match self.frames.as_slice() {
            [] => true,
            [top, ..] => tag_of(top).level < level,
        }
    }

    fn may_reenter(&self, class: &Class) -> bool
        ensures { result ≡ may_reenter class.now (spec.tags_of self.now) }
    {
        none_blocks(class, self.frames.as_slice())
    }

    fn is_full(&self) -> bool
        ensures { result ≡ is_full (spec.tags_of self.now) }
    {
        self.depth() >= MOST_FRAMES as usize
    }

    /// Why a call of this class is held at this level over them; none where it may begin.
    pub fn call_held(&self, is_masked: bool, class: &Class, level: u32) -> Option<Held>
        ensures { result ≡ spec.call_held self.now is_masked class.now level }
    {
        if is_masked {
            Some(Held::Masked)
        } else if !self.call_level_allows(level) {
            Some(Held::Level)
        } else if !self.may_reenter(class) {
            Some(Held::Reentry)
        } else if self.is_full() {
            Some(Held::Full)
        } else {
            None
        }
    }

    /// Why the handler of a line of this level is held over them; none where it may begin.
    pub fn line_held(&self, is_masked: bool, level: u32, is_pending: bool) -> Option<Held>
        ensures { result ≡ spec.line_held self.now is_masked level is_pending }
    {
        if is_masked {
            Some(Held::Masked)
        } else if !self.line_level_allows(level) {
            Some(Held::Level)
        } else if !is_pending {
            Some(Held::Idle)
        } else if self.is_full() {
            Some(Held::Full)
        } else {
            None
        }
    }

    /// Whether one of them is of a call that reads the source array of a serial channel.
    pub fn reads(&self, channel: u32) -> bool
        ensures { result ≡ spec.reads self.now channel }
    {
        one_reads(channel, self.frames.as_slice())
    }

    /// Whether the newest one can make one more step within its bounds, where there is one.
    pub fn is_going(&self) -> bool
        ensures { result ≡ spec.top_goes self.now }
    {
        match self.frames.as_slice() {
            [] => true,
            [top, ..] => top.is_going(),
        }
    }

    /// A frame begins over them.
    pub fn begin(&mut self, alloc: Global, terms: Terms) -> Result<(), NoMemory>
        ensures { IfOk result (λ _. self.new ≡ fresh terms ∷ self.old) }
    {
        match self.frames.insert(0, Frame::new(alloc, terms)) {
            Ok(()) => Ok(()),
            Err(_) => Err(NoMemory),
        }
    }

    /// The newest one makes a step. Answers whether it is one that it may make: without a frame none is. After one that it may
    /// not make the frames are of no use; one with which it ends leaves it there, with its answer, until `end`.
    pub fn step(
        &mut self,
        step: &Step,
        told: &Told,
        polls: &[u32],
        around: &Around,
    ) -> Result<bool, NoMemory>
        requires there { CanApply step.now.made }
        ensures right { IfOk result (λ right. right ≡ spec.top_right self.old step.now told.now polls.now around.now) }
        ensures after { result ≡ Ok true → self.new ≡ spec.stepped self.old step.now told.now polls.now around.now }
    {
        if self.frames.is_empty() {
            return Ok(false);
        }
        self.frames[0].step(step, told, polls, around)
    }

    /// The newest one is gone, where there is one.
    pub fn end(&mut self)
        ensures { self.new ≡ spec.rest_of self.old }
    {
        if !self.frames.is_empty() {
            self.frames.remove(0);
        }
    }

    /// All are dropped.
    pub fn clear(&mut self)
        ensures { self.new ≡ [] }
    {
        self.frames.clear();
    }
}

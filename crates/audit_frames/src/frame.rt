ghost use Rattle.std.specs.Prelude.{◌≡◌, ◌<◌, Some, None, Ok, true, IfOk, MatchOption};
ghost use Rattle.std.specs.Bool.{OnTrue};
ghost use Rattle.mcal_base.specs.Reach.{CanApply};
ghost use Rattle.run_model.specs.Frame.{window_after};
ghost use Rattle.audit_frames.specs.FrameRules as spec;

use crate::accesses::{Accesses, committed_after};
use crate::act::{
    Acted, acted_after, errors_right, halves_right, report_after, report_by, reset_right,
    writes_right,
};
use crate::lines::Lines;
use crate::owing::{Owing, move_right, owe_after, owes_none};
use crate::pace::Pace;
use crate::rules::{may_have, stands_at, waits_open};
use crate::terms::{Around, Step, Task, Terms};
use audit_base::Told;
use mcal_base::{Answer, DevError, Event, Move, NoMemory, Words};
use std::alloc::Global;
use std::marker::Model;

/// A frame under way, as far as it is judged: what it was begun for, and what it has done.
#[derive(Drop)]
pub struct Frame {
    terms: Terms,
    lines: Lines,
    accesses: Accesses,
    pace: Pace,
    acted: Option<Acted>,
    answer: Option<Answer>,
    report: Option<DevError>,
    owed: Vec<Owing>,
}

impl Model for Frame {
    ghost use Rattle.audit_frames.specs.Kept.{Kept};

    ghost Value = { Kept };

    ghost view = { λ f. record { terms = f.terms; lines = f.lines; accesses = f.accesses; pace = f.pace; acted = f.acted; answer = f.answer; report = f.report; owed = f.owed.items } };
}

/// A copy of an answer.
fn copied(answer: &Answer) -> Answer
    ensures { result ≡ answer.now }
{
    let mut words = Words::new();
    let items = answer.words.as_slice();
    for word in items {
        words.push(*word);
    }
    Answer {
        head: answer.head,
        words,
    }
}

/// Keeps the answer of an act.
fn keep_answer(kept: &mut Option<Answer>, event: Option<Event>, answer: &Answer)
    ensures { kept.new ≡ spec.answer_after kept.old event answer.now }
{
    if let Some(Event::Act) = event {
        *kept = Some(copied(answer));
    }
}

impl Frame {
    /// A frame that has done nothing yet. It takes no memory.
    pub fn new(alloc: Global, terms: Terms) -> Frame
        ensures { result ≡ spec.fresh terms }
    {
        Frame {
            terms,
            lines: Lines::none(),
            accesses: Accesses::none(),
            pace: Pace::none(),
            acted: None,
            answer: None,
            report: None,
            owed: Vec::new(alloc),
        }
    }

    /// What it is judged by.
    pub fn terms(&self) -> &Terms
        ensures { result.now ≡ self.now.terms }
    {
        &self.terms
    }

    /// Whether its last move is a notice.
    pub fn noted(&self) -> bool
        ensures { result ≡ self.now.pace.noted }
    {
        self.pace.noted
    }

    /// The notice that it owes next, with whether a serving owes it.
    pub fn next_owed(&self) -> Option<Owing>
        ensures { result ≡ spec.first_owed self.now.owed }
    {
        match self.owed.as_slice() {
            [] => None,
            [first, ..] => Some(*first),
        }
    }

    /// When it last wrote the commit register of each pulse channel, with this move now: what an act brings there. None of a
    /// channel that it didn't commit.
    pub fn committed(&self, made: &Move, now: u64) -> [Option<u64>; 8]
        requires { CanApply made.now }
        ensures { result ≡ spec.committed_at self.now made.now now }
    {
        committed_after(self.accesses.committed, made, now)
    }

    /// The answer of its call's act, with which it ends.
    pub fn answer(&self) -> Option<&Answer>
        ensures { MatchOption result (self.now.answer ≡ None) (λ a. self.now.answer ≡ Some a.now) }
    {
        self.answer.as_ref()
    }

    /// Whether it can make one more step within its bounds.
    pub fn is_going(&self) -> bool
        ensures { result ≡ spec.is_going self.now }
    {
        self.pace.is_going(&self.terms)
    }

    /// Whether it may have the step's event, here.
    fn may_have_event(&self, step: &Step, polls: &[u32]) -> bool
        ensures { result ≡ spec.may_have_event self.now step.now polls.now }
    {
        may_have(
            self.terms.task,
            &self.lines,
            self.answer.is_some(),
            !owes_none(self.owed.as_slice()),
            self.pace.inside,
            polls,
            step.event,
        ) && stands_at(step.event, &step.made, step.value)
    }

    /// Whether it may make the step's move, with what its event tells.
    fn may_move(&self, step: &Step, told: &Told, around: &Around) -> bool
        requires { CanApply step.now.made }
        ensures { result ≡ spec.may_move self.now step.now told.now around.now.reported }
    {
        let task = self.terms.task;
        let inside = self.pace.inside;
        let report = report_by(task, self.report, step.event, told.error(), around.reported);
        let acts = self.pace.has_acted(step.event);
        waits_open(inside, &step.made)
            && self.accesses.are_together(task, inside, acts, &step.made)
            && move_right(inside, &self.owed, report, &step.made)
            && reset_right(task, &step.made, step.event, told.error(), step.ends)
    }

    /// Whether it may make the step, by what it has done before it.
    fn may_make(&self, step: &Step, told: &Told, polls: &[u32], around: &Around) -> bool
        requires { CanApply step.now.made }
        ensures is { result ≡ spec.may_make self.now step.now told.now polls.now around.now }
        ensures steps { OnTrue result (self.now.pace.steps < 4294967295) }
        ensures window { OnTrue result (window_after self.now.pace.inside self.now.pace.window step.now.made < 4294967296) }
    {
        self.may_have_event(step, polls)
            && self.may_move(step, told, around)
            && self.pace.has_room(&self.terms, &step.made)
    }

    /// After a step for which there is room.
    fn take(
        &mut self,
        step: &Step,
        told: &Told,
        polls: &[u32],
        around: &Around,
    ) -> Result<(), NoMemory>
        requires there { CanApply step.now.made }
        requires steps { self.old.pace.steps < 4294967295 }
        requires window { window_after self.old.pace.inside self.old.pace.window step.now.made < 4294967296 }
        ensures { IfOk result (λ _. self.new ≡ spec.kept_after self.old step.now told.now polls.now around.now) }
    {
        let task = self.terms.task;
        let (made, event, error) = (&step.made, step.event, told.error());
        self.acted = acted_after(task, self.pace.inside, made, self.acted, event, error);
        let report = report_by(task, self.report, event, error, around.reported);
        self.report = report_after(report, made);
        keep_answer(&mut self.answer, event, told.answer());
        self.lines = self.lines.after(task, event, polls, around.unready);
        self.accesses.take(task, made, around);
        self.pace = self.pace.after(made, event);
        owe_after(&mut self.owed, made, event, told.notices())
    }

    /// Whether what it has done stands so far, and where it ends with this step, in all.
    fn stands(&self, ends: bool, around: &Around) -> bool
        ensures { result ≡ spec.stands_after self.now ends around.now.calm }
    {
        halves_right(self.acted, self.accesses.low_read, self.accesses.high_read)
            && errors_right(self.acted, self.accesses.wrote)
            && (!ends || self.may_end(around))
    }

    /// Whether its call has acted, or it is a handler's.
    fn has_answer(&self) -> bool
        ensures { result ≡ spec.has_answer self.now }
    {
        match self.terms.task {
            Task::Call(_) => self.answer.is_some(),
            Task::Line(_) => true,
        }
    }

    /// Whether it may end.
    fn may_end(&self, around: &Around) -> bool
        ensures { result ≡ spec.may_end self.now around.now.calm }
    {
        let task = self.terms.task;
        self.has_answer()
            && self.lines.are_met(task)
            && owes_none(self.owed.as_slice())
            && !self.report.is_some()
            && !self.pace.inside
            && !self.pace.noted
            && writes_right(self.acted, self.accesses.are_made(task))
            && self.lines.are_left(task, around)
    }

    /// Makes a step, and answers whether it is one that the frame may make. One that it may not leaves a frame that is of no use.
    pub fn step(
        &mut self,
        step: &Step,
        told: &Told,
        polls: &[u32],
        around: &Around,
    ) -> Result<bool, NoMemory>
        requires there { CanApply step.now.made }
        ensures right { IfOk result (λ right. right ≡ spec.step_right self.old step.now told.now polls.now around.now) }
        ensures after { result ≡ Ok true → self.new ≡ spec.kept_after self.old step.now told.now polls.now around.now }
    {
        if !self.may_make(step, told, polls, around) {
            return Ok(false);
        }
        self.take(step, told, polls, around)?;
        Ok(self.stands(step.ends, around))
    }
}

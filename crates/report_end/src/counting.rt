ghost use Rattle.std.specs.Prelude.{ℕ, List, ◌≡◌, ◌<◌, ◌≤◌, ◌+◌, ◌*◌, OnOk, IfOk, Some, length, drop};
ghost use Rattle.mcal_base.specs.declared.answer.Answer.{Answer};
ghost use Rattle.run_model.specs.Entry.{Begins, said_at, step_at};
ghost use Rattle.run_model.specs.Packing.{entries_in};
ghost use Rattle.bench_report.specs.Report.{frames_after, move_lines, later_entries};
ghost use Rattle.report_end.specs.Counts as spec;

use bench_report::{Purpose, Tally, purpose_of};
use mcal_base::{Directive, Move, Order};
use run_model::{JournalLists, Kept, Logged, What};
use std::alloc::{AllocError, Global};
use std::marker::Model;

/// What the lines of a report count so far, and what the frames under way were begun for.
#[derive(Drop)]
pub(crate) struct Counting {
    frames: Vec<Purpose>,
    tally: Tally,
}

impl Model for Counting {
    ghost use Rattle.std.specs.Prelude.{reverse};
    ghost use Rattle.report_end.specs.Counts as counts;

    ghost Value = { counts.Counting };

    ghost view = { λ c. record { frames = reverse c.frames.items; tally = c.tally } };
}

impl Counting {
    /// Before the first item.
    pub(crate) fn new(alloc: Global) -> Counting
        ensures { result ≡ spec.beginning }
    {
        Counting {
            frames: Vec::new(alloc),
            tally: Tally::default(),
        }
    }

    /// What was counted.
    pub(crate) fn tally(&self) -> Tally
        ensures { result ≡ self.now.tally }
    {
        self.tally
    }

    /// Counts the line of a move.
    fn moved(&mut self, made: Move)
        requires { spec.total self.old.tally < 18446744073709551615 }
        ensures { self.new ≡ spec.move_counted self.old (move_lines made) }
    {
        match made {
            Move::Note(_) => self.tally.notes += 1,
            Move::Report(_) => self.tally.errors += 1,
            _ => {}
        }
    }

    /// Takes the topmost frame off, and counts the line of its end.
    fn left(&mut self)
        requires { spec.total self.old.tally < 18446744073709551615 }
        ensures { (answer : Answer) → self.new ≡ spec.end_counted self.old (Some answer) }
    {
        match self.frames.pop() {
            Some(Purpose::Call(_)) => self.tally.calls += 1,
            Some(Purpose::Handler(_)) => self.tally.handlers += 1,
            None => {}
        }
    }

    /// Counts the lines of a step.
    fn stepped(&mut self, logged: &Logged)
        requires { spec.total self.old.tally + 2 ≤ 18446744073709551615 }
        ensures { (words : List ℕ) → self.new ≡ spec.step_counted self.old (step_at words logged.now) }
    {
        self.moved(logged.made);
        if logged.ended.is_some() {
            self.left();
        }
    }

    /// One more frame, where the order begins one.
    fn begun(&mut self, order: &Order) -> Result<(), AllocError>
        ensures { OnOk result (self.new ≡ record self.old { frames = frames_after order.now self.old.frames Begins }) }
    {
        if let Some(purpose) = purpose_of(order) {
            self.frames.push(purpose)?;
        }
        Ok(())
    }

    /// Counts the lines of what an item of a directive says.
    fn item(&mut self, order: &Order, what: &What) -> Result<(), AllocError>
        requires { spec.total self.old.tally + 2 ≤ 18446744073709551615 }
        ensures { OnOk result ((words : List ℕ) → self.new ≡ spec.said_counted order.now self.old (said_at words what.now)) }
    {
        match what {
            What::Happened(_) => {}
            What::Begun => self.begun(order)?,
            What::Held(_) => self.tally.held += 1,
            What::Stepped(logged) => self.stepped(logged),
            What::Reset(..) => self.frames.clear(),
        }
        Ok(())
    }

    /// Counts the lines of the items that stand next with the line of a directive, and gives those behind them.
    pub(crate) fn items<'b>(
        &mut self,
        directive: &Directive,
        lists: &JournalLists<'_>,
        items: &'b [Kept],
    ) -> Result<&'b [Kept], AllocError>
        requires { spec.total self.old.tally + 2 * length items.now ≤ 18446744073709551615 }
        ensures counted { OnOk result (self.new ≡ spec.directive_counted directive.now self.old (entries_in lists.now items.now)) }
        ensures rest { IfOk result (λ later. entries_in lists.now later.now ≡ later_entries directive.now.line (entries_in lists.now items.now)) }
        ensures room { IfOk result (λ later. spec.total self.new.tally + 2 * length later.now ≤ spec.total self.old.tally + 2 * length items.now) }
    {
        let mut rest = items;
        while let [item, after @ ..] = rest {
            if item.line != directive.line {
                break;
            }
            self.item(&directive.order, &item.says(lists.rests))?;
            rest = after;
        }
        Ok(rest)
    }
}

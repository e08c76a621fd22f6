ghost use Rattle.std.specs.Prelude.{◌≡◌};
ghost use Rattle.std.specs.Option.{option_map};
ghost use Rattle.adc_groups.specs.laws.services.WriteBatchSteps as spec;

use crate::outside::Outside;
use crate::words::{LINES, Word, word_number};
use adc_machine::AdcTable;
use mcal_base::{Event, Move, Reg, Routine, Short};
use service_outline::{BodyTaken, Done};
use word_shapes::{Add, Again, Dropped, Next, Put, Take};

/// A move that a window makes of what it has seen.
#[derive(Clone, Copy, Default)]
pub enum WindowWrite {
    /// It stores a value in a word.
    Set(Word, u32),
    /// It writes a register.
    Write(Reg, u32),
    /// It takes a unit's round away, if that isn't finished.
    Abort(u8),
    /// It disables all lines of the module.
    #[default]
    Disable,
}

impl WindowWrite {
    /// The move.
    pub fn made(self, table: &AdcTable) -> Move
        ensures { result ≡ spec.deed_move table.now self }
    {
        match self {
            WindowWrite::Set(word, value) => Move::Store(word_number(table, word), value),
            WindowWrite::Write(register, value) => Move::Write(register, value),
            WindowWrite::Abort(unit) => Move::Read(Reg::ConverterAbort(u32::from(unit))),
            WindowWrite::Disable => Move::Write(Reg::EnableClear, LINES),
        }
    }
}

/// The moves of a window, in their order.
pub type WindowWrites = Short<WindowWrite, 11>;

/// A change of a unit's order of requests, or of a group's banks, under way.
#[derive(Clone, Copy)]
pub enum StructureOp {
    /// A request is put in the last place.
    Add(Add),
    /// A request waits again.
    Again(Again),
    /// A request is taken out.
    Drop(Dropped),
    /// The first request that waits does so no longer.
    Next(Next),
    /// A bank becomes the newest.
    Put(Put),
    /// The newest bank is pinned, or a pin ends.
    Take(Take),
}

impl StructureOp {
    /// Its next move.
    pub fn next(&self) -> Move
        ensures { result ≡ spec.shape_move self.now }
    {
        match self {
            StructureOp::Add(work) => work.next(),
            StructureOp::Again(work) => work.next(),
            StructureOp::Drop(work) => work.next(),
            StructureOp::Next(work) => work.next(),
            StructureOp::Put(work) => work.next(),
            StructureOp::Take(work) => work.next(),
        }
    }

    /// Takes what the move gave, and tells whether it has ended.
    pub fn took(&mut self, value: u32) -> bool
        ensures state { self.new ≡ spec.shape_left self.old value }
        ensures over { result ≡ spec.shape_over self.old value }
    {
        match self {
            StructureOp::Add(work) => work.took(value).ended.is_some(),
            StructureOp::Again(work) => work.took(value).ended.is_some(),
            StructureOp::Drop(work) => work.took(value).ended.is_some(),
            StructureOp::Next(work) => work.took(value).ended.is_some(),
            StructureOp::Put(work) => work.took(value).ended.is_some(),
            StructureOp::Take(work) => work.took(value).ended.is_some(),
        }
    }
}

/// What comes after the moves of a window.
#[derive(Clone, Copy)]
pub enum Continuation {
    /// The frame is done.
    Ends(Done),
    /// It opens the mask and goes on so.
    Goes(Outside),
}

/// The moves of a window that are left, after all that it looks at.
#[derive(Drop)]
pub struct WriteBatch {
    /// The moves that name what they change.
    pub deeds: WindowWrites,
    /// How many of them were made.
    pub made: u8,
    /// The event, which stands at the move that comes after so many.
    pub event: Option<Event>,
    /// How many of them come before that of the event.
    pub ahead: u8,
    /// What changes in the unit's order: after the first of them where the event stands at that, and else before all.
    pub order: Option<StructureOp>,
    /// What changes in the group's banks after that.
    pub banks: Option<StructureOp>,
    /// What comes after it.
    pub after: Continuation,
}

impl WriteBatch {
    /// Its next move.
    pub fn next(&self, table: &AdcTable) -> Move
        ensures { result ≡ spec.making_move table.now self.now }
    {
        match self.under_work() {
            Some(shape) => shape.next(),
            None => match self.deeds.as_slice().get(usize::from(self.made)) {
                Some(deed) => deed.made(table),
                None => Move::Unmask,
            },
        }
    }

    /// The change of an order or of banks that it is at.
    fn under_work(&self) -> Option<&StructureOp>
        ensures { option_map (λ s. s.now) result ≡ spec.under_work self.now }
    {
        if self.is_first() {
            return None;
        }
        match &self.order {
            Some(shape) => Some(shape),
            None => self.banks.as_ref(),
        }
    }

    /// Takes what the move gave, and tells the event that stands there.
    pub fn took(&mut self, value: u32) -> Option<Event>
        ensures state { self.new ≡ spec.making_left self.old value }
        ensures event { result ≡ spec.making_event self.old }
    {
        let event = if self.made == self.ahead {
            self.event
        } else {
            None
        };
        if self.is_first() {
            self.makes_one();
        } else if self.order.is_some() {
            self.orders(value);
        } else if self.banks.is_some() {
            self.fills(value);
        } else {
            self.makes_one();
        }
        event
    }

    /// Whether it is at the move of its event, which comes before all changes.
    fn is_first(&self) -> bool
        ensures { result ≡ spec.is_first self.now }
    {
        self.event.is_some()
            && self.ahead == 0
            && self.made == 0
            && self.deeds.as_slice().get(0).is_some()
    }

    /// The next step of the change of the order.
    fn orders(&mut self, value: u32)
        ensures { self.new ≡ record self.old { order = spec.more_of self.old.order value } }
    {
        if let Some(shape) = &mut self.order {
            if shape.took(value) {
                self.order = None;
            }
        }
    }

    /// The next step of the change of the banks.
    fn fills(&mut self, value: u32)
        ensures { self.new ≡ record self.old { banks = spec.more_of self.old.banks value } }
    {
        if let Some(shape) = &mut self.banks {
            if shape.took(value) {
                self.banks = None;
            }
        }
    }

    /// One more move was made.
    fn makes_one(&mut self)
        ensures { self.new ≡ spec.one_made self.old }
    {
        if usize::from(self.made) < self.deeds.len() {
            self.made += 1;
        }
    }

    /// Whether all moves were made.
    pub fn is_over(&self) -> bool
        ensures { result ≡ spec.making_over self.now }
    {
        self.order.is_none() && self.banks.is_none() && usize::from(self.made) >= self.deeds.len()
    }
}

/// Moves in one window with this event at the first, and what comes after them.
pub fn moves_of(event: Option<Event>, deeds: WindowWrites, after: Continuation) -> WriteBatch
    ensures { result ≡ spec.making event deeds after }
{
    WriteBatch {
        deeds,
        made: 0,
        event,
        ahead: 0,
        order: None,
        banks: None,
        after,
    }
}

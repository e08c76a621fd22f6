ghost use Rattle.std.specs.Prelude.{◌≡◌, None};
ghost use Rattle.adc_groups.specs.laws.services.ReadSteps.{newest_move, newest_left, newest_taken, newest_answer, stage_released};
ghost use Rattle.adc_groups.specs.laws.services.Decisions as spec;

use crate::body::{Decided, Place};
use crate::making::{Continuation, StructureOp, WindowWrite, WindowWrites, WriteBatch, moves_of};
use crate::outside::Outside;
use crate::owed::error_owed;
use crate::service::acts_and_ends;
use crate::words::{Phase, STATE, Word, rounds_of};
use adc_machine::AdcTable;
use mcal_base::{Answer, AnswerName, ErrorName, Event, Head, Move, Routine, Service, Short};
use service_outline::{BodyTaken, Epilogue, copied, ends, goes, named, nothing};
use word_shapes::streams::{Bank, Reading};
use word_shapes::{Take, TakePart};

/// `Adc_ReadGroup` of a group in this phase: unless it is idle or busy, the newest bank is to be pinned.
pub fn read(table: &AdcTable, group: u8, phase: u32) -> Decided
    ensures { result ≡ spec.read table.now group phase }
{
    match Phase::of(phase) {
        Phase::Idle => {
            let owed = error_owed(table, Service::AdcReadGroup, ErrorName::AdcIdle);
            acts_and_ends(named(AnswerName::ENotOk), owed)
        }
        Phase::Busy => acts_and_ends(named(AnswerName::ENotOk), Epilogue::Nothing),
        found => Decided::Goes(Place::Pins(group, found.read())),
    }
}

/// It acts, pins this bank, and reads it with the mask open.
pub fn pin(group: u8, phase: Phase, take: Take, bank: Bank) -> Place
    ensures { result ≡ spec.pin group phase take bank }
{
    let mut deeds = WindowWrites::new();
    deeds.push(WindowWrite::Set(Word::Phase(group), phase.number()));
    Place::Makes(WriteBatch {
        banks: Some(StructureOp::Take(take)),
        ..moves_of(
            Some(Event::Act),
            deeds,
            Continuation::Goes(Outside::Reads(group, bank)),
        )
    })
}

/// A bank of a group, before it is read.
pub fn reading(table: &AdcTable, group: u8, bank: Bank) -> Newest
    ensures { result ≡ spec.reading table.now group bank }
{
    Newest {
        group,
        reading: Reading {
            rounds: rounds_of(table, group),
            bank,
            values: Short::new(),
        },
        stage: Stage::Reads,
    }
}

/// Where a call stands that reads a pinned bank.
#[derive(Clone, Copy)]
pub enum Stage {
    /// It reads, with the mask open.
    Reads,
    /// It has read all, and closes the mask.
    Shuts,
    /// The pin ends.
    Releases(Take),
    /// It opens the mask for the last time.
    Leaves,
    /// It has ended, with what it has read.
    Over,
}

/// A pinned bank that is read.
#[derive(Drop)]
pub struct Newest {
    /// The group.
    pub group: u8,
    /// What was read of it.
    pub reading: Reading,
    /// Where it stands.
    pub stage: Stage,
}

impl Newest {
    /// Its next move.
    pub fn next(&self) -> Move
        ensures { result ≡ newest_move self.now }
    {
        match self.stage {
            Stage::Reads => self.reading.next(),
            Stage::Shuts => Move::Mask,
            Stage::Releases(take) => take.next(),
            Stage::Leaves => Move::Unmask,
            Stage::Over => Move::Load(STATE),
        }
    }

    /// Takes what the move gave. It isn't inlined, so that other steps make no room for what the release of a pin holds.
    #[inline(never)]
    pub fn took(&mut self, value: u32) -> BodyTaken
        ensures state { self.new ≡ newest_left self.old value }
        ensures taken { result ≡ newest_taken self.old }
    {
        match self.stage {
            Stage::Reads => {
                if self.reading.took(value) {
                    self.stage = Stage::Shuts;
                }
                goes()
            }
            Stage::Shuts => {
                self.stage = Stage::Releases(self.reading.rounds.trio().take(TakePart::Release));
                goes()
            }
            Stage::Releases(take) => {
                self.stage = released(take, value);
                goes()
            }
            Stage::Leaves => {
                self.stage = Stage::Over;
                goes()
            }
            Stage::Over => ends(None, nothing(), Epilogue::Nothing),
        }
    }

    /// Writes the answer, where the call has ended.
    pub fn finish(&self, ended: &mut Option<Answer>)
        requires { ended.old ≡ None }
        ensures { ended.new ≡ newest_answer self.now }
    {
        if let Stage::Over = self.stage {
            *ended = Some(Answer {
                head: Head::Name(AnswerName::EOk),
                words: copied(self.reading.values.as_slice()),
            });
        }
    }
}

/// Where it stands after a step of the release.
fn released(take: Take, value: u32) -> Stage
    ensures { result ≡ stage_released take value }
{
    let mut take = take;
    match take.took(value).ended {
        Some(_) => Stage::Leaves,
        None => Stage::Releases(take),
    }
}

ghost use Rattle.std.specs.Prelude.{◌≡◌};
ghost use Rattle.spi_sequences.specs.laws.services.ModuleSteps as spec;

use crate::words::{LINES, PENDING, SEQUENCES, STATE, sequence_word};
use mcal_base::{AnswerName, Move, Reg};
use service_outline::{Body, BodyTaken, Epilogue, acts, acts_with, ends, goes, named};
use spi_machine::AsyncMode;

/// What is asked of the whole module, for which the results of all sequences are looked at.
#[derive(Clone, Copy)]
pub enum Whole {
    /// `Spi_DeInit`
    DeInit,
    /// `Spi_SetAsyncMode`, with the lines that handlers serve in interrupt mode.
    Mode(AsyncMode, u32),
    /// `Spi_GetStatus` of an initialised module.
    Status,
}

impl Whole {
    /// The state word afterwards.
    fn state(self) -> u32
        ensures { result ≡ spec.state_word_after self }
    {
        match self {
            Whole::DeInit => 0,
            Whole::Mode(AsyncMode::Polling, _) | Whole::Status => 1,
            Whole::Mode(AsyncMode::Interrupt, _) => 2,
        }
    }

    /// What enables the lines, or disables them. No line is named where there is none to enable.
    fn lines(self) -> Move
        ensures { result ≡ spec.lines_move self }
    {
        match self {
            Whole::Mode(AsyncMode::Interrupt, lines) if lines != 0 => {
                Move::Write(Reg::EnableSet, lines)
            }
            _ => Move::Write(Reg::EnableClear, LINES),
        }
    }

    /// The answer while a sequence is pending.
    fn busy(self) -> AnswerName
        ensures { result ≡ spec.busy_answer self }
    {
        match self {
            Whole::Status => AnswerName::SpiBusy,
            _ => AnswerName::ENotOk,
        }
    }
}

/// `Spi_DeInit`, `Spi_SetAsyncMode` and `Spi_GetStatus`, from the load of the state word on.
#[derive(Clone, Copy)]
pub enum WholeBody {
    /// It loads the result of this sequence, and acts there where the sequence is pending; a query acts at the last
    /// one.
    Look(Whole, u8),
    /// It acts, and the state word changes.
    Store(Whole),
    /// It enables the lines or disables them.
    Lines(Whole),
}

impl Body for WholeBody {
    ghost use Rattle.spi_sequences.specs.laws.services.ModuleSteps.{whole_work, whole_takes};

    ghost work_of = { whole_work };

    ghost takes = { whole_takes };

    fn next(&self) -> Move {
        match *self {
            WholeBody::Look(_, sequence) => Move::Load(sequence_word(sequence)),
            WholeBody::Store(whole) => Move::Store(STATE, whole.state()),
            WholeBody::Lines(whole) => whole.lines(),
        }
    }

    fn took(&mut self, value: u32) -> BodyTaken {
        let (after, taken) = match *self {
            WholeBody::Look(whole, _) if value == PENDING => {
                (*self, acts_with(named(whole.busy()), Epilogue::Nothing))
            }
            WholeBody::Look(whole, sequence) if sequence < SEQUENCES - 1 => {
                (WholeBody::Look(whole, sequence + 1), goes())
            }
            WholeBody::Look(Whole::Status, _) => {
                (
                    *self,
                    acts_with(named(AnswerName::SpiIdle), Epilogue::Nothing),
                )
            }
            WholeBody::Look(whole, _) => (WholeBody::Store(whole), goes()),
            WholeBody::Store(whole) => (WholeBody::Lines(whole), acts()),
            WholeBody::Lines(_) => (*self, ends(None, named(AnswerName::EOk), Epilogue::Nothing)),
        };
        *self = after;
        taken
    }
}

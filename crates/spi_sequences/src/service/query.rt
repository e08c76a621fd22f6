ghost use Rattle.std.specs.Prelude.{◌≡◌};
ghost use Rattle.spi_sequences.specs.Words.{run_in};
ghost use Rattle.spi_sequences.specs.laws.services.QuerySteps as spec;

use crate::words::{
    NEXTS, PENDING, Running, SEQUENCES, job_result, job_word, next_of, running_word,
    sequence_result, sequence_word,
};
use mcal_base::{AnswerName, Move};
use service_outline::{Body, BodyTaken, Epilogue, acts_with, goes, named};
use spi_machine::SpiTable;

/// The result of a job is asked for.
#[derive(Clone, Copy)]
pub struct JobQuery {
    /// The table.
    pub table: SpiTable,
    /// The job.
    pub job: u8,
    /// Its unit.
    pub unit: u8,
    /// Where it stands.
    pub place: JobPlace,
}

/// A place of the question for a job's result.
#[derive(Clone, Copy)]
pub enum JobPlace {
    /// It loads what the unit runs, and acts there where that is the job.
    Running,
    /// It loads the result of this sequence, to see whether it is pending.
    Look(u8),
    /// It loads the next jobs, and acts there where this place of the pending sequence isn't before the next one's.
    Next(u8, u8),
    /// It acts, and loads the result of the last run.
    Result,
}

/// `Spi_GetJobResult`, `Spi_GetSequenceResult` and `Spi_GetHWUnitStatus`, from the load of the state word on.
#[derive(Clone, Copy)]
pub enum QueryBody {
    /// The result of a job.
    Job(JobQuery),
    /// It acts, and loads the result of this sequence.
    Sequence(u8),
    /// It acts, and loads what this unit runs.
    Unit(u8),
}

impl Body for QueryBody {
    ghost use Rattle.spi_sequences.specs.laws.services.QuerySteps.{query_work, query_takes};

    ghost work_of = { query_work };

    ghost takes = { query_takes };

    fn next(&self) -> Move {
        match self {
            QueryBody::Job(query) => query.next(),
            QueryBody::Sequence(sequence) => Move::Load(sequence_word(*sequence)),
            QueryBody::Unit(unit) => Move::Load(running_word(*unit)),
        }
    }

    fn took(&mut self, value: u32) -> BodyTaken {
        match self {
            QueryBody::Job(query) => match query.took(value) {
                Some(name) => answers(name),
                None => goes(),
            },
            QueryBody::Sequence(_) => answers(sequence_result(value)),
            QueryBody::Unit(_) if value == 0 => answers(AnswerName::SpiIdle),
            QueryBody::Unit(_) => answers(AnswerName::SpiBusy),
        }
    }
}

/// It acts with this answer.
fn answers(name: AnswerName) -> BodyTaken
    ensures { result ≡ spec.answers_with name }
{
    acts_with(named(name), Epilogue::Nothing)
}

impl JobQuery {
    fn next(&self) -> Move
        ensures { result ≡ spec.job_move self.now self.now.place }
    {
        match self.place {
            JobPlace::Running => Move::Load(running_word(self.unit)),
            JobPlace::Look(sequence) => Move::Load(sequence_word(sequence)),
            JobPlace::Next(..) => Move::Load(NEXTS),
            JobPlace::Result => Move::Load(job_word(self.job)),
        }
    }

    /// Takes what the move gave, and tells the answer where it acts.
    fn took(&mut self, value: u32) -> Option<AnswerName>
        ensures state { self.new ≡ record self.old { place = (spec.job_took self.old self.old.place value).0 } }
        ensures answer { result ≡ (spec.job_took self.old self.old.place value).1 }
    {
        match self.place {
            JobPlace::Running => {
                if runs(value, self.job) {
                    return Some(AnswerName::SpiJobPending);
                }
                self.place = JobPlace::Look(0);
            }
            JobPlace::Look(sequence) => {
                self.place = self.looked(sequence, value == PENDING);
            }
            JobPlace::Next(sequence, place) => {
                if next_of(value, sequence) <= place {
                    return Some(AnswerName::SpiJobQueued);
                }
                self.place = JobPlace::Result;
            }
            JobPlace::Result => return Some(job_result(value)),
        }
        None
    }

    /// What follows the look at a sequence.
    fn looked(&self, sequence: u8, pending: bool) -> JobPlace
        ensures { result ≡ spec.job_looked self.now sequence pending }
    {
        if pending {
            if let Some(place) = self.table.jobs_of(sequence).place_of(self.job) {
                return JobPlace::Next(sequence, place);
            }
        }
        if sequence < SEQUENCES - 1 {
            JobPlace::Look(sequence + 1)
        } else {
            JobPlace::Result
        }
    }
}

/// Whether a unit that has this word runs the job.
fn runs(word: u32, job: u8) -> bool
    ensures { result ≡ spec.is_running_job job (run_in word) }
{
    match Running::unpacked(word) {
        Some(running) => running.job == job,
        None => false,
    }
}

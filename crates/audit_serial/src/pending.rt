ghost use Rattle.std.specs.Prelude.{◌≡◌, ◌<◌, ◌≤◌, ◌+◌, Some, true, map, take, length, option_map};
ghost use Rattle.spi_machine.specs.Pending as spec;
ghost use Rattle.spi_machine.specs.Machine as machine;
ghost use Rattle.audit_serial.specs.Words.{pending_as};

use crate::numbered::item;
use crate::options::{is_interruptible, is_on, job_at, job_count, priority, select};
use mcal_base::AnswerName;
use spi_machine::SpiTable;

/// A pending sequence, or one that a unit carries out for a call.
#[derive(Clone, Copy)]
pub struct Pending {
    /// Its number.
    pub sequence: u32,
    /// The number of its request.
    pub request: u32,
    /// The place of its job that runs, or that runs next.
    pub next: u32,
    /// Whether a job of it has started.
    pub started: bool,
    /// Whether it was cancelled.
    pub cancelled: bool,
    /// The results that its jobs had at the request, and others.
    pub had: [AnswerName; 16],
    /// How many jobs it has.
    pub count: u8,
}

/// The results of these jobs.
fn results_of(results: &[AnswerName], jobs: &[u8]) -> [AnswerName; 16]
    requires { length jobs.now ≤ 16 }
    ensures { take (length jobs.now) result ≡ map (spec.job_result results.now) jobs.now }
{
    let mut had = [AnswerName::SpiJobOk; 16];
    for place in 0..jobs.len() {
        had[place] = item(results, jobs[place] as usize, AnswerName::SpiJobOk);
    }
    had
}

impl Pending {
    /// As requested: these are its jobs, and their results.
    pub(crate) fn requested(
        sequence: u32,
        request: u32,
        jobs: &[u8],
        results: &[AnswerName],
    ) -> Pending
        requires { length jobs.now ≤ 16 }
        ensures is { pending_as result ≡ spec.requested sequence request (map (spec.job_result results.now) jobs.now) }
        ensures next { result.next ≡ 0 }
    {
        Pending {
            sequence,
            request,
            next: 0,
            started: false,
            cancelled: false,
            had: results_of(results, jobs),
            count: jobs.len() as u8,
        }
    }

    /// The results that its jobs had at the request.
    pub(crate) fn results(&self) -> &[AnswerName]
        ensures { result.now ≡ (pending_as self.now).had }
    {
        &self.had[..(self.count as usize).min(16)]
    }

    /// Whether it is this sequence.
    pub(crate) fn is_of(self, sequence: u32) -> bool
        ensures { result ≡ spec.is_of sequence (pending_as self) }
    {
        self.sequence == sequence
    }

    /// Its job that runs, or that runs next.
    pub(crate) fn next_job(self, table: &SpiTable) -> u32
        ensures { result ≡ spec.next_job table.now (pending_as self) }
    {
        job_at(table, self.sequence, self.next)
    }

    /// Whether that isn't its last job.
    pub(crate) fn has_further(self, table: &SpiTable) -> bool
        ensures is { result ≡ spec.has_further table.now (pending_as self) }
        ensures few { result ≡ true → self.next + 1 < 16 }
    {
        let count = job_count(table, self.sequence);
        (self.next as u64) + 1 < count as u64
    }

    /// With its next job.
    pub(crate) fn following(self, table: &SpiTable) -> Pending
        requires { spec.has_further table.now (pending_as self) ≡ true }
        ensures { pending_as result ≡ spec.goes_to_next (pending_as self) }
    {
        if self.has_further(table) {
            Pending {
                next: self.next + 1,
                ..self
            }
        } else {
            self
        }
    }

    /// How it ranks: above all priorities where it keeps its unit, and else by its job's priority.
    fn rank(self, table: &SpiTable) -> u32
        ensures { result ≡ spec.rank table.now (pending_as self) }
    {
        if self.started && !is_interruptible(table, self.sequence) {
            4
        } else {
            priority(table, self.next_job(table))
        }
    }

    /// Whether its next job runs before another one's.
    pub(crate) fn precedes(self, table: &SpiTable, other: Pending) -> bool
        ensures { result ≡ spec.precedes table.now (pending_as self) (pending_as other) }
    {
        let own = self.rank(table);
        let its = other.rank(table);
        its < own || own == its && self.request < other.request
    }

    /// The better of it and of another one, where there is one.
    pub(crate) fn better(self, table: &SpiTable, other: Option<Pending>) -> Pending
        ensures { pending_as result ≡ spec.better table.now (pending_as self) (option_map pending_as other) }
    {
        match other {
            Some(other) => {
                if other.precedes(table, self) {
                    other
                } else {
                    self
                }
            }
            None => self,
        }
    }

    /// Whether its next job runs on a unit.
    pub(crate) fn is_for(self, table: &SpiTable, unit: u32) -> bool
        ensures { result ≡ spec.is_for table.now unit (pending_as self) }
    {
        is_on(table, unit, self.next_job(table))
    }

    /// The place of its job's device.
    pub(crate) fn device(self, table: &SpiTable) -> Option<u8>
        ensures { result ≡ machine.device_of table.now (Some (pending_as self)) }
    {
        select(table, self.next_job(table))
    }

    /// How it ends with its job, where it does.
    pub(crate) fn ends_by(self, table: &SpiTable, failed: bool) -> Option<AnswerName>
        ensures { result ≡ spec.end_by self.cancelled failed (spec.has_further table.now (pending_as self)) }
    {
        if self.cancelled {
            Some(AnswerName::SpiSeqCanceled)
        } else if failed {
            Some(AnswerName::SpiSeqFailed)
        } else if self.has_further(table) {
            None
        } else {
            Some(AnswerName::SpiSeqOk)
        }
    }
}

/// The place of the device of a job of a sequence, where there is one.
pub(crate) fn device_of(table: &SpiTable, entry: Option<Pending>) -> Option<u8>
    ensures { result ≡ machine.device_of table.now (option_map pending_as entry) }
{
    match entry {
        Some(entry) => entry.device(table),
        None => None,
    }
}

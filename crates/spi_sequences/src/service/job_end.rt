ghost use Rattle.std.specs.Prelude.{◌≡◌, ◌-◌};
ghost use Rattle.word_shapes.specs.PriorityQueue.{again_gave, drop_gave};
ghost use Rattle.word_shapes.specs.TripleBuffer.{take_gave};
ghost use Rattle.word_shapes.specs.jobs.Parts.{has_ended, commit_ends, keep_ends};
ghost use Rattle.spi_sequences.specs.laws.services.ServeSteps as spec;

use crate::service::serve::{Ended, Leaving, SequenceNext, ServePlace, ServeStep, Served, goes};
use crate::words::{CANCELLED, FAILED, next_of, with_next};
use mcal_base::{Notice, NoticeKind, Routine};
use spi_machine::SpiTable;
use word_shapes::jobs::{Commit, Keep, Side, Taker, publish, release};
use word_shapes::{Again, Dropped, Take};

/// What follows a step that ends a pin of a failed job.
pub(super) fn released(
    table: &SpiTable,
    leaving: Leaving,
    place: u8,
    mut take: Take,
    value: u32,
) -> (ServePlace, ServeStep)
    ensures { result ≡ spec.serve_releases table.now leaving place take value (has_ended (take_gave take value)) }
{
    if take.took(value).ended.is_some() {
        goes(leaving.release_last(table, left_after(place)))
    } else {
        goes(ServePlace::Release(leaving, place, take))
    }
}

/// What follows a step that keeps the last word of a job.
pub(super) fn kept_last(
    table: &SpiTable,
    leaving: Leaving,
    mut keep: Keep,
) -> (ServePlace, ServeStep)
    ensures { result ≡ spec.serve_keeps_last table.now leaving keep (keep_ends keep) }
{
    if keep.took() {
        goes(leaving.commit_last(table, 4))
    } else {
        goes(ServePlace::KeepLast(leaving, keep))
    }
}

/// What follows a step that makes the received words of a channel readable.
pub(super) fn committed(
    table: &SpiTable,
    leaving: Leaving,
    place: u8,
    mut commit: Commit,
    value: u32,
) -> (ServePlace, ServeStep)
    ensures { result ≡ spec.serve_commits table.now leaving place commit value (commit_ends commit value) }
{
    if commit.took(value) {
        goes(leaving.commit_last(table, left_after(place)))
    } else {
        goes(ServePlace::Commit(leaving, place, commit))
    }
}

/// What follows a step after which the sequence waits again.
pub(super) fn waits(
    table: &SpiTable,
    served: Served,
    mut again: Again,
    value: u32,
) -> (ServePlace, ServeStep)
    ensures { result ≡ spec.serve_again table.now served again value (has_ended (again_gave again value)) }
{
    let step = if again.took(value).ended.is_some() {
        ServeStep::JobOver(served.ended(table, false))
    } else {
        ServeStep::Goes(None)
    };
    (ServePlace::Again(served, again), step)
}

/// What follows a step with which the sequence leaves the order.
pub(super) fn leaves(
    table: &SpiTable,
    served: Served,
    mut dropped: Dropped,
    value: u32,
) -> (ServePlace, ServeStep)
    ensures { result ≡ spec.serve_drops table.now served dropped value (has_ended (drop_gave dropped value)) }
{
    let step = if dropped.took(value).ended.is_some() {
        ServeStep::JobOver(served.ended(table, true))
    } else {
        ServeStep::Goes(None)
    };
    (ServePlace::Drop(served, dropped), step)
}

impl Served {
    /// How the sequence goes on after its job.
    pub(super) fn after_job(&self, table: &SpiTable, cancelled: bool, nexts: u32) -> SequenceNext
        ensures { result ≡ spec.after_job table.now self.now cancelled nexts }
    {
        let sequence = self.run.sequence;
        let place = next_of(nexts, sequence);
        if cancelled {
            SequenceNext::Ends(CANCELLED)
        } else if self.failed {
            SequenceNext::Ends(FAILED)
        } else if place + 1 < table.jobs_of(sequence).count {
            SequenceNext::Further(with_next(nexts, sequence, place + 1))
        } else {
            SequenceNext::Ends(0)
        }
    }

    /// The notices of the job's end.
    fn ended(&self, table: &SpiTable, sequence_too: bool) -> Ended
        ensures { result ≡ spec.ended_with table.now self.now sequence_too }
    {
        Ended {
            job: if table.notifies_job(self.run.job) {
                Some(Notice {
                    kind: NoticeKind::SpiJobEndNotification,
                    id: u32::from(self.run.job),
                })
            } else {
                None
            },
            sequence: if sequence_too && table.notifies_sequence(self.run.sequence) {
                Some(Notice {
                    kind: NoticeKind::SpiSeqEndNotification,
                    id: u32::from(self.run.sequence),
                })
            } else {
                None
            },
        }
    }
}

impl Leaving {
    /// The pin that ends first among the job's last places, of four.
    pub(super) fn release_last(&self, table: &SpiTable, count: u8) -> ServePlace
        ensures { result ≡ spec.release_last table.now self.now count }
    {
        match self.served.first_pinned(table, count) {
            Some(place) => {
                let placed = table.channel_at(self.served.run.job, place);
                ServePlace::Release(*self, place, release(placed, Side::Sent))
            }
            None => ServePlace::Result(*self),
        }
    }

    /// The first internal channel among the job's last places, of four.
    fn commit_last(&self, table: &SpiTable, count: u8) -> ServePlace
        ensures { result ≡ spec.commit_last table.now self.now count }
    {
        match self.served.first_internal(table, count) {
            Some(place) => ServePlace::Commit(*self, place, self.commit(table, place)),
            None => ServePlace::Result(*self),
        }
    }

    /// The received words of the channel at a place become readable. Of the last word's channel the bank is known.
    fn commit(&self, table: &SpiTable, place: u8) -> Commit
        ensures { result ≡ spec.commit_at table.now self.now place }
    {
        let placed = table.channel_at(self.served.run.job, place);
        match self.taker {
            Taker::Bank(bank) if place == self.served.at.channel => {
                Commit::Put(publish(placed, Side::Received, bank))
            }
            _ => Commit::Held(placed),
        }
    }

    /// What follows the job's result.
    pub(super) fn goes_on(&self) -> ServePlace
        ensures { result ≡ spec.goes_on self.now.served self.now.course }
    {
        match self.course {
            SequenceNext::Further(nexts) => ServePlace::Further(self.served, nexts),
            SequenceNext::Ends(result) => ServePlace::End(self.served, result),
        }
    }
}

/// How many of four places are left after this one.
pub(crate) fn left_after(place: u8) -> u8
    ensures { result ≡ 3 - place }
{
    if place < 3 { 3 - place } else { 0 }
}

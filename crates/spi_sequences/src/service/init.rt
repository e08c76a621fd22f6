ghost use Rattle.std.specs.Prelude.{◌≡◌};
ghost use Rattle.spi_machine.specs.Table.{channel_of};
ghost use Rattle.spi_sequences.specs.laws.services.InitSteps as spec;

use crate::words::{JOBS, SEQUENCES, STATE, job_word, order, running_word, sequence_word};
use mcal_base::{Move, Routine};
use service_outline::{Body, BodyTaken, Epilogue, acts_with, goes, nothing};
use spi_machine::SpiTable;
use word_shapes::Put;
use word_shapes::jobs::{Placed, Side, free, publish};

/// `Spi_Init`, from the load of the state word on. Until it acts the module is uninitialised.
#[derive(Clone, Copy)]
pub struct InitBody {
    /// The table.
    pub table: SpiTable,
    /// Where it stands.
    pub place: InitPlace,
}

/// A place of `Spi_Init`.
#[derive(Clone, Copy)]
pub enum InitPlace {
    /// It opens the mask.
    Opens,
    /// This unit is free.
    Free(u8),
    /// Nothing is pending on this unit.
    Empty(u8),
    /// The result of this job is good.
    Job(u8),
    /// The result of this sequence is good.
    Sequence(u8),
    /// This channel isn't set up.
    SetUp(u8),
    /// It loads the control word of these banks of this channel, to choose a bank.
    Choose(u8, Side),
    /// It stores the first word of a place of that bank.
    Fill(u8, Side, u8, u8),
    /// It closes the mask.
    Shut(u8, Side, u8),
    /// It makes the bank the newest.
    Commit(u8, Side, Put),
    /// It opens the mask again.
    Reopen(u8, Side),
    /// It closes the mask at the end.
    Closes,
    /// It acts, and the module is initialised.
    Store,
}

impl Body for InitBody {
    ghost use Rattle.spi_sequences.specs.laws.services.InitSteps.{init_work, init_takes};

    ghost work_of = { init_work };

    ghost takes = { init_takes };

    fn next(&self) -> Move {
        match &self.place {
            InitPlace::Opens | InitPlace::Reopen(..) => Move::Unmask,
            InitPlace::Free(unit) => Move::Store(running_word(*unit), 0),
            InitPlace::Empty(unit) => Move::Store(order(*unit).tally, 0),
            InitPlace::Job(job) => Move::Store(job_word(*job), 0),
            InitPlace::Sequence(sequence) => Move::Store(sequence_word(*sequence), 0),
            InitPlace::SetUp(channel) => self.set_up(*channel),
            InitPlace::Choose(channel, side) => {
                Move::Load(self.table.placed(*channel).control(*side))
            }
            InitPlace::Fill(channel, side, bank, place) => {
                let placed = self.table.placed(*channel);
                Move::Store(placed.word(*side, *bank, *place), first_word(placed, *side))
            }
            InitPlace::Shut(..) | InitPlace::Closes => Move::Mask,
            InitPlace::Commit(_, _, put) => put.next(),
            InitPlace::Store => Move::Store(STATE, 1),
        }
    }

    fn took(&mut self, value: u32) -> BodyTaken {
        let after = match self.place {
            InitPlace::Opens => InitPlace::Free(0),
            InitPlace::Free(unit) => InitPlace::Empty(unit),
            InitPlace::Empty(0) => InitPlace::Free(1),
            InitPlace::Empty(_) => InitPlace::Job(0),
            InitPlace::Job(job) if job < JOBS - 1 => InitPlace::Job(job + 1),
            InitPlace::Job(_) => InitPlace::Sequence(0),
            InitPlace::Sequence(sequence) if sequence < SEQUENCES - 1 => {
                InitPlace::Sequence(sequence + 1)
            }
            InitPlace::Sequence(_) => InitPlace::SetUp(0),
            InitPlace::SetUp(channel) => self.after_set_up(channel),
            InitPlace::Choose(channel, side) => self.fill(channel, side, free(value), 0),
            InitPlace::Fill(channel, side, bank, place) if place < 255 => {
                self.fill(channel, side, bank, place + 1)
            }
            InitPlace::Fill(channel, side, bank, _) => InitPlace::Shut(channel, side, bank),
            InitPlace::Shut(channel, side, bank) => {
                let put = publish(self.table.placed(channel), side, bank);
                InitPlace::Commit(channel, side, put)
            }
            InitPlace::Commit(channel, side, mut put) => {
                if put.took(value).ended.is_some() {
                    InitPlace::Reopen(channel, side)
                } else {
                    InitPlace::Commit(channel, side, put)
                }
            }
            InitPlace::Reopen(channel, Side::Sent) => InitPlace::Choose(channel, Side::Received),
            InitPlace::Reopen(channel, Side::Received) => after(channel),
            InitPlace::Closes => InitPlace::Store,
            InitPlace::Store => return acts_with(nothing(), Epilogue::Nothing),
        };
        self.place = after;
        goes()
    }
}

impl InitBody {
    /// A configured channel isn't set up; nothing is done where it isn't configured.
    fn set_up(&self, channel: u8) -> Move
        ensures { result ≡ spec.set_up_move self.now.table channel (channel_of self.now.table channel) }
    {
        match self.table.channel(u32::from(channel)) {
            Some(_) => Move::Store(self.table.placed(channel).set_up(), 0),
            None => Move::Load(STATE),
        }
    }

    fn after_set_up(&self, channel: u8) -> InitPlace
        ensures { result ≡ spec.after_set_up self.now.table channel }
    {
        if self.table.placed(channel).channel.internal {
            InitPlace::Choose(channel, Side::Sent)
        } else {
            after(channel)
        }
    }

    /// What is done with a place of a bank, or after the last one.
    fn fill(&self, channel: u8, side: Side, bank: u8, place: u8) -> InitPlace
        ensures { result ≡ spec.fill_from self.now.table channel side bank place }
    {
        if place < self.table.placed(channel).channel.length {
            InitPlace::Fill(channel, side, bank, place)
        } else {
            InitPlace::Shut(channel, side, bank)
        }
    }
}

/// The words of a side at first: default data to send, and zeros received.
fn first_word(placed: Placed, side: Side) -> u32
    ensures { result ≡ spec.first_in placed side }
{
    match side {
        Side::Sent => placed.channel.default_data,
        Side::Received => 0,
    }
}

/// What follows a channel.
fn after(channel: u8) -> InitPlace
    ensures { result ≡ spec.after_channel channel }
{
    if channel < 15 {
        InitPlace::SetUp(channel + 1)
    } else {
        InitPlace::Closes
    }
}

ghost use Rattle.std.specs.Prelude.{◌≡◌};
ghost use Rattle.spi_sequences.specs.laws.services.ChannelSteps as spec;

use mcal_base::{AnswerName, Move, Routine};
use service_outline::{Body, BodyTaken, Epilogue, acts_with, goes, named};
use spi_machine::Pointer;
use word_shapes::Put;
use word_shapes::jobs::{Placed, Side, free, publish};

/// The words that an internal channel is to send.
#[derive(Clone, Copy)]
pub struct Written {
    /// The channel.
    pub placed: Placed,
    /// Where they come from.
    pub source: Pointer,
}

/// `Spi_WriteIB`, from the load of the state word on: a bank is filled with the mask open.
#[derive(Clone, Copy)]
pub enum WriteBody {
    /// It loads the control word, to choose a bank.
    Choose(Written),
    /// It opens the mask, with this bank.
    Opens(Written, u8),
    /// It loads the word of this place of the source.
    Load(Written, u8, u8),
    /// It stores this word in this place of the bank.
    Fill(Written, u8, u8, u32),
    /// It closes the mask.
    Shut(Written, u8),
    /// It acts, and makes this bank the newest.
    Commit(Written, u8, Put),
}

impl Body for WriteBody {
    ghost use Rattle.spi_sequences.specs.laws.services.ChannelSteps.{write_work, write_takes};

    ghost work_of = { write_work };

    ghost takes = { write_takes };

    fn next(&self) -> Move {
        match self {
            WriteBody::Choose(written) => Move::Load(written.placed.control(Side::Sent)),
            WriteBody::Opens(..) => Move::Unmask,
            WriteBody::Load(written, _, place) => Move::Load(written.placed.source(*place)),
            WriteBody::Fill(written, bank, place, word) => {
                Move::Store(written.placed.word(Side::Sent, *bank, *place), *word)
            }
            WriteBody::Shut(..) => Move::Mask,
            WriteBody::Commit(_, _, put) => put.next(),
        }
    }

    fn took(&mut self, value: u32) -> BodyTaken {
        let after = match self {
            WriteBody::Choose(written) => WriteBody::Opens(*written, free(value)),
            WriteBody::Opens(written, bank) => from(*written, *bank, 0),
            WriteBody::Load(written, bank, place) => {
                WriteBody::Fill(*written, *bank, *place, value)
            }
            WriteBody::Fill(written, bank, place, _) => {
                if *place < 255 {
                    from(*written, *bank, *place + 1)
                } else {
                    WriteBody::Shut(*written, *bank)
                }
            }
            WriteBody::Shut(written, bank) => WriteBody::Commit(
                *written,
                *bank,
                publish(written.placed, Side::Sent, *bank),
            ),
            WriteBody::Commit(_, _, put) => {
                return if put.took(value).ended.is_some() {
                    acts_with(named(AnswerName::EOk), Epilogue::Nothing)
                } else {
                    goes()
                };
            }
        };
        *self = after;
        goes()
    }
}

/// What is done with the word of a place, or after the last one.
fn from(written: Written, bank: u8, place: u8) -> WriteBody
    ensures { result ≡ spec.write_from written bank place }
{
    if place < written.placed.channel.length {
        match written.source {
            Pointer::Users => WriteBody::Load(written, bank, place),
            Pointer::Null => {
                WriteBody::Fill(written, bank, place, written.placed.channel.default_data)
            }
        }
    } else {
        WriteBody::Shut(written, bank)
    }
}

ghost use Rattle.std.specs.Prelude.{◌≡◌, None};
ghost use Rattle.spi_sequences.specs.laws.services.ChannelSteps as spec;

use mcal_base::{Answer, AnswerName, Head, Move, Routine, Words};
use service_outline::{Body, BodyTaken, Epilogue, acts, copied, ends, goes, nothing};
use word_shapes::Take;
use word_shapes::jobs::{Placed, Side, bank_of, gave, release};

/// `Spi_ReadIB`, from the load of the state word on: the newest bank is pinned at the act and read with the mask open.
#[derive(Drop)]
pub struct ReadBody {
    /// The channel.
    pub placed: Placed,
    /// The bank.
    pub bank: u8,
    /// The words that it has read.
    pub words: Words,
    /// Where it stands.
    pub place: ReadPlace,
}

/// A place of `Spi_ReadIB`.
#[derive(Clone, Copy)]
pub enum ReadPlace {
    /// It pins the bank, and acts.
    Pin(Take),
    /// It opens the mask.
    Opens,
    /// It loads the next word.
    Load,
    /// It closes the mask.
    Shut,
    /// The pin ends.
    Release(Take),
    /// It opens the mask for the last time.
    Leave,
    /// Its frame has ended, with the words.
    Over,
}

impl Body for ReadBody {
    ghost use Rattle.spi_sequences.specs.laws.services.ChannelSteps.{read_work, read_takes};

    ghost work_of = { read_work };

    ghost takes = { read_takes };

    fn next(&self) -> Move {
        match &self.place {
            ReadPlace::Pin(take) | ReadPlace::Release(take) => take.next(),
            ReadPlace::Opens | ReadPlace::Leave => Move::Unmask,
            ReadPlace::Load => {
                let place = self.words.len() as u8;
                Move::Load(self.placed.word(Side::Received, self.bank, place))
            }
            ReadPlace::Shut => Move::Mask,
            ReadPlace::Over => Move::Load(self.placed.control(Side::Received)),
        }
    }

    fn took(&mut self, value: u32) -> BodyTaken {
        let after = match &mut self.place {
            ReadPlace::Pin(take) => {
                let taken = take.took(value);
                if taken.ended.is_none() {
                    return goes();
                }
                self.bank = bank_of(gave(&taken));
                self.place = ReadPlace::Opens;
                return acts();
            }
            ReadPlace::Opens => self.further(),
            ReadPlace::Load => {
                if self.words.len() < 64 {
                    self.words.push(value);
                }
                self.further()
            }
            ReadPlace::Shut => ReadPlace::Release(release(self.placed, Side::Received)),
            ReadPlace::Release(take) => {
                if take.took(value).ended.is_none() {
                    return goes();
                }
                ReadPlace::Leave
            }
            ReadPlace::Leave => ReadPlace::Over,
            ReadPlace::Over => return ends(None, nothing(), Epilogue::Nothing),
        };
        self.place = after;
        goes()
    }
}

impl ReadBody {
    /// A further word is there, or the mask is closed.
    fn further(&self) -> ReadPlace
        ensures { result ≡ spec.read_further self.now.placed self.now.words }
    {
        let count = self.words.len();
        if count < 64 && count < self.placed.channel.length as usize {
            ReadPlace::Load
        } else {
            ReadPlace::Shut
        }
    }

    /// Writes the answer, where the frame has ended.
    pub fn finish(&self, ended: &mut Option<Answer>)
        requires { ended.old ≡ None }
        ensures { ended.new ≡ spec.read_ends self.now }
    {
        if let ReadPlace::Over = self.place {
            *ended = Some(Answer {
                head: Head::Name(AnswerName::EOk),
                words: copied(self.words.as_slice()),
            });
        }
    }
}

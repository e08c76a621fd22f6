ghost use Rattle.std.specs.Prelude.{◌≡◌, None};
ghost use Rattle.driver_examples.specs.held.Toy as spec;

use mcal_base::{Answer, ErrorName, Head, Move, Service, Words};
use service_outline::{Body, BodyTaken, Epilogue, acts, acts_with, ends, error, goes, nothing};

/// A value is put into the bank that isn't pinned, which is the newest then.
#[derive(Clone, Copy)]
pub enum Putting {
    /// It looks which bank is pinned.
    Look(u32),
    /// It acts, and stores the value in this bank.
    Keep(u8, u32),
    /// It makes this bank the newest.
    Publish(u8),
}

impl Body for Putting {
    ghost use Rattle.driver_examples.specs.held.Toy.{put_work, put_takes};

    ghost work_of = { put_work };

    ghost takes = { put_takes };

    fn next(&self) -> Move {
        match *self {
            Putting::Look(_) => Move::Load(32_811),
            Putting::Keep(bank, value) => Move::Store(32_812 + u32::from(bank), value),
            Putting::Publish(bank) => Move::Store(32_810, 1 + u32::from(bank)),
        }
    }

    fn took(&mut self, value: u32) -> BodyTaken {
        let (after, taken) = match *self {
            Putting::Look(kept) if value == 1 => (Putting::Keep(1, kept), goes()),
            Putting::Look(kept) => (Putting::Keep(0, kept), goes()),
            Putting::Keep(bank, _) => (Putting::Publish(bank), acts()),
            Putting::Publish(_) => (*self, ends(None, nothing(), Epilogue::Nothing)),
        };
        *self = after;
        taken
    }
}

/// The value that was kept last is taken, twice: the act pins its bank, which is read with the mask open. The body keeps what
/// it read, and ends its frame with that at its last opening of the mask.
#[derive(Clone, Copy)]
pub enum Taking {
    /// It looks which bank is the newest.
    Newest,
    /// It acts, and pins this bank.
    Pin(u8),
    /// It opens the mask.
    Open(u8),
    /// It reads the bank.
    Copy(u8),
    /// It reads the bank once more, with what it read.
    Again(u8, u32),
    /// It closes the mask, with all that it read.
    Shut(u8, u32, u32),
    /// It releases the bank.
    Release(u8, u32, u32),
    /// It opens the mask for the last time.
    Leave(u32, u32),
    /// Its frame has ended, with what it read.
    Over(u32, u32),
}

impl Body for Taking {
    ghost use Rattle.driver_examples.specs.held.Toy.{take_work, take_takes};

    ghost work_of = { take_work };

    ghost takes = { take_takes };

    fn next(&self) -> Move {
        match *self {
            Taking::Newest => Move::Load(32_810),
            Taking::Pin(bank) => Move::Store(32_811, 1 + u32::from(bank)),
            Taking::Open(_) | Taking::Leave(..) => Move::Unmask,
            Taking::Copy(bank) | Taking::Again(bank, _) => Move::Load(32_812 + u32::from(bank)),
            Taking::Shut(..) => Move::Mask,
            Taking::Release(..) => Move::Store(32_811, 0),
            Taking::Over(..) => Move::Load(32_809),
        }
    }

    fn took(&mut self, value: u32) -> BodyTaken {
        let (after, taken) = match *self {
            Taking::Newest if value == 0 => (*self, none_kept()),
            Taking::Newest => (Taking::Pin(named(value)), goes()),
            Taking::Pin(bank) => (Taking::Open(bank), acts()),
            Taking::Open(bank) => (Taking::Copy(bank), goes()),
            Taking::Copy(bank) => (Taking::Again(bank, value), goes()),
            Taking::Again(bank, first) => (Taking::Shut(bank, first, value), goes()),
            Taking::Shut(bank, first, second) => (Taking::Release(bank, first, second), goes()),
            Taking::Release(_, first, second) => (Taking::Leave(first, second), goes()),
            Taking::Leave(first, second) => (Taking::Over(first, second), goes()),
            Taking::Over(..) => (*self, ends(None, nothing(), Epilogue::Nothing)),
        };
        *self = after;
        taken
    }
}

impl Taking {
    /// Writes the answer, where the frame has ended.
    pub fn finish(&self, ended: &mut Option<Answer>)
        requires { ended.old ≡ None }
        ensures { ended.new ≡ spec.take_ends self.now }
    {
        if let Taking::Over(first, second) = *self {
            let mut words = Words::new();
            words.push(first);
            words.push(second);
            *ended = Some(Answer {
                head: Head::Numbers,
                words,
            });
        }
    }
}

/// The bank that a word names.
fn named(word: u32) -> u8
    ensures { result ≡ spec.named word }
{
    if word == 1 { 0 } else { 1 }
}

/// Nothing was kept: an error.
fn none_kept() -> BodyTaken
    ensures { result ≡ spec.none_kept }
{
    acts_with(
        nothing(),
        error(true, 2, Service::AdcReadGroup, ErrorName::AdcIdle),
    )
}

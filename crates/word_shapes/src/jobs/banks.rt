ghost use Rattle.std.specs.Prelude.{◌≡◌};
ghost use Rattle.word_shapes.specs.jobs.Placing as placing;
ghost use Rattle.word_shapes.specs.jobs.Parts as spec;

use crate::jobs::channel::{Placed, Side};
use crate::{Put, Take};
use mcal_base::{Move, Routine, Taken};

/// A bank that the put of some words fills, as its number.
pub fn bank_of(word: u32) -> u8
    ensures { result ≡ placing.bank_of word }
{
    (word % 4) as u8
}

/// The number that the last step of a routine gave, 0 where it gave none.
pub fn gave(taken: &Taken) -> u32
    ensures { result ≡ spec.gave taken.now }
{
    match &taken.ended {
        Some(answer) => match answer.words.as_slice().first() {
            Some(number) => *number,
            None => 0,
        },
        None => 0,
    }
}

/// A bank that is neither newest nor pinned, by the control word.
pub fn free(control: u32) -> u8
    ensures { result ≡ spec.free_bank control }
{
    let mut put = Put::Choose(0);
    bank_of(gave(&put.took(control)))
}

/// A bank that is neither newest nor pinned is chosen, for words to be put. It gives the bank.
pub fn choose(placed: Placed, side: Side) -> Put
    ensures { result ≡ spec.choosing placed side }
{
    Put::Choose(placed.control(side))
}

/// A bank becomes the newest.
pub fn publish(placed: Placed, side: Side, bank: u8) -> Put
    ensures { result ≡ spec.committing placed side bank }
{
    Put::Commit(placed.control(side), u32::from(bank))
}

/// The newest bank is pinned. It gives the bank.
pub fn pin(placed: Placed, side: Side) -> Take
    ensures { result ≡ spec.pinning placed side }
{
    Take::Pin(placed.control(side))
}

/// The pin ends.
pub fn release(placed: Placed, side: Side) -> Take
    ensures { result ≡ spec.releasing placed side }
{
    Take::Release(placed.control(side))
}

/// What a running job received of an internal channel becomes readable.
#[derive(Clone, Copy)]
pub enum Commit {
    /// It loads the bank that the job holds.
    Held(Placed),
    /// It makes the bank the newest.
    Put(Put),
}

impl Commit {
    /// The next move.
    pub fn next(&self) -> Move
        ensures { result ≡ spec.commit_move self.now }
    {
        match self {
            Commit::Held(placed) => Move::Load(placed.held()),
            Commit::Put(put) => put.next(),
        }
    }

    /// Takes what the move gave, and tells whether it was the last one.
    pub fn took(&mut self, value: u32) -> bool
        ensures state { self.new ≡ spec.commit_left self.old value }
        ensures ended { result ≡ spec.commit_ends self.old value }
    {
        match self {
            Commit::Held(placed) => {
                let placed = *placed;
                *self = Commit::Put(publish(placed, Side::Received, bank_of(value)));
                false
            }
            Commit::Put(put) => put.took(value).ended.is_some(),
        }
    }
}

ghost use Rattle.std.specs.Prelude.{◌≡◌, ◌+◌, ◌<◌, true, false, List, [], ◌∷◌, if◌then◌else◌, nat_lt, length};
ghost use Rattle.mcal_base.specs.declared.TheConstants.{WORDS};
ghost use Rattle.word_shapes.specs.Order.{Entry, is_there, added, waiting, without, choice, chosen};
ghost use Rattle.word_shapes.specs.Playing.{Memory, Ends};
ghost use Rattle.word_shapes.specs.PriorityQueue as spec;

use crate::add::Add;
use crate::again::Again;
use crate::choosing::{Front, Next};
use crate::dropped::Dropped;
use crate::packed::Places;
use crate::search::Search;

/// An order of at most 16 entries, numbered 0 to 15, each waiting or not, in three driver words from this number on.
/// Words that are 0 stand for the empty order, and so does any order whose third word is cleared. The moves of one
/// routine stand in one window, and nothing but these routines stores to the three words.
#[derive(Clone, Copy)]
pub struct PriorityQueue {
    /// The number of the first word.
    pub at: u32,
}

impl PriorityQueue {
    fn places(&self) -> Places
        requires { self.now.at + 2 < WORDS }
        ensures { result ≡ spec.words_of self.now }
    {
        Places {
            low: self.at,
            high: self.at + 1,
            tally: self.at + 2,
        }
    }

    /// Puts an entry that isn't there in the last place, and it waits. It gives nothing.
    pub fn add(&self, entry: u32) -> Add
        requires room { self.now.at + 2 < WORDS }
        requires entry { entry < 16 }
        ensures starts { result ≡ spec.add_start self.now entry }
        ensures adds { (m : Memory) (xs : List Entry) → spec.Holds self.now m xs → is_there entry xs ≡ false
            → Ends spec.adding (spec.own_of self.now) 4 result m
            (λ after words. spec.Holds self.now after (added entry xs) × (words ≡ [])) }
    {
        Add::Count(self.places(), entry)
    }

    /// Gives the waiting entry of highest rank, among equal ranks the one added first, and ends its waiting; 16 where
    /// no entry waits.
    pub fn next(&self, ranks: [u32; 16]) -> Next
        requires { self.now.at + 2 < WORDS }
        ensures starts { result ≡ spec.next_start self.now ranks }
        ensures chooses { (m : Memory) (xs : List Entry) → spec.Holds self.now m xs
            → Ends spec.choosing_next (spec.own_of self.now) (if nat_lt 8 (length xs) then 4 else 3) result m
            (λ after words. spec.Holds self.now after (chosen (choice ranks xs) xs) × (words ≡ choice ranks xs ∷ [])) }
    {
        Next::Look(Search::Tally(self.places()), ranks)
    }

    /// Gives what `next` would give, and changes nothing.
    pub fn front(&self, ranks: [u32; 16]) -> Front
        requires { self.now.at + 2 < WORDS }
        ensures starts { result ≡ spec.front_start self.now ranks }
        ensures chooses { (m : Memory) (xs : List Entry) → spec.Holds self.now m xs
            → Ends spec.choosing_front (spec.own_of self.now) (if nat_lt 8 (length xs) then 3 else 2) result m
            (λ after words. spec.Holds self.now after xs × (words ≡ choice ranks xs ∷ [])) }
    {
        Front {
            search: Search::Tally(self.places()),
            ranks,
        }
    }

    /// Makes an entry wait again, in its place; one that isn't there stays out. It gives nothing.
    pub fn again(&self, entry: u32) -> Again
        requires room { self.now.at + 2 < WORDS }
        requires entry { entry < 16 }
        ensures starts { result ≡ spec.again_start self.now entry }
        ensures waits { (m : Memory) (xs : List Entry) → spec.Holds self.now m xs
            → Ends spec.waiting_again (spec.own_of self.now) 2 result m
            (λ after words. spec.Holds self.now after (waiting entry true xs) × (words ≡ [])) }
    {
        Again::Look(self.places(), entry)
    }

    /// Takes out an entry that is there, and the others keep their order. It gives nothing.
    pub fn drop(&self, entry: u32) -> Dropped
        requires room { self.now.at + 2 < WORDS }
        requires entry { entry < 16 }
        ensures starts { result ≡ spec.drop_start self.now entry }
        ensures drops { (m : Memory) (xs : List Entry) → spec.Holds self.now m xs → is_there entry xs ≡ true
            → Ends spec.dropping (spec.own_of self.now) (if nat_lt 8 (length xs) then 6 else 4) result m
            (λ after words. spec.Holds self.now after (without entry xs) × (words ≡ [])) }
    {
        Dropped::Look(Search::Tally(self.places()), entry)
    }
}

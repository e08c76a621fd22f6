ghost use Rattle.std.specs.Prelude.{ℕ, ◌≡◌, ◌<◌, ◌≤◌, ◌^◌, ◌++◌, [], ◌∷◌, length, IfOk};
ghost use Rattle.run_model.specs.Packing as spec;
ghost use Rattle.run_model.specs.declared.item.What.TheVariants as whats;

use crate::kept::{JournalLists, Kept, KeptWhat, Rest};
use mcal_base::Move;
use std::alloc::{AllocError, Global};
use std::marker::Model;

/// The most items that a journal may have room for: each may have a rest, whose number has 32 bits.
const MOST_ITEMS: usize = 4_294_967_295;

/// What few steps have, with room that was taken before the run.
#[derive(Drop)]
struct Rests {
    rests: Vec<Rest>,
    room: usize,
}

impl Model for Rests {
    ghost use Rattle.std.specs.Prelude.{vec_len, vec_capacity, ◌≤◌, ◌<◌, ◌^◌};
    ghost use Rattle.run_model.specs.Rooms.{RestsKept};

    ghost Value = { RestsKept };

    ghost view = { λ r. record { rests = r.rests.items; room = r.room } };

    ghost invariant = { λ r. (vec_len r.rests ≤ r.room) × (r.room ≤ vec_capacity r.rests) × (r.room < 2 ^ 32) };
}

impl Rests {
    /// No rests, and room for so many.
    fn with_room(alloc: Global, room: usize) -> Result<Rests, AllocError>
        requires { room < 2 ^ 32 }
        ensures { IfOk result (λ r. r ≡ record { rests = []; room = room }) }
    {
        Ok(Rests {
            rests: Vec::with_capacity(alloc, room)?,
            room,
        })
    }

    /// The rests.
    fn as_slice(&self) -> &[Rest]
        ensures { result.now ≡ self.now.rests }
    {
        self.rests.as_slice()
    }

    /// Keeps a rest, and tells its number. It takes no memory.
    fn keep(&mut self, rest: Rest) -> u32
        requires { length self.old.rests < self.old.room }
        ensures rest { self.new ≡ record self.old { rests = self.old.rests ++ rest ∷ [] } }
        ensures number { result ≡ length self.old.rests }
    {
        let number = self.rests.len() as u32;
        self.rests.push_reserved(rest);
        number
    }

    /// Keeps a step with its rest, and gives what its item says.
    fn pack_step(&mut self, made: Move, rest: Rest) -> KeptWhat
        requires { length self.old.rests < self.old.room }
        ensures rests { self.new ≡ record self.old { rests = self.old.rests ++ rest ∷ [] } }
        ensures same { spec.what_of self.new.rests result ≡ whats.Stepped (spec.step_with made rest.value rest) }
        ensures numbered { spec.IsNumbered (length self.new.rests) result }
    {
        let number = self.keep(rest);
        KeptWhat::SteppedWith(made, number)
    }
}

/// The items of a journal, with room that was taken before the run.
#[derive(Drop)]
pub struct Items {
    kept: Vec<Kept>,
    rests: Rests,
    room: usize,
}

impl Model for Items {
    ghost use Rattle.std.specs.Prelude.{vec_len, vec_capacity, ◌≡◌, ◌≤◌, length};
    ghost use Rattle.run_model.specs.Packing.{items_of, AllNumbered};
    ghost use Rattle.run_model.specs.Rooms.{ItemsKept};

    ghost Value = { ItemsKept };

    ghost view = { λ j. record { items = items_of j.rests.rests j.kept.items; room = j.room } };

    ghost invariant = { λ j. (vec_len j.kept ≤ j.room) × (j.room ≤ vec_capacity j.kept) × (length j.rests.rests ≤ vec_len j.kept) × (j.rests.room ≡ j.room) × AllNumbered (length j.rests.rests) j.kept.items };
}

impl Items {
    /// No items and no room. It takes no memory.
    pub fn empty(alloc: Global) -> Items
        ensures { result ≡ record { items = []; room = 0 } }
    {
        Items {
            kept: Vec::new(alloc),
            rests: Rests {
                rests: Vec::new(alloc),
                room: 0,
            },
            room: 0,
        }
    }

    /// No items, and room for so many. No memory has room for more than 4,294,967,295.
    pub fn with_room(alloc: Global, room: usize) -> Result<Items, AllocError>
        ensures { IfOk result (λ j. j ≡ record { items = []; room = room }) }
    {
        if room > MOST_ITEMS {
            return Err(AllocError);
        }
        Ok(Items {
            kept: Vec::with_capacity(alloc, room)?,
            rests: Rests::with_room(alloc, room)?,
            room,
        })
    }

    /// The lists in which a journal with these words stands.
    pub fn lists<'a>(&'a self, words: &'a [u32]) -> JournalLists<'a>
        ensures items { spec.items_of result.rests.now result.items.now ≡ self.now.items }
        ensures words { result.words.now ≡ words.now }
    {
        JournalLists {
            items: self.kept.as_slice(),
            rests: self.rests.as_slice(),
            words,
        }
    }

    /// One more item that is no step with a rest. It takes no memory.
    pub fn push(&mut self, line: u32, depth: u32, what: KeptWhat)
        requires room { length self.old.items < self.old.room }
        requires plain { spec.IsNumbered 0 what }
        ensures { self.new ≡ record self.old { items = self.old.items ++ spec.item_of [] (spec.kept_at line depth what) ∷ [] } }
    {
        self.kept.push_reserved(Kept { line, depth, what });
    }

    /// One more step that has a rest. It takes no memory.
    pub fn push_step(&mut self, line: u32, depth: u32, made: Move, rest: Rest)
        requires { length self.old.items < self.old.room }
        ensures { self.new ≡ record self.old { items = self.old.items ++ spec.step_item line depth made rest ∷ [] } }
    {
        let what = self.rests.pack_step(made, rest);
        self.kept.push_reserved(Kept { line, depth, what });
    }
}

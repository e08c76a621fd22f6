ghost use Rattle.std.specs.Prelude.{List, ℕ, ◌≡◌, ◌<◌, ◌≤◌, [], ◌∷◌, ◌++◌, length, nat_eq};

use arrayvec::ArrayVec;
use std::marker::Model;

/// At most `N` items, which contracts see as a list. No call on it takes memory.
#[derive(Debug, Drop)]
pub struct Short<T, const N: usize> {
    items: ArrayVec<T, N>,
}

impl<T, const N: usize> Model for Short<T, N> {
    ghost use Rattle.std.specs.Prelude.{List};
    ghost use Rattle.std.specs.Coded.{coded_list};

    ghost Value = { List T };

    ghost coded = { coded_list T.code };

    ghost view = { λ w. w.items.items };

    ghost inverse = { λ xs. record { items = record { items = xs } } };
}

impl<T: Default + Drop, const N: usize> Short<T, N> {
    /// No items.
    pub fn new() -> Self
        ensures { result ≡ [] }
    {
        Short {
            items: ArrayVec::new(),
        }
    }

    /// One more item, at the end.
    pub fn push(&mut self, item: T)
        requires { length self.old < N }
        ensures { self.new ≡ self.old ++ item ∷ [] }
    {
        self.items.push(item);
    }
}

impl<T, const N: usize> Short<T, N> {
    /// The number of items.
    pub fn len(&self) -> usize
        ensures count { result ≡ length self.now }
        ensures within { result ≤ N }
    {
        self.items.len()
    }

    /// Whether there is no item.
    pub fn is_empty(&self) -> bool
        ensures { result ≡ nat_eq (length self.now) 0 }
    {
        self.items.len() == 0
    }

    /// The items.
    pub fn as_slice(&self) -> &[T]
        ensures items { result.now ≡ self.now }
        ensures within { length result.now ≤ N }
    {
        self.items.as_slice()
    }
}

impl<T: Default + Drop, const N: usize> Default for Short<T, N> {
    fn default() -> Self {
        Short::new()
    }
}

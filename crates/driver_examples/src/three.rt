//! Three small drivers as one: each has one driver word, a call that stores it and a call that gives it.

mod cell;
mod trio;

pub use cell::{Cell, CellCall, CellFrame};
pub use trio::{Three, three};

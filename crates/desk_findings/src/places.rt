//! Where things stand in a text: lines and columns, and the keys and values of a configuration.

mod lines;
mod measured;
mod placed;
mod scanner;

pub use lines::{Lines, Position, Span, characters};
pub use placed::{Placed, Places};
pub use scanner::places_in;

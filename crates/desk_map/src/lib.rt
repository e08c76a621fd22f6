//! Whose the driver words and the interrupt lines of a board are, in words.
#![tactic(auto)]

mod lines;
mod mapped;
mod words;

pub use mapped::memory_map;

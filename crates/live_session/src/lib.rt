//! A session over a driver on the chip: a configuration, then a line at a time, each answered at once.
#![tactic(auto)]

mod board;
mod command;
mod frames;
mod lines;
mod obey;
mod page;
mod places;
mod session;
mod shown;
mod shows;
mod sights;
mod steps;
mod talk;
mod wires;

pub use session::Session;
pub use sights::Sights;
pub use talk::{End, converse};

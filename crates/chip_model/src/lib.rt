//! The chip as frames and the script see it: all blocks, the interrupt controller and the driver words behind one bus.
#![tactic(auto)]

mod bus;
mod incoming;
pub mod laws;
mod wiring;
mod words;

pub use bus::{Applied, Bus};
pub use incoming::Incoming;

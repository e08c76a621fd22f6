//! The serial driver: its services and handlers, as the runner and the layers above see them.
#![tactic(auto)]

mod driver;
mod frames;
mod told;

pub use driver::SpiDriver;
pub use frames::{SpiFrame, SpiMachine};

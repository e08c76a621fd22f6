//! The converter driver: its services and handlers, as the runner and the layers above see them.
#![tactic(auto)]

mod driver;
mod frames;
mod steps;
mod told;

pub use driver::AdcDriver;
pub use frames::{AdcFrame, AdcMachine};

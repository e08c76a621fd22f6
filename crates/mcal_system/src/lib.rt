//! A run of a script over the drivers of all modules.
#![tactic(auto)]

mod at_rest;
mod system;
mod wires;

pub use at_rest::AtRest;
pub use mcal_drivers::{Drivers, Frame};
pub use script_runner::TooLong;
pub use system::{MOST_STEPS, System};

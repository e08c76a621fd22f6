//! The drivers of all modules as one.
#![tactic(auto)]

mod drivers;
mod frame;
mod outputs;

pub use drivers::Drivers;
pub use frame::Frame;

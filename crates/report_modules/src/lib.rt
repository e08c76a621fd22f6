//! The checker of reports over all modules, and that its machine of all modules is the drivers'.
#![tactic(auto)]

mod entry;
pub mod machines;

pub use entry::audit;

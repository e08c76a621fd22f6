//! The board of a session with the drivers of all modules.
#![tactic(auto)]

mod modules;

pub use modules::AllModules;

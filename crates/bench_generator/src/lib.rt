//! The generator: the board, the script of a seed, and the line that tells of it.
#![tactic(auto)]

mod configuration;
mod orders;
mod writing;

pub use configuration::board;
pub use orders::value_of;
pub use writing::{first_line, script};

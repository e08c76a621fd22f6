//! The page of a run: a lane for each level and each handler's line, with their frames, steps and waits, and what else
//! was told above and below them.
#![tactic(auto)]

mod board;
mod caption;
mod draw;
mod input_name;
mod laws;
mod marks;
mod page;
mod page_state;
mod rows;

pub use input_name::InputName;
pub use laws::keeps_labels_apart;
pub use page::page_of;

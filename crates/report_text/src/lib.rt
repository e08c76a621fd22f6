//! A printed report as far as it isn't read: the lines of a script line's block are taken one by one, printed again and
//! compared, or read as what they tell. And which journal a report tells (`reading`).
#![tactic(auto)]

mod ending;
mod laws;
pub mod reading;
mod text;

pub use ending::Ending;
pub use laws::blocks_are_taken;
pub use text::Report;

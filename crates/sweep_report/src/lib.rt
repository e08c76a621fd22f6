//! What is printed of a sweep: as text, as JSON, and the bench file of one place.
#![tactic(auto)]

mod json;
mod listed;
mod page;
mod shown;

pub use json::sweep_json;
pub use listed::text_of;
pub use page::sweep_text;
pub use shown::{SweepShown, flat_text};

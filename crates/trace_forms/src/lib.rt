//! The signs of a trace as rows of characters, and what a sign says in words.
#![tactic(auto)]

mod escapes;
pub mod kinds;
mod rows;
mod sentences;

pub use escapes::Escaped;
pub use rows::rows_of;
pub use sentences::{Answered, Named, Request, Sentence};

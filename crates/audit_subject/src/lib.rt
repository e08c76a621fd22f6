//! A module as a checker of printed reports asks it: its machine, and what the frames of its calls and lines are judged by.
#![tactic(auto)]

mod asking;
mod both;
mod hearing;
mod lines;
mod origin;
mod subject;
mod telling;
mod terms;

pub use asking::names_own;
pub use hearing::{Heard, hear};
pub use lines::{calm, unready};
pub use origin::Origin;
pub use subject::Subject;
pub use telling::times_at;
pub use terms::{call_terms, line_terms};

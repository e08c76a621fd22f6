//! What is found in a text: each finding with its place, what is allowed there, and how it is shown; and where things
//! stand in a text (`places`).
#![tactic(auto)]

mod finding;
mod near;
pub mod places;
mod showing;

pub use finding::{Finding, Severity, sorted};
pub use near::{allowed, nearest};
pub use showing::shown;

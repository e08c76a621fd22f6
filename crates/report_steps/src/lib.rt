//! The steps that the lines of a block tell, judged beside an auditor: each is read, made, and looked at.
#![tactic(auto)]

mod lines;
mod made;
mod numbers;
mod series;
mod single;

pub use lines::{next, one_more, takes};
pub use made::Made;
pub use series::{says_reset, steps};
pub use single::step;

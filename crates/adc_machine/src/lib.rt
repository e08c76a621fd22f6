//! The machine of the converter groups: its calls and what they are about, what the converter driver keeps of a configuration,
//! and what calls, servings, starts, aborts and hardware do.
#![tactic(auto)]

mod call;
mod groups;
pub mod laws;
mod options;
mod request;
mod table;

pub use call::{Call, GroupCall, ResultBuffer};
pub use request::{call_of, has_service};
pub use table::{AdcTable, Group};

//! Small drivers to copy from: three as one, one with a guest, and one whose frames go on with the mask open.
#![tactic(auto)]

pub mod guest;
pub mod held;
pub mod three;

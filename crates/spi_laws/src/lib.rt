//! The serial driver's calls and handlers are right at each of their places: what starts a unit, the handlers that serve
//! it, and the call that sends a sequence and waits. Laws alone.
#![tactic(auto)]

pub mod sending;
pub mod serving;
pub mod starting;

//! The converter driver's turns, its reads of the newest round and its handlers: that each step of them is right. Laws alone.
#![tactic(auto)]

pub mod serving;
pub mod turns;

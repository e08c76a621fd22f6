//! The blocks of the reference chip, by times: timers, pulse outputs, capture channels, converter units, and what serves
//! words, clock, pins and RAM. Time is kept, and what a register reads is computed when it is read, so that a tick of any
//! length is one addition.
#![tactic(auto)]

pub mod captures;
pub mod converter;
pub mod pulses;
pub mod timers;
pub mod units;

//! The machine of the serial units as a program: what each call, each start, each serving, each fill and fault and a reset
//! do to its state, and what they tell; and what its frames are judged by.
#![tactic(auto)]

mod buffers;
mod carrying;
mod channels;
mod checks;
mod configured;
mod may;
mod numbered;
mod options;
mod part;
mod pending;
mod queue;
mod results;
mod run;
mod serials;
mod subject;
mod units;
mod wire;
mod words;

pub use part::SerialsState;
pub use serials::Serials;

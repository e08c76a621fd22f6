//! The machine of the pulse outputs as a program: what each call, each serving and a reset do to its state, and what they
//! tell. A level and a mark are computed from times, whatever passed between.
#![tactic(auto)]

mod checks;
mod duties;
mod may;
mod output;
mod part;
mod pulse;
mod pulses;
mod regime;
mod subject;

pub use output::Output;
pub use part::PulsesState;
pub use pulse::Pulse;
pub use pulses::Pulses;
pub use regime::{Next, Regime};

//! The signs of a trace as value changes for waveform viewers: each signal that changes, and each change of it.
#![tactic(auto)]

mod board;
mod file;
mod laws;
mod settings;
mod signal;
mod spelled;
mod value;

pub use file::waves_of;
pub use laws::writes_changes_alone;
pub use settings::Clock;

//! What holds of the places of a sweep: that they are all moments of its block.
#![tactic(auto)]

mod laws;

pub use laws::{places_are_all, runs_stop_at_places};

//! The machine of the capture channels as a program: what each edge, each call, each serving and a reset do to its state,
//! and what they tell; and what its frames are judged by. Of the edges that were served it keeps what the next one needs.
#![tactic(auto)]

mod capture;
mod captures;
mod checks;
mod may;
mod measure;
mod part;
mod queue;
mod subject;

pub use capture::{Capture, Start};
pub use captures::Captures;
pub use measure::{OpenMeasure, Value};
pub use part::CapturesState;
pub use queue::{Edge, Queue};

//! The capture block of the reference chip: eight channels, each with a queue of edges and a count.

mod block;
mod capture;
pub mod laws;
mod queue;

pub use block::CaptureBlock;

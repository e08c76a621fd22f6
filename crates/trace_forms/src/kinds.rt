//! What the signs of a trace stand for, in whatever form they are printed.

mod holds;
mod signs;

pub use holds::may_begin;
pub use signs::{Asked, Ending, Frame, Sign, What};

//! The signs of a trace: what is drawn of it, line by line, in whatever form.

mod laws;
mod moments;
mod signs;

pub use laws::draws_each_line;
pub use moments::{Moment, moments_of};
pub use signs::{Drawing, drawing_of};

//! The driver of channels, ports and channel groups: its calls as frames of one access, or two steps where one tells an
//! error.
//!
//! It has no state: what its calls read and write are the pins of the pins' driver, in whose block it is a guest. It never
//! closes the mask, and acts at its one access, so that each value that it gives is of one moment.
#![tactic(auto)]

mod access;
mod driver;
mod frame;

pub use access::Access;
pub use driver::{DioDriver, MOST_STEPS};
pub use frame::{DioFrame, NOWHERE};

//! The timer block of the reference chip: eight channels by times. Time is kept, and a counter is computed
//! when it is read, so that a tick of any length is one addition.

mod block;
pub mod laws;
mod run;
mod timer;

pub use block::TimerBlock;

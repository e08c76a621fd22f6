//! The pulse block of the reference chip: eight outputs by times. Time is kept, and a level or a flag is computed
//! when it is read, so that a tick of any length is one addition.

mod block;
pub mod laws;
mod pulse;
mod regime;

pub use block::PulseBlock;

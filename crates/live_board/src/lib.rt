//! A driver on the chip, driven deed by deed by whoever asks: a call or a handler begins, the top frame makes a step, time
//! goes by, the hardware moves, the chip is reset. There is no script, and no journal is kept.
#![tactic(auto)]

mod live;
mod outside;

pub use live::Live;
pub use outside::{MOST_TICKS, Refusal};

//! The interrupt controller: which lines are enabled, whether the mask is closed, and why an entry is held.
#![tactic(auto)]

mod held;
mod irq;

pub use held::Held;
pub use irq::Irq;

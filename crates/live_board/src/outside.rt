//! What is counted of the outside, and why a deed isn't done.

use irq_control::Held;

/// The most ticks of the oscillator since power on.
pub const MOST_TICKS: u64 = 576_460_752_303_423_488;

/// Why a deed isn't done.
#[derive(Clone, Copy)]
pub enum Refusal {
    /// A cause holds it.
    Held(Held),
    /// More ticks, steps or words than are counted would have gone by since power on.
    Spent,
}

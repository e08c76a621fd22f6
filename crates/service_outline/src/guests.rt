//! A driver with a guest: the guest's calls act on the host's state, since both work in one block of the chip.

mod guest;
mod hosted;

pub use guest::Guest;
pub use hosted::Hosted;

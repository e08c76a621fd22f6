//! A small module whose frames go on with the mask open: sections that are filled word by word, a unit that is started
//! after a notice, a value that is copied from a pinned bank while newer ones are kept, a line that is polled, and a reset.

mod asking;
mod call;
mod filling;
mod frames;
mod keeping;
mod polling;
mod rebooting;

pub use asking::Asking;
pub use call::Call;
pub use filling::{Filled, Job};
pub use frames::{ToyBody, ToyFrame, ToyModule, ToyState};
pub use keeping::{Putting, Taking};
pub use polling::Polling;
pub use rebooting::Rebooting;

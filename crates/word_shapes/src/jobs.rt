//! Serial channels as their driver words stand, and the parts of jobs that load and store them: a channel is made ready for
//! a job, its next word is found, what came in is kept, and banks are put and taken.

mod banks;
mod channel;
mod finding;
mod keeping;
mod preparing;
mod set_up;

pub use banks::{Commit, bank_of, choose, free, gave, pin, publish, release};
pub use channel::{Channel, Placed, START, Side};
pub use finding::Find;
pub use keeping::{Keep, Taker, asked, taker_of};
pub use preparing::Prepare;
pub use set_up::SetUp;

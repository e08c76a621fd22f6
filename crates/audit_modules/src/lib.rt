//! Where the chip and the machines of all modules agree: wherever the mask is open, at rest, and at a notice.
#![tactic(auto)]

mod agreeing;
mod arrays;
mod laws;
mod outputs;
mod pins;
mod ram;
mod results;
mod stamps;

pub use agreeing::{arrays_stand, outputs_stand, rests, shows};
pub use arrays::arrays_agree;
pub use laws::{keeps_arrays, keeps_registers, moves_keep, results_have_room};
pub use outputs::outputs_agree;
pub use pins::pins_stand;
pub use ram::ram_agrees;
pub use results::results_agree;
pub use stamps::stamps_agree;

//! What the machines of the standard have in common as programs: what each is to the others, two of them as one, what stands
//! outside, what a deed tells, answers, and arithmetic as definitions have it.
#![tactic(auto)]

mod answers;
mod arithmetic;
mod both;
mod done;
mod either;
mod outside;
mod part;
mod samples;
mod told;

pub use answers::{named, nothing, number, numbers};
pub use arithmetic::{quotient, remainder};
pub use both::Both;
pub use done::{Begun, Done};
pub use either::Either;
pub use outside::Outside;
pub use part::{Part, Polled};
pub use samples::{Samples, Taken};
pub use told::{Notices, Told};

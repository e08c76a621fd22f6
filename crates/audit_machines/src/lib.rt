//! The machine of all modules as a program: what happens is told to it, and it says whether the standard allows it and what
//! the standard answers.
#![tactic(auto)]

mod all;
mod around_pins;
mod happening;
mod hosted;
mod hosting;
mod machines;
mod pin_calls;
mod request;
mod serial;
mod shows;
mod times;
mod whole;

pub use all::AllModules;
pub use happening::{Happening, Times, Took};
pub use hosted::{HasPins, Hosted};
pub use machines::Machines;
pub use pin_calls::Modules;
pub use request::{AnyCall, StateCall, call_of};
pub use whole::StateParts;

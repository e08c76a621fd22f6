//! The keys of a configuration's tables: how they are spelled, the kinds of their values, lists of numbers and names, and
//! the fault that comes first in the order of a walk.
#![tactic(auto)]

mod fault;
mod key_name;
mod keys;
mod kinds;
mod laws;
mod lists;
mod named;
mod printed;

pub use fault::{ConfigFault, Path};
pub use key_name::KeyName;
pub use keys::{
    name_if, name_or, needed_name, needed_truth, needed_whole, text, truth_or, value_at, whole,
    whole_if, whole_or,
};
pub use laws::first_is_least;
pub use lists::{has_wrong_length, names_or, needed_numbers, numbers_or};
pub use named::{Named, PinLevel, SpiBuffer};
pub use printed::Printed;

//! Runs the frames of any module, one step at a time.
#![tactic(auto)]

mod either;
mod module;
mod run;
mod stack;
mod union;

pub use either::Either;
pub use module::Module;
pub use run::{begin, enter, fill_held, hardware, reset, run_out, step, step_into};
pub use run_model::{
    Class, Hardware, Item, Items, Journal, Key, KeyKind, Kind, Logged, Pool, Span, Stepped, What,
};
pub use stack::Stack;
pub use union::Union;

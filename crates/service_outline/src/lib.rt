//! The outline that short services and handlers have in common, as one routine over what each does in its window.
//!
//! A call closes the interrupt mask, loads its module's state word, and is refused there or goes on with its own
//! body. A handler closes the mask and begins with its body. Then both open the mask and tell what they owe: a
//! development error, or notices and the load that stands for the return of the last callback.
//!
//! Two drivers that work in one block of the chip are a host and its guest (`guests`).
#![tactic(auto)]

mod body;
mod done;
pub mod guests;
mod short;
mod sweep;
mod words;

pub use body::{Body, Looked, Or, Service};
pub use done::{
    BodyTaken, Carried, Done, Epilogue, Reply, acts, acts_with, ends, error, goes, named, nothing,
    number, numbers, zero_null,
};
pub use short::Short;
pub use sweep::{Objects, Sweep, SweepStage};
pub use words::copied;

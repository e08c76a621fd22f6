//! Two cells with a visitor in the second one: a guest, to copy from. It gives the cell's word and stores it, and reports
//! an error of a call that strays.

mod visited;
mod visitor;

pub use visited::{House, house};
pub use visitor::{Visitor, VisitorCall, VisitorFrame};

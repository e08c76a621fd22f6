//! The converter driver: its calls and handlers as frames of single steps.
#![tactic(auto)]

mod asked;
mod body;
mod making;
mod outside;
mod owed;
mod service;
mod window;
mod words;

pub use asked::{AnyBody, Asked};
pub use body::{AdcBody, Decided, Place, Snapshot};
pub use making::{Continuation, StructureOp, WindowWrite, WindowWrites, WriteBatch};
pub use outside::{Copied, Outside, Suspended, Taken};
pub use service::listed::ListedTable;
pub use service::module::{InitBody, Setup};
pub use service::read::{Newest, Stage};
pub use service::serve::RoundSeen;
pub use service::stop::StopSeen;
pub use window::Window;
pub use words::{Phase, Word, word_number};

//! What a run is: the items of a journal, and, in `specs/`, what stands after them and when they are legal.
#![tactic(auto)]

mod causes;
mod class;
mod item;
mod items;
mod journal;
mod kept;
mod stop_condition;

pub use causes::{MOST_FRAMES, call_cause, is_blocked, line_cause, reads_source};
pub use class::{Class, Key, KeyKind, Kind, Tag};
pub use item::{Hardware, Item, Logged, LoggedAnswer, Span, Stepped, What};
pub use items::Items;
pub use journal::{Journal, Pool};
pub use kept::{JournalLists, Kept, KeptWhat, Rest};
pub use stop_condition::StopCondition;

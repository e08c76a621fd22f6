//! The rounds of a converter group: where they stand in driver words, how their values are copied one by one, and which
//! places of the user's buffer a round goes to.

mod column;
mod copying;
mod reading;
mod rounds;
mod stream;

pub use column::Column;
pub use copying::{Copied, Copying};
pub use reading::Reading;
pub use rounds::{Bank, FIRST, Rounds};
pub use stream::{following, limited, one_more, preceding};

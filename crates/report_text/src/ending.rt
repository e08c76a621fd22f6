/// What is left of a report where its last line must come.
#[derive(Clone, Copy)]
pub enum Ending {
    /// The last line alone.
    Alone,
    /// The last line, and more behind it.
    Followed,
    /// Something else.
    Missing,
}

/// The most bytes that a report may have.
pub const MOST_BYTES: usize = 268_435_456;

/// Why there is no report.
#[derive(Clone, Copy)]
pub enum ReportEnd {
    /// It would be longer than a report may be.
    TooLong,
    /// Memory was not found.
    NoMemory,
}

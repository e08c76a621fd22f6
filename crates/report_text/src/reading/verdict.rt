/// What an audit of a report answers.
#[derive(Clone, Copy)]
pub enum Verdict {
    /// The report is one of its script, and has so many lines.
    Passed(u32),
    /// The first part that is refused begins, or would begin, with the line of this number, from 1.
    Fault(u32),
}

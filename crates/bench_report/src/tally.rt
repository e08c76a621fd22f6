ghost use Rattle.std.specs.Prelude.{Some};
ghost use Rattle.bench_report.specs.Lines as spec;

use std::fmt;

/// How many lines of a report there are of each kind that its last line counts.
#[derive(Clone, Copy, Default)]
pub struct Tally {
    /// Returned calls.
    pub calls: u64,
    /// Ended handlers.
    pub handlers: u64,
    /// Held directives.
    pub held: u64,
    /// Error reports.
    pub errors: u64,
    /// Notices.
    pub notes: u64,
}

/// The last line of a report.
impl fmt::Display for Tally {
    ghost output = { λ t. Some (spec.end_text t) };

    fn fmt<W: fmt::Write>(&self, f: &mut fmt::Formatter<W>) -> fmt::Result {
        let Tally {
            calls,
            handlers,
            held,
            errors,
            notes,
        } = *self;
        write!(
            f,
            "end calls {calls} handlers {handlers} held {held} errors {errors} notes {notes}\n"
        )
    }
}

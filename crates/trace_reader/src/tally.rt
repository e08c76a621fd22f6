ghost use Rattle.std.specs.Prelude.{◌≡◌};
ghost use Rattle.trace_reader.specs.Reading as spec;

use crate::told::{Told, TraceLine};
use bench_report::Tally;

/// What a report with these lines counts.
pub(crate) fn tally_of(lines: &[TraceLine]) -> Tally
    ensures { result ≡ spec.tally_of lines.now }
{
    let mut tally = Tally::default();
    for line in lines {
        match line.told {
            Told::Returned(_, _) => tally.calls += 1,
            Told::Left(_) => tally.handlers += 1,
            Told::Held(_) => tally.held += 1,
            Told::Erred(_) => tally.errors += 1,
            Told::Noted(_) => tally.notes += 1,
            Told::Step(_) | Told::Waited(_) | Told::Reset(_, _) | Told::Shown | Told::Done => {}
        }
    }
    tally
}

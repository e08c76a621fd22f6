ghost use Rattle.std.specs.Prelude.{◌≡◌, ◌≤◌, Ok, Err, IfOk, length, MatchResult};
ghost use Rattle.bench_top.specs.Audited as spec;

use bench_script::{split_at, split_file};

/// The most bytes that the bench file of an audit may have, one line feed at its end not counted.
const FILE_LIMIT: usize = 1_048_576;

/// The line between a bench file and a report.
const MARK: &[u8] = b"===";

/// What stands between bytes that are to be audited: the two parts of a bench file, and a report.
#[derive(Clone, Copy)]
pub(crate) struct Parts<'a> {
    /// The configuration.
    pub(crate) configuration: &'a [u8],
    /// The script.
    pub(crate) script: &'a [u8],
    /// The report.
    pub(crate) report: &'a [u8],
}

/// Why bytes have no such parts.
#[derive(Clone, Copy)]
pub(crate) enum NoParts {
    /// No line is the separator of a bench file.
    NoSeparator,
    /// No line behind the separator is the mark of a report.
    NoReport,
    /// The bench file is longer than it may be.
    TooLong,
}

/// The parts of bytes that are to be audited, in the order of the refusals.
pub(crate) fn parts_of(bytes: &[u8]) -> Result<Parts<'_>, NoParts>
    ensures within { IfOk result (λ p. (length p.script.now ≤ 1048576) × (length p.report.now ≤ length bytes.now)) }
    ensures parts { MatchResult result
        (λ p. spec.audited_parts bytes.now ≡ Ok (spec.parts_from p.configuration.now p.script.now p.report.now))
        (λ e. spec.audited_parts bytes.now ≡ Err e) }
{
    let Some((configuration, behind)) = split_file(bytes) else {
        return Err(NoParts::NoSeparator);
    };
    let Some((script, report)) = split_at(behind, MARK) else {
        return Err(NoParts::NoReport);
    };
    // A line feed ends what stands before the mark, and isn't counted.
    let length = (bytes.len() - behind.len()).saturating_sub(1) + script.len();
    if length > FILE_LIMIT {
        return Err(NoParts::TooLong);
    }
    Ok(Parts {
        configuration,
        script,
        report,
    })
}

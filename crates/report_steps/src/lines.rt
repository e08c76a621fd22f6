ghost use Rattle.std.specs.Prelude.{◌≡◌, ◌+◌, IfOk};
ghost use Rattle.bench_report.specs.Lines.{line_of};
ghost use Rattle.bench_report.specs.Numbers.{IsNumber};
ghost use Rattle.trace_reader.specs.Trace.{HasLineNumbers};
ghost use Rattle.report_text.specs.Unread as unread;
ghost use Rattle.report_steps.specs.Lines as spec;

use bench_report::Line;
use mcal_base::NoMemory;
use report_text::Report;
use std::alloc::Global;
use trace_reader::Told;

/// Whether the next line says this; then it is taken.
pub fn takes(report: &mut Report<'_>, line: Line<'_>) -> Result<bool, NoMemory>
    requires numbers { HasLineNumbers (line_of line) }
    ensures { IfOk result (λ right. spec.TakesLine right (line_of line.entry) report.old report.new) }
{
    match report.takes(line) {
        Ok(right) => Ok(right),
        Err(_) => Err(NoMemory),
    }
}

/// What the next line of the block tells, which is then taken; none where no line comes that moves a run on.
pub fn next(report: &mut Report<'_>, alloc: Global) -> Result<Option<Told>, NoMemory>
    ensures told { IfOk result (λ told. told ≡ unread.told_next report.old) }
    ensures taken { IfOk result (λ told. report.new ≡ unread.after_told report.old told) }
    ensures on { IfOk result (λ _. spec.Advances report.old report.new) }
    ensures number { IfOk result (λ _. IsNumber report.old.number) }
{
    match report.take_told(alloc) {
        Ok(told) => Ok(told),
        Err(_) => Err(NoMemory),
    }
}

/// One more; an error where so many can't be counted, which no report of an input's length comes to.
pub fn one_more(count: u64) -> Result<u64, NoMemory>
    ensures { IfOk result (λ more. more ≡ count + 1) }
{
    if count == u64::MAX {
        Err(NoMemory)
    } else {
        Ok(count + 1)
    }
}

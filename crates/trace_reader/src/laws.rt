ghost use Rattle.std.specs.Prelude.{◌≡◌, ℕ, ◌<◌, ◌≤◌, ◌^◌, ◌++◌, List, [], Ok, Some, codes, length, map, true};
ghost use Rattle.mcal_base.specs.declared.directive.Directive.{Directive};
ghost use Rattle.run_model.specs.Entry.{Entry};
ghost use Rattle.bench_report.specs.Lines.{Line};
ghost use Rattle.bench_report.specs.Numbers.{Each};
ghost use Rattle.bench_report.specs.Report.{Numbered, report, report_lines};
ghost use Rattle.bench_report.specs.Rows.{Row};
ghost use Rattle.trace_reader.specs.Reading.{line_with, read_line, read_trace};
ghost use Rattle.trace_reader.specs.Told.{told_line};
ghost use Rattle.trace_reader.specs.Trace as spec;
ghost use Rattle.trace_reader.specs.declared.told.TraceLine.{TraceLine};

/// The most bytes of a line that tells a step, the wait before one or a reset, without its line feed.
pub const MOST_MOVING: usize = 160;

/// The text of a trace is read as what its lines tell, whatever they are, as long as their numbers are those that a
/// journal can hold: that of a report among them, whatever its script, its items and its shows. And a text that is read is
/// that of a trace, which tells just what was read; so is each of its lines. A line that tells a step, the wait before one
/// or a reset is short.
pub fn reads_traces()
    ensures report_again { (script : List Directive) (entries : List Entry) (shows : List (List Row)) →
        let lines = report_lines true [] shows script entries in
        Each spec.IsWithin lines → length lines < 2 ^ 32 → read_trace (report true script entries shows) ≡ Ok (map told_line lines) }
    ensures trace_again { (lines : List Numbered) → Each spec.IsWithin lines → length lines < 2 ^ 32 → read_trace (spec.trace_text lines) ≡ Ok (map told_line lines) }
    ensures trace_is { (text : List ℕ) (lines : List TraceLine) → read_trace text ≡ Ok lines → spec.IsTraceOf text lines }
    ensures line_again { (line : Numbered) → spec.IsWithin line → read_line (line_with line.number line.says) ≡ Some (told_line line) }
    ensures short { (line : Numbered) → spec.IsWithin line → spec.MovesOn line.says → length (line_with line.number line.says) ≤ MOST_MOVING }
    ensures line_is { (text : List ℕ) (line : TraceLine) → read_line text ≡ Some line → spec.IsLineOf (text ++ codes "\n") line }
{}

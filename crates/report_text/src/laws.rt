ghost use Rattle.std.specs.Prelude.{◌≡◌, ◌++◌, ◌+◌, ◌==◌, ℕ, List, [], Option, Some, true, length, drop, count_by, option_map};
ghost use Rattle.bench_report.specs.Lines.{Line, Makes, Waits, Restarts, numbered};
ghost use Rattle.bench_report.specs.Numbers.{IsNumber, Each};
ghost use Rattle.bench_report.specs.declared.tally.Tally.{Tally};
ghost use Rattle.mcal_base.specs.declared.directive.Reason.{Reason};
ghost use Rattle.mcal_base.specs.declared.moves.Event.{Event};
ghost use Rattle.report_text.specs.reading.Blocks.{behind, printed};
ghost use Rattle.report_text.specs.reading.Audits.{IsEnd, end_fault};
ghost use Rattle.report_text.specs.Unread as spec;
ghost use Rattle.report_text.specs.Unread.{Unread};
ghost use Rattle.report_text.specs.declared.ending.Ending.TheVariants.{Alone, Followed, Missing};
ghost use Rattle.trace_reader.specs.Reading.{parts_of};
ghost use Rattle.trace_reader.specs.Told.{mark_of, told};
ghost use Rattle.trace_reader.specs.Trace.{HasLineNumbers, MovesOn};
ghost use Rattle.trace_reader.specs.declared.told.Step.{Step};
ghost use Rattle.trace_reader.specs.declared.told.Told.{Told};
ghost use Rattle.trace_reader.specs.declared.told.Told.TheVariants.{Step as Stepped, Waited, Reset};

/// Lines that are taken are the front of the block's text, whether they were printed again or read; what stands at that
/// front is taken; and what is behind the block stays as it is. What is left at the end is what an audit says of it. Lines
/// are those whose numbers have 32 bits.
pub fn blocks_are_taken()
    ensures taken { (r : Unread) (lines : List Line) (k : ℕ) → IsNumber r.number → Each HasLineNumbers lines → spec.comes (printed r.number lines) r.left ≡ true → spec.own_text r ≡ printed r.number lines ++ spec.own_text (spec.passed (length (printed r.number lines)) k r) }
    ensures comes { (r : Unread) (front rest : List ℕ) → spec.own_text r ≡ front ++ rest → spec.comes front r.left ≡ true }
    ensures step { (r : Unread) (s : Step) (e : Option Event) → IsNumber r.number → spec.told_next r ≡ Some (Stepped s) → option_map mark_of e ≡ s.mark → spec.own_text r ≡ numbered r.number (Makes s.depth s.made s.value s.received e) ++ spec.own_text (spec.after_told r (Some (Stepped s))) }
    ensures wait { (r : Unread) (ticks : ℕ) → IsNumber r.number → spec.told_next r ≡ Some (Waited ticks) → spec.own_text r ≡ numbered r.number (Waits ticks) ++ spec.own_text (spec.after_told r (Some (Waited ticks))) }
    ensures reset { (r : Unread) (reason : Reason) (dropped : ℕ) → IsNumber r.number → spec.told_next r ≡ Some (Reset reason dropped) → spec.own_text r ≡ numbered r.number (Restarts reason dropped) ++ spec.own_text (spec.after_told r (Some (Reset reason dropped))) }
    ensures reads { (r : Unread) (line : Line) (rest : List ℕ) → IsNumber r.number → HasLineNumbers line → MovesOn line → spec.own_text r ≡ numbered r.number line ++ rest → spec.told_next r ≡ Some (told line) }
    ensures over { (r : Unread) → spec.is_empty (spec.own r) ≡ true → spec.own_text r ≡ [] }
    ensures is_over { (r : Unread) → spec.own_text r ≡ [] → spec.is_empty (spec.own r) ≡ true }
    ensures lines_printed { (r : Unread) (lines : List Line) (k : ℕ) → IsNumber r.number → Each HasLineNumbers lines → spec.comes (printed r.number lines) r.left ≡ true → length (spec.own r) ≡ length lines + length (spec.own (spec.passed (length (printed r.number lines)) k r)) }
    ensures lines_told { (r : Unread) (t : Told) → IsNumber r.number → spec.told_next r ≡ Some t → length (spec.own r) ≡ 1 + length (spec.own (spec.after_told r (Some t))) }
    ensures feeds { (number : ℕ) (lines : List Line) → IsNumber number → Each HasLineNumbers lines → count_by (λ b. b == 10) (printed number lines) ≡ length lines }
    ensures behind_printed { (r : Unread) (lines : List Line) → IsNumber r.number → Each HasLineNumbers lines → spec.comes (printed r.number lines) r.left ≡ true → behind r.number (parts_of r.left) ≡ behind r.number (parts_of (drop (length (printed r.number lines)) r.left)) }
    ensures behind_told { (r : Unread) (t : Told) → IsNumber r.number → spec.told_next r ≡ Some t → behind r.number (parts_of r.left) ≡ behind r.number (parts_of (spec.after_told r (Some t)).left) }
    ensures alone { (tally : Tally) (left : List ℕ) → spec.Ends tally left Alone → IsEnd tally (parts_of left) }
    ensures followed { (tally : Tally) (line : ℕ) (left : List ℕ) → spec.Ends tally left Followed → (IsEnd tally (parts_of left) → ⊥) × (end_fault tally line (parts_of left) ≡ line + 1) }
    ensures missing { (tally : Tally) (line : ℕ) (left : List ℕ) → spec.Ends tally left Missing → (IsEnd tally (parts_of left) → ⊥) × (end_fault tally line (parts_of left) ≡ line) }
{}

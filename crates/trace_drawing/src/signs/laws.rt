ghost use Rattle.std.specs.Prelude.{◌≡◌, ℕ, List, Ok};
ghost use Rattle.mcal_base.specs.declared.directive.Directive.{Directive};
ghost use Rattle.trace_reader.specs.declared.told.TraceLine.{TraceLine};
ghost use Rattle.trace_drawing.specs.signs.Drawing.{Drawing, drawing_of};
ghost use Rattle.trace_forms.specs.Escapes.{Reads, escaped};
ghost use Rattle.trace_drawing.specs.signs.Laws.{IsDrawingOf};
ghost use Rattle.trace_drawing.specs.signs.Moments.{moments_of};
ghost use Rattle.trace_drawing.specs.declared.signs.moments.Moment.{Moment};

/// Whatever is drawn of a trace and its script shows each line of the trace and each directive of the script, in their
/// order and once; and a text that is escaped is read as it was.
pub fn draws_each_line()
    ensures shows { (script : List Directive) (lines : List TraceLine) (ms : List Moment) (d : Drawing) →
        moments_of script lines ≡ Ok ms → drawing_of ms ≡ Ok d → IsDrawingOf script lines d }
    ensures reads { (text : List ℕ) → Reads (escaped text) text }
{}

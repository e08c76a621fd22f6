ghost use Rattle.std.specs.Prelude.{ℕ, List, Option};
ghost use Rattle.trace_forms.specs.declared.kinds.signs.Sign.{Sign};
ghost use Rattle.trace_lanes.specs.PageState.{first};
ghost use Rattle.trace_lanes.specs.Drawn.{behind_all};
ghost use Rattle.trace_lanes.specs.Laws.{HasClearLabels};
ghost use Rattle.trace_lanes.specs.Page.{board};
ghost use Rattle.trace_lanes.specs.declared.input_name.InputName.{InputName};

/// On the page of any signs, with any name in its title, no two labels have a point in common, and each lies inside the page.
pub fn keeps_labels_apart()
    ensures { (name : Option InputName) (steps : ℕ) (signs : List Sign) → HasClearLabels (board name steps signs) (behind_all first signs).x }
{}

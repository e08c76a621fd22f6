ghost use Rattle.std.specs.Prelude.{◌≡◌, ℕ, List, true};
ghost use Rattle.bench_top.specs.Statuses.{IsChecked};
ghost use Rattle.bench_top.specs.declared.words.Task.{Task};
ghost use Rattle.desk_lint.specs.WellFormed.{is_well_formed};

/// A law, with nothing to run: the files in which `lint_file` finds no error are those that `check` of the bench takes.
pub fn agrees_with_check()
    ensures taken { (bytes : List ℕ) → is_well_formed bytes ≡ true → IsChecked Task.Check bytes }
    ensures well_formed { (bytes : List ℕ) → IsChecked Task.Check bytes → is_well_formed bytes ≡ true }
{}

//! What holds of generated scripts on their board: laws, for no program to call.

ghost use Rattle.std.specs.Prelude.{ℕ, ◌≡◌, ◌≤◌, length};
ghost use Rattle.bench_generator.specs.Board.{board};
ghost use Rattle.bench_generator.specs.Generated.{generated};
ghost use Rattle.mcal_system.specs.Runs.{bound_of};
ghost use Rattle.mcal_system.specs.Setting.{has_service};
ghost use Rattle.script_runner.specs.Scripts.{IsScript, AllOffered};

/// A generated script may be run: its lines rise, each directive is one that is obeyed, and each service that it asks for
/// is offered.
pub fn may_be_run()
    ensures script { (seed count : ℕ) → count ≤ 20000 → IsScript (generated seed count) }
    ensures offered { (seed count : ℕ) → AllOffered has_service (generated seed count) }
    ensures count { (seed count : ℕ) → length (generated seed count) ≡ count }
{}

/// No run of a generated script is stopped at the limit of steps: the bounds of all frames that it begins on its board
/// come to no more.
pub fn ends_within_the_limit()
    ensures { (seed count : ℕ) → count ≤ 20000 → bound_of board (generated seed count) ≤ 1000000 }
{}

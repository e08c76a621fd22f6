ghost use Rattle.std.specs.Prelude.{List};
ghost use Rattle.trace_waves.specs.Board.{empty, put_all};
ghost use Rattle.trace_waves.specs.Laws.{AreChanges, DeclaresOnce, LeaveSame};
ghost use Rattle.trace_waves.specs.Values.{first_at};
ghost use Rattle.trace_waves.specs.declared.board.Change.{Change};

/// Of whatever signals are to have, one after another, the changes alone are kept: none is to a value that its signal has
/// already, and together they leave each signal with the value that it is to have. The signals that change are declared,
/// each once, and no others.
pub fn writes_changes_alone()
    ensures changes { (cs : List Change) → AreChanges first_at (put_all empty cs).changes }
    ensures same { (cs : List Change) → LeaveSame (put_all empty cs).changes cs }
    ensures declares { (cs : List Change) → DeclaresOnce (put_all empty cs).signals (put_all empty cs).changes }
{}

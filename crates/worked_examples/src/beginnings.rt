//! Which calls and handlers of the timers may begin over a frame.

ghost use Rattle.std.specs.Prelude.{◌≡◌, true, false, [], ◌∷◌, Some, None};
ghost use Rattle.irq_control.specs.declared.held.Held.TheVariants.{Masked, Level, Reentry, Idle};
ghost use Rattle.run_model.specs.Causes.{call_cause, line_cause};
ghost use Rattle.module_machines.specs.gpt.Classes.{class_of};
ghost use Rattle.module_machines.specs.declared.gpt.call.Call.TheVariants.{Init, Channel};
ghost use Rattle.module_machines.specs.declared.gpt.call.ChannelCall.TheVariants.{GetTimeElapsed, StartTimer, StopTimer};
ghost use Rattle.worked_examples.specs.GptRuns.{handler_tag, asking_tag};

/// Over the handler of a line of level 1 no call begins while the mask is closed. With the mask open a call of
/// level 0 is held for its level, also at a notice, and one of level 1 begins at a notice only.
pub fn calls_over_a_handler()
    ensures masked { call_cause true (handler_tag ∷ []) false (class_of (Channel 1 GetTimeElapsed)) 2 ≡ Some Masked }
    ensures lower { call_cause false (handler_tag ∷ []) true (class_of (Channel 1 StopTimer)) 0 ≡ Some Level }
    ensures noted { call_cause false (handler_tag ∷ []) true (class_of (Channel 0 (StartTimer 20))) 1 ≡ None }
    ensures between { call_cause false (handler_tag ∷ []) false (class_of (Channel 0 (StartTimer 20))) 1 ≡ Some Level }
    ensures exclusive { call_cause false (handler_tag ∷ []) true (class_of Init) 1 ≡ Some Reentry }
{}

/// Over a call about channel 0 one about the same channel is held, and one about another channel begins.
pub fn calls_over_a_call()
    ensures same { call_cause false (asking_tag ∷ []) false (class_of (Channel 0 StopTimer)) 1 ≡ Some Reentry }
    ensures other { call_cause false (asking_tag ∷ []) false (class_of (Channel 1 StopTimer)) 1 ≡ None }
{}

/// The handler of a pending line enters over a frame of a lower level only, and one of a line that isn't pending
/// is idle.
pub fn handlers_over_a_handler()
    ensures higher { line_cause false (handler_tag ∷ []) 2 true ≡ None }
    ensures equal { line_cause false (handler_tag ∷ []) 1 true ≡ Some Level }
    ensures idle { line_cause false [] 1 false ≡ Some Idle }
{}

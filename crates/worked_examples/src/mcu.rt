//! What the machine of clock, RAM and resets tells in small runs, and which of its calls may begin over which.

ghost use Rattle.std.specs.Prelude.{◌≡◌, true, false, [], ◌∷◌, Some, None};
ghost use Rattle.irq_control.specs.declared.held.Held.TheVariants.{Masked, Reentry};
ghost use Rattle.mcal_base.specs.declared.answer_name.AnswerName.TheVariants.{EOk, ENotOk, McuPllLocked, McuPllUnlocked, McuPllStatusUndefined, McuPowerOnReset, McuWatchdogReset, McuSwReset, McuResetUndefined};
ghost use Rattle.mcal_base.specs.declared.error_name.ErrorName.TheVariants.{McuUninit, McuParamRamsection, McuParamClock, McuPllNotLocked, McuParamMode};
ghost use Rattle.run_model.specs.Causes.{call_cause};
ghost use Rattle.module_machines.specs.mcu.Classes.{class_of};
ghost use Rattle.module_machines.specs.declared.mcu.call.Call.TheVariants.{Init, InitRamSection, Clock, GetResetReason, PerformReset, SetMode};
ghost use Rattle.module_machines.specs.declared.mcu.call.ClockCall.TheVariants.{InitClock, DistributePllClock};
ghost use Rattle.worked_examples.specs.Told.{silence, named, refused, refused_named};
ghost use Rattle.worked_examples.specs.McuRuns.{clock_board, told_on, words_after, time_on, tag_of, clock_run, restart_run, second_init_run, watchdog_run, software_run, refused_run};

/// A PLL is unlocked 99 ticks after its start, where distributing is refused, and locked at 100. The first 100 ticks
/// were as many peripheral ones, and the 125 after the distribution were 500.
pub fn clock_is_distributed()
    ensures told { told_on clock_board clock_run
        ≡ silence ∷ named EOk ∷ silence ∷ named McuPllUnlocked ∷ refused_named ENotOk McuPllNotLocked ∷ silence
        ∷ named McuPllLocked ∷ named EOk ∷ silence ∷ [] }
    ensures time { time_on clock_board clock_run ≡ 600 }
{}

/// A second start of the PLL unlocks it, and the rate is 1 again.
pub fn clock_is_started_again()
    ensures told { told_on clock_board restart_run
        ≡ silence ∷ named EOk ∷ silence ∷ named EOk ∷ silence ∷ named EOk ∷ named McuPllUnlocked
        ∷ refused_named ENotOk McuPllNotLocked ∷ silence ∷ [] }
    ensures time { time_on clock_board restart_run ≡ 105 }
{}

/// A section that was initialised holds its default value, another one 0, and a second `Mcu_Init` leaves them, the
/// lock and the rate.
pub fn initialised_twice()
    ensures told { told_on clock_board second_init_run
        ≡ silence ∷ named EOk ∷ named EOk ∷ silence ∷ named EOk ∷ silence ∷ named McuPllLocked ∷ silence ∷ [] }
    ensures filled { words_after clock_board second_init_run 0 ≡ 7 ∷ 7 ∷ [] }
    ensures other { words_after clock_board second_init_run 1 ≡ 0 ∷ 0 ∷ [] }
    ensures time { time_on clock_board second_init_run ≡ 140 }
{}

/// After a reset of the watchdog the reason is undefined until the module is initialised, and then it is the
/// watchdog; the RAM words are 0.
pub fn reset_by_the_watchdog()
    ensures told { told_on clock_board watchdog_run
        ≡ silence ∷ named McuPowerOnReset ∷ named EOk ∷ silence ∷ refused_named McuResetUndefined McuUninit ∷ silence
        ∷ named McuWatchdogReset ∷ [] }
    ensures ram { words_after clock_board watchdog_run 0 ≡ 0 ∷ 0 ∷ [] }
{}

/// A call that asks for a reset is refused before the module is initialised, and else tells nothing; after the reset
/// that follows the reason is software, and the PLL isn't locked.
pub fn reset_by_a_call()
    ensures { told_on clock_board software_run
        ≡ refused McuUninit ∷ silence ∷ silence ∷ silence ∷ silence ∷ named McuSwReset ∷ named McuPllUnlocked ∷ [] }
{}

/// An uninitialised module refuses, and so does one that is asked for a section, a setting or a mode that isn't
/// configured.
pub fn calls_that_are_refused()
    ensures { told_on clock_board refused_run
        ≡ refused_named ENotOk McuUninit ∷ refused_named ENotOk McuUninit ∷ refused_named McuPllStatusUndefined McuUninit
        ∷ refused McuUninit ∷ silence ∷ refused_named ENotOk McuParamRamsection ∷ refused_named ENotOk McuParamClock
        ∷ refused McuParamMode ∷ silence ∷ refused McuParamMode ∷ [] }
{}

/// Over a call about the clock no other one about it begins, over one about a section none about the same section, and
/// over none of them one that is alone in its module; the queries always begin, but not while the mask is closed.
pub fn calls_over_calls()
    ensures clock { call_cause false (tag_of (Clock (InitClock 0)) ∷ []) false (class_of (Clock DistributePllClock)) 1 ≡ Some Reentry }
    ensures section { call_cause false (tag_of (InitRamSection 0) ∷ []) false (class_of (InitRamSection 0)) 1 ≡ Some Reentry }
    ensures other { call_cause false (tag_of (InitRamSection 0) ∷ []) false (class_of (InitRamSection 1)) 1 ≡ None }
    ensures both { call_cause false (tag_of (InitRamSection 0) ∷ []) false (class_of (Clock (InitClock 0))) 1 ≡ None }
    ensures alone { call_cause false (tag_of (Clock (InitClock 0)) ∷ []) false (class_of (SetMode 0)) 1 ≡ Some Reentry }
    ensures query { call_cause false (tag_of Init ∷ []) false (class_of GetResetReason) 1 ≡ None }
    ensures reset { call_cause false (tag_of (SetMode 0) ∷ []) false (class_of PerformReset) 1 ≡ None }
    ensures masked { call_cause true (tag_of Init ∷ []) false (class_of PerformReset) 1 ≡ Some Masked }
{}

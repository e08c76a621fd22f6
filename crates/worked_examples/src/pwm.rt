//! What the machine of the pulse outputs tells in small runs, and which of its calls may begin over which.

ghost use Rattle.std.specs.Prelude.{◌≡◌, true, false, [], ◌∷◌, Some, None};
ghost use Rattle.irq_control.specs.declared.held.Held.TheVariants.{Masked, Reentry};
ghost use Rattle.mcal_base.specs.declared.answer_name.AnswerName.TheVariants.{PwmHigh, PwmLow};
ghost use Rattle.mcal_base.specs.declared.error_name.ErrorName.TheVariants.{PwmAlreadyInitialized, PwmUninit, PwmParamChannel, PwmPeriodUnchangeable};
ghost use Rattle.mcal_base.specs.declared.notice.NoticeKind.TheVariants.{PwmNotification};
ghost use Rattle.run_model.specs.Causes.{call_cause};
ghost use Rattle.module_machines.specs.pwm.Classes.{class_of};
ghost use Rattle.module_machines.specs.declared.pwm.call.Call.TheVariants.{Init, DeInit, GetOutputState, Channel};
ghost use Rattle.module_machines.specs.declared.pwm.call.ChannelCall.TheVariants.{SetDutyCycle, SetOutputToIdle, DisableNotification};
ghost use Rattle.worked_examples.specs.Told.{silence, named, noted, forbidden, refused, refused_named};
ghost use Rattle.worked_examples.specs.PwmRuns.{plain_board, notifying_board, fixed_board, told_on, duties_run, period_end_run, notified_run, acts_change_run, takes_over_run, dropped_run, committed_run, refusals_run, fixed_run, two_channels, level_after, two_channels_run, begun_again_run, taken_over_run, in_place_run, kept_mark_run, both_ways_run, tag_of, handler_tag};

/// Of a period of 3 a duty of 0x7FFF is 2, one of 0x8000 is 3, and one of 0 is 0. Without a period the output is low.
pub fn duties_of_a_short_period()
    ensures { told_on plain_board duties_run
        ≡ silence ∷ silence ∷ silence ∷ named PwmHigh ∷ silence ∷ named PwmLow ∷ silence ∷ named PwmHigh
        ∷ silence ∷ silence ∷ named PwmHigh ∷ silence ∷ silence ∷ named PwmLow ∷ silence ∷ silence ∷ named PwmLow ∷ [] }
{}

/// A period that is set when the running one has just ended comes at the end of the next one.
pub fn set_at_the_end_of_a_period()
    ensures { told_on plain_board period_end_run
        ≡ silence ∷ silence ∷ silence ∷ silence ∷ silence ∷ named PwmLow ∷ silence ∷ named PwmHigh ∷ silence ∷ named PwmLow ∷ [] }
{}

/// A falling change is notified once it has come, and a rising one isn't.
pub fn falling_changes_notified()
    ensures { told_on notifying_board notified_run
        ≡ silence ∷ silence ∷ silence ∷ forbidden ∷ silence ∷ noted PwmNotification 0 ∷ silence ∷ forbidden ∷ [] }
{}

/// A call that makes the output fall leaves a mark, one that makes it rise doesn't, and neither does one before the
/// enabling.
pub fn changes_by_calls()
    ensures { told_on notifying_board acts_change_run
        ≡ silence ∷ silence ∷ silence ∷ silence ∷ forbidden ∷ silence ∷ forbidden ∷ silence ∷ noted PwmNotification 0 ∷ forbidden ∷ [] }
{}

/// Where the whole duty gives way to none, the level falls at the end of the period, and that is notified.
pub fn changes_by_a_waiting_duty()
    ensures { told_on notifying_board takes_over_run
        ≡ silence ∷ silence ∷ silence ∷ silence ∷ silence ∷ silence ∷ silence ∷ named PwmHigh ∷ forbidden
        ∷ silence ∷ named PwmLow ∷ noted PwmNotification 0 ∷ forbidden ∷ [] }
{}

/// The period that was set last stays, although idle dropped it before it came.
pub fn period_set_last()
    ensures { told_on plain_board dropped_run
        ≡ silence ∷ silence ∷ silence ∷ silence ∷ named PwmLow ∷ silence ∷ named PwmHigh ∷ silence ∷ named PwmLow ∷ silence ∷ named PwmHigh ∷ [] }
{}

/// An output that was committed at 3 falls at 8, and rises again at 13.
pub fn started_before_the_act()
    ensures { told_on plain_board committed_run
        ≡ silence ∷ silence ∷ silence ∷ named PwmHigh ∷ silence ∷ named PwmLow ∷ silence ∷ named PwmHigh ∷ [] }
{}

/// Calls are refused before `Pwm_Init`, and so are a second one, a new period of a fixed one, a notification that isn't
/// there and channels that aren't configured.
pub fn refused_calls()
    ensures { told_on fixed_board refusals_run
        ≡ refused_named PwmLow PwmUninit ∷ refused PwmUninit ∷ silence ∷ refused PwmAlreadyInitialized ∷ refused PwmPeriodUnchangeable
        ∷ refused PwmParamChannel ∷ refused PwmParamChannel ∷ refused_named PwmLow PwmParamChannel ∷ refused PwmParamChannel
        ∷ silence ∷ refused PwmUninit ∷ [] }
{}

/// A half duty of 1000 is over at 500, and begins again at 1000.
pub fn half_duty_of_a_thousand()
    ensures { told_on fixed_board fixed_run ≡ silence ∷ silence ∷ named PwmLow ∷ silence ∷ named PwmHigh ∷ [] }
{}

/// Two channels of their own beginnings, periods, duties, polarities and idle levels. Of channel 3 the rising changes are
/// notified while they are enabled, by time and by calls. `Pwm_DeInit` leaves it at its idle level, high, and after
/// a second `Pwm_Init` channel 0 is on duty again.
pub fn two_channels_apart()
    ensures told { told_on two_channels begun_again_run
        ≡ silence ∷ silence ∷ named PwmHigh ∷ named PwmLow ∷ silence ∷ named PwmHigh ∷ silence ∷ named PwmLow
        ∷ silence ∷ silence ∷ silence ∷ forbidden ∷ forbidden ∷ silence ∷ noted PwmNotification 3 ∷ forbidden
        ∷ silence ∷ named PwmHigh ∷ silence ∷ named PwmLow ∷ forbidden ∷ silence ∷ noted PwmNotification 3
        ∷ silence ∷ silence ∷ silence ∷ forbidden ∷ silence
        ∷ refused_named PwmLow PwmUninit ∷ silence ∷ named PwmHigh ∷ [] }
    ensures idle { level_after two_channels two_channels_run 3 ≡ true }
{}

/// A duty that is set after a take-over waits for the end of the period that runs then, and has its length. Where no
/// period has taken over, a new one comes at once.
pub fn set_after_a_take_over()
    ensures { told_on plain_board taken_over_run
        ≡ silence ∷ silence ∷ silence ∷ silence ∷ named PwmHigh ∷ silence ∷ named PwmLow ∷ silence ∷ silence ∷ silence ∷ named PwmHigh ∷ [] }
{}

/// A duty that comes in place of one that waits has the period that was set with that one.
pub fn set_while_another_waits()
    ensures { told_on plain_board in_place_run
        ≡ silence ∷ silence ∷ silence ∷ silence ∷ silence ∷ named PwmHigh ∷ silence ∷ named PwmLow ∷ silence ∷ named PwmHigh ∷ [] }
{}

/// A change is still notified after a call that sets the duty.
pub fn mark_over_a_call()
    ensures { told_on notifying_board kept_mark_run ≡ silence ∷ silence ∷ silence ∷ silence ∷ noted PwmNotification 0 ∷ [] }
{}

/// Calls that make the level rise and fall are notified where both kinds are, and one that makes it rise where rising
/// ones are.
pub fn changes_by_calls_both_ways()
    ensures { told_on notifying_board both_ways_run
        ≡ silence ∷ silence ∷ silence ∷ silence ∷ noted PwmNotification 0 ∷ silence ∷ noted PwmNotification 0
        ∷ silence ∷ silence ∷ noted PwmNotification 0 ∷ [] }
{}

/// Over a call about a channel no other one about it begins, and over none of the module, nor over a handler of it, one
/// that is alone in its module, over which none but the query begins. The query always begins, but not while the mask is
/// closed.
pub fn calls_over_calls()
    ensures channel { call_cause false (tag_of (Channel 0 (SetDutyCycle 0)) ∷ []) false (class_of (Channel 0 SetOutputToIdle)) 1 ≡ Some Reentry }
    ensures other { call_cause false (tag_of (Channel 0 (SetDutyCycle 0)) ∷ []) false (class_of (Channel 1 (SetDutyCycle 0))) 1 ≡ None }
    ensures alone { call_cause false (tag_of (Channel 0 DisableNotification) ∷ []) false (class_of DeInit) 1 ≡ Some Reentry }
    ensures over_query { call_cause false (tag_of (GetOutputState 0) ∷ []) false (class_of Init) 1 ≡ Some Reentry }
    ensures over_handler { call_cause false (handler_tag ∷ []) false (class_of DeInit) 2 ≡ Some Reentry }
    ensures beside_handler { call_cause false (handler_tag ∷ []) false (class_of (Channel 0 DisableNotification)) 2 ≡ None }
    ensures beside_query { call_cause false (tag_of (GetOutputState 0) ∷ []) false (class_of (Channel 0 DisableNotification)) 1 ≡ None }
    ensures over_alone { call_cause false (tag_of Init ∷ []) false (class_of (Channel 0 DisableNotification)) 1 ≡ Some Reentry }
    ensures query { call_cause false (tag_of DeInit ∷ []) false (class_of (GetOutputState 0)) 1 ≡ None }
    ensures masked { call_cause true (tag_of Init ∷ []) false (class_of (GetOutputState 0)) 1 ≡ Some Masked }
{}

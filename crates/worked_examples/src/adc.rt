//! What the machine of the converter groups tells in small runs.

ghost use Rattle.std.specs.Prelude.{◌≡◌, [], ◌∷◌, ◌++◌, false, true, replicate, Some, None};
ghost use Rattle.mcal_base.specs.declared.answer_name.AnswerName.TheVariants.{ENotOk, AdcIdle, AdcBusy, AdcCompleted, AdcStreamCompleted};
ghost use Rattle.mcal_base.specs.declared.error_name.ErrorName.TheVariants as errors;
ghost use Rattle.mcal_base.specs.declared.notice.NoticeKind.TheVariants.{AdcNotification};
ghost use Rattle.worked_examples.specs.Told.{silence, answering, named, numbered, noted, forbidden, refused, refused_named};
ghost use Rattle.worked_examples.specs.AdcRuns.{five_groups, four_groups, suspending, linear_stream, wide_stream, one_triggered, one_group, two_plain, one_continuous, equals, two_triggered, triggered_stream, unranked, told_on, shown, chosen_after, first_places, ok, read, not_ok, no_pointer, late_request_run, two_rounds, wide_rounds, read_before, read_after, stopped_run, four_rounds, pulses_run, full_run, aborted_run, both_read, trigger_run, notified_run, reset_run, refusals_run, single_run, continuous_run, first_round_run, unqueued_run, queued_run, waiting_run, dropped_pulse_run, triggered_stream_run, equals_run, forgotten_run, closed_run, second_buffer_run, single_way_run, continuous_way_run, triggered_way_run, stream_way_run, inputs_run, units_run, opened_again, first_buffer};
ghost use Rattle.adc_machine.specs.Checks.{zero_null};
ghost use Rattle.adc_machine.specs.declared.call.ResultBuffer.TheVariants.{Zero};

/// A request of higher priority doesn't abort a round that is finished. It comes next when that is served, before
/// one of lower priority that waits longer.
pub fn request_after_the_end_of_a_round()
    ensures { told_on five_groups late_request_run
        ≡ silence ∷ ok ∷ ok ∷ ok ∷ silence ∷ silence ∷ silence ∷ silence ∷ silence ∷ forbidden ∷ forbidden ∷ silence
        ∷ silence ∷ forbidden ∷ silence ∷ silence ∷ named AdcStreamCompleted ∷ read (100 ∷ 200 ∷ []) ∷ silence ∷ silence ∷ silence ∷ named AdcStreamCompleted ∷ named AdcBusy ∷ [] }
{}

/// A stream is read whole, either with the round before or with the one that was just served.
pub fn read_around_a_serving()
    ensures before { told_on five_groups (two_rounds ++ read_before)
        ≡ silence ∷ ok ∷ silence ∷ silence ∷ silence ∷ silence ∷ silence ∷ silence ∷ silence ∷ silence ∷ silence ∷ silence ∷ read (10 ∷ 20 ∷ []) ∷ [] }
    ensures after { told_on five_groups (two_rounds ++ read_after)
        ≡ silence ∷ ok ∷ silence ∷ silence ∷ silence ∷ silence ∷ silence ∷ silence ∷ silence ∷ silence ∷ silence ∷ silence ∷ silence ∷ read (11 ∷ 21 ∷ []) ∷ [] }
    ensures wide { told_on wide_stream (wide_rounds ++ read_before) ≡ silence ∷ ok ∷ [] ++ replicate 70 silence ++ read (replicate 32 10) ∷ [] }
    ensures wider { told_on wide_stream (wide_rounds ++ read_after) ≡ silence ∷ ok ∷ [] ++ replicate 71 silence ++ read (replicate 32 20) ∷ [] }
{}

/// A group that is stopped after its handler entered loses its finished round: it may not be served, is idle, and
/// can't be read.
pub fn stopped_above_its_handler()
    ensures { told_on five_groups stopped_run
        ≡ silence ∷ ok ∷ silence ∷ silence ∷ silence ∷ silence ∷ silence ∷ silence ∷ forbidden ∷ forbidden ∷ named AdcIdle
        ∷ not_ok errors.AdcIdle ∷ forbidden ∷ [] }
{}

/// A circular stream of three samples is completed after its third round, and its fourth round stands at place 0.
pub fn four_rounds_of_a_circular_stream()
    ensures tells { told_on five_groups four_rounds
        ≡ silence ∷ ok ∷ silence ∷ silence ∷ silence ∷ silence ∷ silence ∷ silence ∷ noted AdcNotification 3 ∷ silence
        ∷ silence ∷ silence ∷ silence ∷ noted AdcNotification 3 ∷ silence ∷ named AdcCompleted
        ∷ silence ∷ silence ∷ silence ∷ noted AdcNotification 3 ∷ silence ∷ named AdcStreamCompleted
        ∷ silence ∷ silence ∷ silence ∷ noted AdcNotification 3 ∷ silence ∷ named AdcStreamCompleted ∷ numbered (3 ∷ 0 ∷ []) ∷ named AdcBusy ∷ [] }
    ensures shows { shown five_groups four_rounds 3 6 ≡ 4 ∷ 2 ∷ 3 ∷ 14 ∷ 12 ∷ 13 ∷ [] }
{}

/// A triggered group isn't started by a call. A pulse before its trigger is enabled leaves no mark, and two pulses
/// after it count as one.
pub fn two_pulses_count_as_one()
    ensures { told_on four_groups pulses_run
        ≡ silence ∷ ok ∷ refused errors.AdcWrongTriggSrc ∷ silence ∷ silence ∷ forbidden ∷ silence ∷ silence ∷ silence ∷ silence ∷ silence ∷ forbidden ∷ silence ∷ silence
        ∷ read (30 ∷ []) ∷ named AdcBusy ∷ [] }
{}

/// A linear stream of two samples takes no third round. It is idle once its last place was asked for.
pub fn a_linear_stream_becomes_full()
    ensures tells { told_on linear_stream full_run
        ≡ silence ∷ ok ∷ silence ∷ silence ∷ silence ∷ silence ∷ silence ∷ silence ∷ named AdcCompleted ∷ silence ∷ silence ∷ silence ∷ forbidden
        ∷ named AdcStreamCompleted ∷ silence ∷ forbidden ∷ numbered (2 ∷ 1 ∷ []) ∷ named AdcIdle ∷ not_ok errors.AdcIdle ∷ [] }
    ensures shows { shown linear_stream full_run 0 2 ≡ 1 ∷ 2 ∷ [] }
{}

/// Under suspend and resume an aborted round keeps its first value and goes on with the second one. Under abort and
/// restart it begins anew, and isn't finished yet.
pub fn a_round_that_is_aborted()
    ensures resumed { told_on suspending (aborted_run ++ both_read)
        ≡ silence ∷ ok ∷ ok ∷ silence ∷ silence ∷ silence ∷ silence ∷ silence ∷ silence ∷ silence ∷ silence ∷ silence ∷ silence
        ∷ silence ∷ silence ∷ silence ∷ silence ∷ silence ∷ silence ∷ read (100 ∷ 250 ∷ []) ∷ read (9 ∷ []) ∷ [] }
    ensures restarted { told_on five_groups aborted_run
        ≡ silence ∷ ok ∷ ok ∷ silence ∷ silence ∷ silence ∷ silence ∷ silence ∷ silence ∷ silence ∷ silence ∷ silence ∷ silence
        ∷ silence ∷ silence ∷ silence ∷ silence ∷ silence ∷ forbidden ∷ [] }
{}

/// A pulse triggers a round of one input, and the group waits for the next pulse.
pub fn a_pulse_triggers_a_round()
    ensures tells { told_on one_triggered trigger_run
        ≡ silence ∷ ok ∷ silence ∷ silence ∷ silence ∷ silence ∷ silence ∷ silence ∷ silence ∷ read (512 ∷ []) ∷ named AdcBusy ∷ [] }
    ensures shows { shown one_triggered trigger_run 0 1 ≡ 512 ∷ [] }
{}

/// A round is notified when it is served.
pub fn a_round_is_notified()
    ensures { told_on one_group notified_run ≡ silence ∷ ok ∷ silence ∷ silence ∷ silence ∷ silence ∷ silence ∷ noted AdcNotification 0 ∷ read (10 ∷ []) ∷ [] }
{}

/// After a reset the module is uninitialised.
pub fn started_after_a_reset()
    ensures { told_on five_groups reset_run ≡ silence ∷ silence ∷ refused errors.AdcUninit ∷ [] }
{}

/// The first error of each row that holds is found.
pub fn refused_calls()
    ensures { told_on two_plain refusals_run
        ≡ refused errors.AdcUninit ∷ not_ok errors.AdcUninit ∷ refused errors.AdcUninit ∷ not_ok errors.AdcUninit
        ∷ refused_named AdcIdle errors.AdcUninit ∷ no_pointer errors.AdcUninit ∷ refused errors.AdcUninit ∷ silence
        ∷ refused errors.AdcAlreadyInitialized ∷ not_ok errors.AdcParamGroup ∷ refused errors.AdcParamGroup ∷ refused errors.AdcParamGroup
        ∷ not_ok errors.AdcParamGroup ∷ refused errors.AdcParamGroup ∷ refused errors.AdcParamGroup ∷ refused errors.AdcParamGroup
        ∷ refused_named AdcIdle errors.AdcParamGroup ∷ no_pointer errors.AdcParamGroup ∷ not_ok errors.AdcParamPointer
        ∷ refused errors.AdcWrongTriggSrc ∷ refused errors.AdcWrongTriggSrc ∷ refused errors.AdcWrongTriggSrc ∷ refused errors.AdcWrongTriggSrc
        ∷ refused errors.AdcBufferUninit ∷ refused errors.AdcBufferUninit ∷ refused errors.AdcIdle ∷ not_ok errors.AdcIdle ∷ refused errors.AdcIdle
        ∷ no_pointer errors.AdcIdle ∷ refused errors.AdcNotifCapability ∷ refused errors.AdcNotifCapability ∷ ok ∷ ok ∷ silence
        ∷ refused errors.AdcBusy ∷ not_ok errors.AdcBusy ∷ not_ok errors.AdcParamPointer ∷ silence ∷ refused errors.AdcBusy ∷ not_ok errors.AdcBusy
        ∷ refused errors.AdcBusy ∷ silence ∷ refused errors.AdcBusy ∷ silence ∷ silence ∷ refused_named AdcIdle errors.AdcUninit ∷ [] }
{}

/// A single round is completed with its stream. It is read once, and then the group is idle. Where it wasn't read the
/// group may be started again.
pub fn single_round_is_read()
    ensures { told_on one_group single_run
        ≡ silence ∷ ok ∷ silence ∷ silence ∷ silence ∷ silence ∷ silence ∷ named AdcStreamCompleted ∷ read (10 ∷ []) ∷ named AdcIdle
        ∷ not_ok errors.AdcIdle ∷ no_pointer errors.AdcIdle ∷ silence ∷ silence ∷ silence ∷ silence ∷ silence ∷ named AdcBusy ∷ named ENotOk ∷ [] }
{}

/// A continuous group is busy once its round was read, and has no newer one then.
pub fn continuous_group_goes_on()
    ensures { told_on one_continuous continuous_run
        ≡ silence ∷ ok ∷ silence ∷ silence ∷ silence ∷ silence ∷ silence ∷ named AdcStreamCompleted ∷ read (7 ∷ []) ∷ named AdcBusy ∷ named ENotOk
        ∷ silence ∷ silence ∷ silence ∷ read (7 ∷ []) ∷ [] }
{}

/// After one round of a stream the pointer is `1 0`. Then the group is busy, with no round to read and no pointer.
pub fn pointer_after_one_round()
    ensures { told_on five_groups first_round_run
        ≡ silence ∷ ok ∷ silence ∷ silence ∷ silence ∷ silence ∷ silence ∷ silence ∷ numbered (1 ∷ 0 ∷ []) ∷ named AdcBusy ∷ named ENotOk
        ∷ answering zero_null ∷ [] }
{}

/// With neither priorities nor queues a unit takes one group at a time, and another unit takes its own.
pub fn one_group_of_a_unit_at_a_time()
    ensures { told_on (unranked false) unqueued_run
        ≡ silence ∷ ok ∷ ok ∷ ok ∷ silence ∷ refused errors.AdcBusy ∷ silence ∷ silence ∷ refused errors.AdcBusy ∷ silence ∷ silence ∷ silence
        ∷ refused errors.AdcBusy ∷ [] }
{}

/// Without priorities no round is aborted, and the group that was started first comes next.
pub fn first_come_first_served()
    ensures { told_on (unranked true) queued_run
        ≡ silence ∷ ok ∷ ok ∷ ok ∷ silence ∷ silence ∷ silence ∷ silence ∷ forbidden ∷ silence ∷ silence ∷ silence ∷ silence ∷ silence
        ∷ named AdcStreamCompleted ∷ named AdcBusy ∷ [] }
{}

/// A group that is stopped while it waits doesn't start. Its notification is off when it is started again.
pub fn stopped_while_it_waits()
    ensures { told_on one_group waiting_run
        ≡ silence ∷ ok ∷ silence ∷ silence ∷ silence ∷ forbidden ∷ named AdcIdle ∷ silence ∷ silence ∷ silence ∷ silence ∷ [] }
{}

/// Disabling a trigger drops the pulse that was marked, also for when it is enabled again.
pub fn pulse_is_dropped()
    ensures { told_on one_triggered dropped_pulse_run
        ≡ silence ∷ ok ∷ silence ∷ silence ∷ silence ∷ forbidden ∷ named AdcIdle ∷ silence ∷ forbidden ∷ silence ∷ silence ∷ silence ∷ [] }
{}

/// A linear stream of two takes two pulses. Then its trigger is off until it is enabled again.
pub fn triggered_stream_becomes_full()
    ensures tells { told_on triggered_stream triggered_stream_run
        ≡ silence ∷ ok ∷ silence ∷ silence ∷ silence ∷ silence ∷ silence ∷ silence ∷ silence ∷ named AdcCompleted ∷ silence ∷ silence ∷ silence
        ∷ silence ∷ silence ∷ silence ∷ named AdcStreamCompleted ∷ silence ∷ forbidden ∷ read (2 ∷ []) ∷ named AdcIdle ∷ silence ∷ silence ∷ silence
        ∷ silence ∷ [] }
    ensures shows { shown triggered_stream triggered_stream_run 0 2 ≡ 1 ∷ 2 ∷ [] }
{}

/// A continuous group keeps its number: it comes again before a group of its priority that was started later, and after
/// one that was started earlier.
pub fn old_numbers_come_first()
    ensures { told_on equals equals_run
        ≡ silence ∷ ok ∷ ok ∷ silence ∷ silence ∷ silence ∷ silence ∷ silence ∷ silence ∷ noted AdcNotification 1 ∷ silence ∷ silence ∷ silence
        ∷ noted AdcNotification 0 ∷ silence ∷ silence ∷ noted AdcNotification 0 ∷ named AdcBusy ∷ silence ∷ silence ∷ silence ∷ silence
        ∷ noted AdcNotification 1 ∷ [] }
{}

/// A second start forgets the rounds: the next one goes to place 0, and what stands at the others stays.
pub fn second_start_forgets()
    ensures tells { told_on five_groups forgotten_run
        ≡ silence ∷ ok ∷ silence ∷ silence ∷ silence ∷ silence ∷ silence ∷ silence ∷ silence ∷ silence ∷ silence ∷ silence ∷ silence ∷ silence ∷ silence
        ∷ silence ∷ silence ∷ silence ∷ numbered (1 ∷ 0 ∷ []) ∷ [] }
    ensures shows { shown five_groups forgotten_run 3 6 ≡ 9 ∷ 1 ∷ 0 ∷ 19 ∷ 11 ∷ 0 ∷ [] }
{}

/// After `Adc_DeInit` the chosen buffer and its values are still shown. `Adc_Init` leaves no chosen buffer.
pub fn chosen_buffer_is_shown()
    ensures tells { told_on one_group closed_run
        ≡ silence ∷ ok ∷ silence ∷ silence ∷ silence ∷ silence ∷ silence ∷ noted AdcNotification 0 ∷ read (10 ∷ []) ∷ silence ∷ [] }
    ensures shows { chosen_after one_group closed_run 0 ≡ Some Zero }
    ensures holds { shown one_group closed_run 0 1 ≡ 10 ∷ [] }
    ensures opens { told_on one_group (closed_run ++ opened_again)
        ≡ silence ∷ ok ∷ silence ∷ silence ∷ silence ∷ silence ∷ silence ∷ noted AdcNotification 0 ∷ read (10 ∷ []) ∷ silence ∷ silence ∷ refused errors.AdcBufferUninit ∷ [] }
    ensures forgets { chosen_after one_group (closed_run ++ opened_again) 0 ≡ None }
{}

/// A round goes to the chosen buffer, and the other one keeps what it has.
pub fn buffers_have_their_own_places()
    ensures tells { told_on one_group second_buffer_run
        ≡ silence ∷ ok ∷ silence ∷ silence ∷ silence ∷ silence ∷ silence ∷ read (10 ∷ []) ∷ [] }
    ensures one { first_places one_group second_buffer_run 0 ≡ 0 ∷ 10 ∷ [] }
    ensures both { first_places one_group (second_buffer_run ++ first_buffer) 0 ≡ 20 ∷ 10 ∷ [] }
{}

/// A group is under way while it is busy or completed. Where its stream is completed it is so while it has a turn or an
/// enabled trigger. A buffer is set up while the group is idle alone.
pub fn groups_under_way()
    ensures single { told_on one_group single_way_run
        ≡ silence ∷ ok ∷ silence ∷ silence ∷ silence ∷ silence ∷ not_ok errors.AdcBusy ∷ silence ∷ [] }
    ensures continuous { told_on one_continuous continuous_way_run
        ≡ silence ∷ ok ∷ silence ∷ silence ∷ silence ∷ silence ∷ named AdcStreamCompleted ∷ refused errors.AdcBusy ∷ refused errors.AdcBusy ∷ [] }
    ensures triggered { told_on one_triggered triggered_way_run
        ≡ silence ∷ ok ∷ silence ∷ silence ∷ silence ∷ silence ∷ silence ∷ silence ∷ named AdcStreamCompleted ∷ refused errors.AdcBusy
        ∷ refused errors.AdcBusy ∷ [] }
    ensures stream { told_on five_groups stream_way_run
        ≡ silence ∷ ok ∷ silence ∷ silence ∷ silence ∷ silence ∷ named AdcCompleted ∷ refused errors.AdcBusy ∷ refused errors.AdcBusy ∷ [] }
{}

/// A pulse is for the group of its input, and the disabling of another group's trigger leaves its mark.
pub fn pulses_on_two_inputs()
    ensures { told_on two_triggered inputs_run
        ≡ silence ∷ ok ∷ ok ∷ silence ∷ silence ∷ silence ∷ silence ∷ silence ∷ silence ∷ forbidden ∷ forbidden ∷ silence ∷ silence ∷ silence ∷ silence
        ∷ named AdcBusy ∷ read (6 ∷ []) ∷ silence ∷ silence ∷ silence ∷ forbidden ∷ silence ∷ [] }
{}

/// Each unit has its own round and line.
pub fn rounds_of_both_units()
    ensures { told_on (unranked true) units_run
        ≡ silence ∷ ok ∷ ok ∷ silence ∷ silence ∷ silence ∷ silence ∷ silence ∷ silence ∷ silence ∷ silence ∷ forbidden ∷ read (6 ∷ []) ∷ named AdcBusy
        ∷ silence ∷ read (5 ∷ []) ∷ [] }
{}

//! What the machine of the capture channels tells in small runs.

ghost use Rattle.std.specs.Prelude.{◌≡◌, [], ◌∷◌, Some};
ghost use Rattle.mcal_base.specs.declared.answer_name.AnswerName.TheVariants.{IcuActive, IcuIdle};
ghost use Rattle.mcal_base.specs.declared.error_name.ErrorName.TheVariants.{IcuAlreadyInitialized, IcuUninit, IcuParamChannel, IcuParamActivation, IcuParamBufferSize, IcuParamNotifyInterval, IcuNotStarted};
ghost use Rattle.mcal_base.specs.declared.notice.NoticeKind.TheVariants.{IcuSignalNotification, IcuTimestampNotification};
ghost use Rattle.worked_examples.specs.Told.{silence, named, numbered, noted, forbidden, refused, refused_named, refused_numbered};
ghost use Rattle.worked_examples.specs.IcuRuns.{mixed_board, times_board, start_edges_board, plain_board, told_on, stamps_after, size_after, five_edges_run, full_run, duty_run, gap_run, detection_run, times_run, circular_run, refusals_run, again_run, count_run, choice_run, full_notice_run, active_run, restart_run, start_edges_run, unsuited_run};

/// Of five edges that come before one is served the fifth is lost. Each second stamp is notified.
pub fn five_edges_with_one_lost()
    ensures told { told_on mixed_board five_edges_run
        ≡ silence ∷ silence ∷ silence ∷ silence ∷ silence ∷ silence ∷ silence ∷ silence ∷ silence ∷ silence
        ∷ silence ∷ noted IcuTimestampNotification 0 ∷ silence ∷ noted IcuTimestampNotification 0 ∷ forbidden ∷ numbered (4 ∷ []) ∷ [] }
    ensures stamps { stamps_after mixed_board five_edges_run 0 ≡ 0 ∷ 5 ∷ 10 ∷ 10 ∷ 0 ∷ 0 ∷ 0 ∷ 0 ∷ [] }
    ensures size { size_after mixed_board five_edges_run 0 ≡ Some 8 }
{}

/// A linear buffer of two stops when it is full: the third edge waits no longer, and the index is 2.
pub fn linear_buffer_of_two()
    ensures { told_on mixed_board full_run
        ≡ silence ∷ silence ∷ silence ∷ silence ∷ silence ∷ silence ∷ silence ∷ forbidden ∷ numbered (2 ∷ []) ∷ refused IcuNotStarted ∷ [] }
{}

/// A duty cycle is there when its third edge is served, and is handed out once. Of three edges two rise.
pub fn duty_cycle_and_count()
    ensures { told_on mixed_board duty_run
        ≡ silence ∷ silence ∷ silence ∷ silence ∷ silence ∷ silence ∷ silence ∷ silence ∷ silence ∷ numbered (0 ∷ 0 ∷ [])
        ∷ silence ∷ numbered (3 ∷ 10 ∷ []) ∷ numbered (0 ∷ 0 ∷ [])
        ∷ silence ∷ silence ∷ silence ∷ silence ∷ numbered (2 ∷ []) ∷ [] }
{}

/// No measure goes over the edge that was lost: the first rising edge after it ends no period.
pub fn no_measure_over_a_gap()
    ensures { told_on mixed_board gap_run
        ≡ silence ∷ silence ∷ silence ∷ silence ∷ silence ∷ silence ∷ silence ∷ silence ∷ silence ∷ silence ∷ silence
        ∷ silence ∷ silence ∷ silence ∷ silence ∷ numbered (1 ∷ 2 ∷ [])
        ∷ silence ∷ silence ∷ silence ∷ silence ∷ silence ∷ silence ∷ silence ∷ silence
        ∷ silence ∷ silence ∷ numbered (0 ∷ 0 ∷ []) ∷ silence ∷ silence ∷ numbered (2 ∷ 4 ∷ []) ∷ numbered (0 ∷ 0 ∷ []) ∷ [] }
{}

/// A detection takes the edges that are chosen, and no level that stays. Its mark is taken once, and disabling drops the
/// edge that waits.
pub fn detected_edges()
    ensures { told_on mixed_board detection_run
        ≡ silence ∷ silence ∷ silence ∷ silence ∷ forbidden ∷ silence ∷ silence ∷ noted IcuSignalNotification 3 ∷ forbidden
        ∷ named IcuActive ∷ named IcuIdle ∷ silence ∷ silence ∷ silence ∷ silence
        ∷ named IcuActive ∷ silence ∷ silence ∷ silence ∷ forbidden ∷ [] }
{}

/// A high time is 3, a low time 4, and a period from a falling edge to the next 7. A value is handed out also after a stop.
pub fn high_low_and_period_times()
    ensures { told_on times_board times_run
        ≡ silence ∷ silence ∷ silence ∷ silence ∷ silence ∷ silence ∷ silence ∷ silence ∷ silence ∷ silence
        ∷ silence ∷ silence ∷ silence ∷ silence ∷ silence ∷ numbered (0 ∷ []) ∷ silence ∷ named IcuActive ∷ numbered (4 ∷ []) ∷ numbered (0 ∷ [])
        ∷ numbered (3 ∷ []) ∷ silence ∷ forbidden ∷ silence ∷ silence ∷ silence ∷ silence ∷ silence ∷ numbered (7 ∷ []) ∷ [] }
{}

/// A circular buffer of two begins anew with its third stamp, which is the first that is notified. What was stored
/// stays after `Icu_DeInit`.
pub fn circular_buffer_of_two()
    ensures told { told_on times_board circular_run
        ≡ silence ∷ silence ∷ silence ∷ silence ∷ silence ∷ silence ∷ silence ∷ silence ∷ silence ∷ silence ∷ silence
        ∷ silence ∷ silence ∷ numbered (0 ∷ []) ∷ noted IcuTimestampNotification 3 ∷ numbered (1 ∷ []) ∷ silence ∷ refused IcuNotStarted ∷ silence ∷ [] }
    ensures stamps { stamps_after times_board circular_run 3 ≡ 3 ∷ 2 ∷ 0 ∷ 0 ∷ 0 ∷ 0 ∷ 0 ∷ 0 ∷ [] }
    ensures size { size_after times_board circular_run 3 ≡ Some 2 }
{}

/// The first error of each row that holds is found.
pub fn refused_calls()
    ensures { told_on mixed_board refusals_run
        ≡ refused_numbered (0 ∷ []) IcuUninit ∷ silence ∷ refused IcuAlreadyInitialized ∷ refused IcuParamChannel ∷ refused IcuParamActivation ∷ refused IcuParamChannel
        ∷ refused_named IcuIdle IcuParamChannel ∷ refused IcuParamBufferSize ∷ refused IcuParamBufferSize ∷ refused IcuParamNotifyInterval ∷ refused_numbered (0 ∷ []) IcuParamChannel
        ∷ refused_numbered (0 ∷ 0 ∷ []) IcuParamChannel ∷ refused_numbered (0 ∷ []) IcuParamChannel ∷ refused IcuParamChannel ∷ silence ∷ refused IcuUninit ∷ [] }
{}

/// After `Icu_DeInit` and `Icu_Init` every channel is off and has no count, no mark and index 0, and no notice comes before
/// the notification is enabled again.
pub fn initialised_again()
    ensures { told_on mixed_board again_run
        ≡ silence ∷ silence ∷ silence ∷ silence ∷ silence ∷ silence ∷ silence ∷ silence ∷ noted IcuTimestampNotification 0
        ∷ noted IcuSignalNotification 3 ∷ numbered (1 ∷ []) ∷ numbered (1 ∷ []) ∷ silence ∷ forbidden ∷ silence ∷ numbered (0 ∷ []) ∷ named IcuIdle
        ∷ numbered (0 ∷ []) ∷ silence ∷ silence ∷ forbidden ∷ forbidden ∷ numbered (0 ∷ []) ∷ silence ∷ silence ∷ silence ∷ silence ∷ silence
        ∷ silence ∷ silence ∷ silence ∷ silence ∷ silence ∷ noted IcuSignalNotification 3 ∷ noted IcuTimestampNotification 0 ∷ [] }
{}

/// Rising edges are counted while that is enabled. Disabling and enabling keep the count, and no serving takes part in it.
pub fn counted_edges()
    ensures { told_on mixed_board count_run
        ≡ silence ∷ silence ∷ silence ∷ silence ∷ silence ∷ silence ∷ silence ∷ silence ∷ silence ∷ numbered (1 ∷ []) ∷ silence ∷ silence
        ∷ numbered (2 ∷ []) ∷ forbidden ∷ silence ∷ numbered (0 ∷ []) ∷ [] }
{}

/// A choice drops the mark and is for the edges that come after it: one that waits stays.
pub fn chosen_edges()
    ensures { told_on mixed_board choice_run
        ≡ silence ∷ silence ∷ silence ∷ silence ∷ silence ∷ silence ∷ silence ∷ named IcuIdle ∷ silence ∷ forbidden ∷ silence ∷ silence ∷ silence
        ∷ named IcuActive ∷ silence ∷ silence ∷ silence ∷ silence ∷ silence ∷ forbidden ∷ [] }
{}

/// The stamp that fills a linear buffer is notified where it is the one of the interval.
pub fn notice_of_the_last_place()
    ensures { told_on mixed_board full_notice_run
        ≡ silence ∷ silence ∷ silence ∷ silence ∷ silence ∷ silence ∷ noted IcuTimestampNotification 0 ∷ forbidden ∷ numbered (2 ∷ []) ∷ [] }
{}

/// The mark of a measure is set when its value is complete, and is taken once.
pub fn measures_set_the_mark()
    ensures { told_on mixed_board active_run
        ≡ silence ∷ silence ∷ silence ∷ silence ∷ silence ∷ silence ∷ named IcuIdle ∷ silence ∷ named IcuIdle ∷ silence ∷ named IcuActive
        ∷ named IcuIdle ∷ [] }
{}

/// The index stays over a stop and is 0 after a second start. A second start drops the value, and no mark.
pub fn started_again()
    ensures { told_on mixed_board restart_run
        ≡ silence ∷ numbered (0 ∷ []) ∷ silence ∷ silence ∷ silence ∷ silence ∷ numbered (1 ∷ []) ∷ silence ∷ numbered (0 ∷ []) ∷ silence ∷ silence
        ∷ silence ∷ silence ∷ silence ∷ silence ∷ silence ∷ silence ∷ silence ∷ silence ∷ numbered (0 ∷ 0 ∷ []) ∷ named IcuActive ∷ [] }
{}

/// With falling start edges the duty cycle is 4 of 9. With both a period goes from a rising edge to the next, and is 7.
pub fn start_edges()
    ensures { told_on start_edges_board start_edges_run
        ≡ silence ∷ silence ∷ silence ∷ silence ∷ silence ∷ silence ∷ silence ∷ silence ∷ silence ∷ silence ∷ silence ∷ silence ∷ silence
        ∷ numbered (0 ∷ 0 ∷ []) ∷ silence ∷ numbered (4 ∷ 9 ∷ []) ∷ silence ∷ silence ∷ silence ∷ numbered (7 ∷ []) ∷ silence ∷ numbered (0 ∷ []) ∷ [] }
{}

/// Each service is for channels of its kind alone, and a notification is the one of the channel's kind.
pub fn channels_of_other_kinds()
    ensures { told_on plain_board unsuited_run
        ≡ silence ∷ refused IcuParamChannel ∷ refused IcuParamChannel ∷ refused IcuParamChannel ∷ refused IcuParamChannel
        ∷ refused_named IcuIdle IcuParamChannel ∷ refused_named IcuIdle IcuParamChannel ∷ refused_named IcuIdle IcuParamChannel
        ∷ refused IcuParamChannel ∷ refused IcuParamChannel ∷ refused IcuParamChannel ∷ refused IcuParamChannel ∷ refused IcuParamChannel
        ∷ refused_numbered (0 ∷ []) IcuParamChannel ∷ refused IcuParamChannel ∷ refused IcuParamChannel ∷ refused_numbered (0 ∷ []) IcuParamChannel
        ∷ refused IcuParamChannel ∷ refused IcuParamChannel ∷ refused_numbered (0 ∷ []) IcuParamChannel
        ∷ refused_numbered (0 ∷ 0 ∷ []) IcuParamChannel ∷ refused IcuParamChannel ∷ silence ∷ refused IcuParamActivation ∷ silence
        ∷ refused IcuNotStarted ∷ silence ∷ silence ∷ refused IcuNotStarted ∷ named IcuIdle ∷ numbered (0 ∷ []) ∷ numbered (0 ∷ []) ∷ [] }
{}

//! What the timers' machine tells in small runs.

ghost use Rattle.std.specs.Prelude.{◌≡◌, [], ◌∷◌};
ghost use Rattle.mcal_base.specs.declared.error_name.ErrorName.TheVariants.{GptParamValue, GptBusy, GptMode};
ghost use Rattle.mcal_base.specs.declared.notice.NoticeKind.TheVariants.{GptNotification, EcuMCheckWakeup, EcuMSetWakeupEvent};
ghost use Rattle.worked_examples.specs.Told.{silence, refused, noted, forbidden};
ghost use Rattle.worked_examples.specs.GptRuns.{plain_board, two_channels, told_on, answered, plain_run, starts_run, expiry_run, carry_run, stops_run, sleep_run, callback_run, continuous_run};

/// A one-shot timer that was started with 100 shows 30 after 30 ticks.
pub fn elapsed_after_thirty_ticks()
    ensures { told_on plain_board plain_run ≡ silence ∷ silence ∷ silence ∷ answered 30 ∷ [] }
{}

/// A start with 0 or with more than the largest value is refused, and so is one while the timer runs.
pub fn starts_that_are_refused()
    ensures { told_on two_channels starts_run
        ≡ silence ∷ refused GptParamValue ∷ refused GptParamValue ∷ silence ∷ refused GptBusy ∷ [] }
{}

/// A timer that expired shows its whole value with nothing remaining, notifies once when it is served, and may
/// not be served again.
pub fn expired_before_served()
    ensures { told_on two_channels expiry_run
        ≡ silence ∷ silence ∷ silence ∷ silence ∷ answered 50 ∷ answered 0 ∷ noted GptNotification 0 ∷ forbidden ∷ [] }
{}

/// A timer that is asked at 65535 answers that, and 65536 a tick later.
pub fn counter_that_carries()
    ensures { told_on two_channels carry_run
        ≡ silence ∷ silence ∷ silence ∷ answered 65535 ∷ silence ∷ answered 65536 ∷ [] }
{}

/// A timer that is stopped one tick before its expiry keeps 49 and may not be served; one that is stopped at
/// its expiry shows 50 and still notifies.
pub fn stopped_before_and_at_the_expiry()
    ensures { told_on two_channels stops_run
        ≡ silence ∷ silence ∷ silence ∷ silence ∷ silence ∷ silence ∷ answered 49 ∷ forbidden
        ∷ silence ∷ silence ∷ silence ∷ answered 50 ∷ noted GptNotification 0 ∷ [] }
{}

/// In sleep mode a timer whose wakeup is on asks for a check of its wakeup when it is served, and the check
/// tells of it once; nothing may be started there, and a timer without wakeup was stopped at 10.
pub fn sleep_and_wakeup()
    ensures { told_on two_channels sleep_run
        ≡ silence ∷ silence ∷ silence ∷ silence ∷ silence ∷ silence ∷ silence
        ∷ noted EcuMCheckWakeup 1 ∷ noted EcuMSetWakeupEvent 1 ∷ silence ∷ refused GptMode ∷ silence ∷ answered 10 ∷ [] }
{}

/// A timer may be started again where its expiry is served, while another one counts on.
pub fn started_in_its_notification()
    ensures { told_on two_channels callback_run
        ≡ silence ∷ silence ∷ silence ∷ silence ∷ silence ∷ noted GptNotification 0 ∷ silence ∷ answered 10 ∷ [] }
{}

/// A continuous timer of 40 shows 20 after 100 ticks, with 20 remaining. It notifies once for both times that it
/// passed its value, and a stop drops the mark of the next one.
pub fn continuous_passes_its_value()
    ensures { told_on two_channels continuous_run
        ≡ silence ∷ silence ∷ silence ∷ silence ∷ answered 20 ∷ answered 20 ∷ noted GptNotification 1 ∷ forbidden
        ∷ silence ∷ silence ∷ forbidden ∷ [] }
{}

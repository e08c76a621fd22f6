//! What the serial driver's machine tells in small runs, and what it leaves.

ghost use Rattle.std.specs.Prelude.{◌≡◌, true, false, [], ◌∷◌, Some, None};
ghost use Rattle.irq_control.specs.declared.held.Held.TheVariants.{Reentry, Full};
ghost use Rattle.mcal_base.specs.declared.answer_name.AnswerName.TheVariants.{EOk, ENotOk, SpiUninit, SpiIdle, SpiBusy, SpiJobOk, SpiJobPending, SpiJobQueued, SpiJobFailed, SpiSeqOk, SpiSeqPending, SpiSeqFailed, SpiSeqCanceled};
ghost use Rattle.mcal_base.specs.declared.error_name.ErrorName.TheVariants.{SpiUninit as Uninitialised, SpiAlreadyInitialized as AlreadyInitialised, SpiParamUnit as NoSuchUnit, SpiParamSeq as NoSuchSequence, SpiSeqPending as SequencePending};
ghost use Rattle.mcal_base.specs.declared.notice.NoticeKind.TheVariants.{SpiJobEndNotification, SpiSeqEndNotification};
ghost use Rattle.run_model.specs.Causes.{call_cause};
ghost use Rattle.run_model.specs.Frame.{Called};
ghost use Rattle.run_model.specs.Moment.{is_busy};
ghost use Rattle.run_model.specs.World.{world_start};
ghost use Rattle.spi_machine.specs.Bounds.{class_of, spi_setting};
ghost use Rattle.spi_machine.specs.Machine.{spi_machine};
ghost use Rattle.spi_machine.specs.State.{first_state, internal_word, wire_at};
ghost use Rattle.spi_machine.specs.declared.call.Call.TheVariants.{DeInit, MainFunctionHandling, Channel, Get};
ghost use Rattle.spi_machine.specs.declared.call.ChannelCall.TheVariants.{WriteIb};
ghost use Rattle.spi_machine.specs.declared.call.Pointer.TheVariants.{Users, Null};
ghost use Rattle.spi_machine.specs.declared.call.Query.TheVariants.{Status};
ghost use Rattle.worked_examples.specs.SpiRuns as runs;
ghost use Rattle.worked_examples.specs.SpiRuns.{three_sequences, two_sequences, equal_sequences, device_board, noting_board, waiting_board, told_on, left, begun_on, word, source_of, destination_of};
ghost use Rattle.worked_examples.specs.Told.{silence, named, named_with, refused, refused_named, notice, notified, forbidden};

/// A pending sequence is refused, and so is one that has a job in common with it. Its first job runs, and the others
/// are queued.
pub fn requests_of_a_pending_sequence()
    ensures { told_on three_sequences runs.requests_run
        ≡ silence ∷ named EOk ∷ silence ∷ refused_named ENotOk SequencePending ∷ refused_named ENotOk SequencePending
        ∷ named SpiSeqPending ∷ named SpiJobPending ∷ named SpiJobQueued ∷ named SpiBusy ∷ [] }
{}

/// After the first job the other sequence's job runs, whose priority is higher, and not the next job of the first
/// sequence, which runs once that one has ended.
pub fn job_of_highest_priority()
    ensures { told_on three_sequences runs.priorities_run
        ≡ silence ∷ named EOk ∷ silence ∷ named EOk
        ∷ silence ∷ silence ∷ silence ∷ silence ∷ silence ∷ notified (notice SpiJobEndNotification 0 ∷ []) ∷ silence ∷ named SpiJobPending ∷ named SpiJobQueued
        ∷ silence ∷ silence ∷ silence ∷ silence ∷ silence ∷ notified (notice SpiSeqEndNotification 2 ∷ []) ∷ silence ∷ named SpiSeqOk ∷ named SpiJobPending ∷ [] }
{}

/// A sequence that is cancelled during its first job ends with that job, as cancelled, though the job ended well. The
/// jobs that never ran have the result that they had, and what the first one received may be read.
pub fn cancelled_during_its_first_job()
    ensures tells { told_on three_sequences runs.cancel_run
        ≡ silence ∷ named EOk ∷ named EOk ∷ silence ∷ named EOk ∷ silence
        ∷ silence ∷ silence ∷ silence ∷ named SpiSeqPending ∷ silence ∷ notified (notice SpiJobEndNotification 0 ∷ notice SpiSeqEndNotification 0 ∷ [])
        ∷ named SpiSeqCanceled ∷ named SpiJobOk ∷ named SpiJobOk ∷ named_with EOk (17 ∷ 34 ∷ []) ∷ [] }
    ensures first { wire_at (left three_sequences runs.cancel_run) 0 ≡ (255, 17) ∷ (255, 34) ∷ [] }
    ensures second { wire_at (left three_sequences runs.cancel_run) 1 ≡ [] }
{}

/// A query begins over a query and over a timer's handler, at each higher level, until eight frames are there.
pub fn queries_over_frames()
    ensures begins { call_cause false runs.two_frames true (class_of (Get Status)) 1 ≡ None }
    ensures full { call_cause false runs.eight_frames false (class_of (Get Status)) 7 ≡ Some Full }
{}

/// While an internal channel is written, nothing else writes it, the module isn't deinitialised and its source isn't
/// filled; a query begins.
pub fn over_a_call_that_writes()
    ensures same { call_cause false (runs.asking_tag (Channel 0 (WriteIb Users)) 0 ∷ []) false (class_of (Channel 0 (WriteIb Null))) 1 ≡ Some Reentry }
    ensures whole { call_cause false (runs.asking_tag (Channel 0 (WriteIb Users)) 0 ∷ []) false (class_of DeInit) 1 ≡ Some Reentry }
    ensures query { call_cause false (runs.asking_tag (Channel 0 (WriteIb Users)) 0 ∷ []) false (class_of (Get Status)) 1 ≡ None }
    ensures filled { is_busy (spi_setting three_sequences) (world_start 0) first_state (Called (Channel 0 (WriteIb Users)) ∷ []) 0 ≡ true }
    ensures answers { told_on three_sequences runs.writing_run ≡ silence ∷ named SpiIdle ∷ named EOk ∷ [] }
{}

/// Two words are sent, this comes in, and it is stored as it comes.
pub fn words_stored_as_they_come_in()
    ensures tells { told_on device_board (runs.device_run (240 ∷ 0 ∷ []) 65295 65535)
        ≡ silence ∷ silence ∷ named EOk ∷ named EOk ∷ silence ∷ silence ∷ silence ∷ silence ∷ silence ∷ silence ∷ silence ∷ named SpiSeqOk ∷ named SpiJobOk ∷ [] }
    ensures source { source_of (left device_board (runs.device_run (240 ∷ 0 ∷ []) 65295 65535)) 0 2 ≡ 240 ∷ 0 ∷ [] }
    ensures destination { destination_of (left device_board (runs.device_run (240 ∷ 0 ∷ []) 65295 65535)) 0 2 ≡ 65295 ∷ 65535 ∷ [] }
    ensures wire { wire_at (left device_board (runs.device_run (240 ∷ 0 ∷ []) 65295 65535)) 0 ≡ (240, 65295) ∷ (0, 65535) ∷ [] }
    ensures other { wire_at (left device_board (runs.device_run (240 ∷ 0 ∷ []) 65295 65535)) 1 ≡ [] }
{}

/// A refused exchange of the second word fails the job and its sequence, and is stored nowhere.
pub fn refused_exchange()
    ensures tells { told_on device_board (runs.device_run (1 ∷ 2 ∷ []) 65534 65536)
        ≡ silence ∷ silence ∷ named EOk ∷ named EOk ∷ silence ∷ silence ∷ silence ∷ silence ∷ silence ∷ silence ∷ silence ∷ named SpiSeqFailed ∷ named SpiJobFailed ∷ [] }
    ensures source { source_of (left device_board (runs.device_run (1 ∷ 2 ∷ []) 65534 65536)) 0 2 ≡ 1 ∷ 2 ∷ [] }
    ensures destination { destination_of (left device_board (runs.device_run (1 ∷ 2 ∷ []) 65534 65536)) 0 2 ≡ 65534 ∷ 0 ∷ [] }
    ensures wire { wire_at (left device_board (runs.device_run (1 ∷ 2 ∷ []) 65534 65536)) 0 ≡ (1, 65534) ∷ (2, 65536) ∷ [] }
    ensures other { wire_at (left device_board (runs.device_run (1 ∷ 2 ∷ []) 65534 65536)) 1 ≡ [] }
{}

/// What comes in with a word is fixed as that word begins: the second one brings what its own beginning was told.
pub fn words_told_as_they_begin()
    ensures { wire_at (left device_board (runs.device_run (240 ∷ 0 ∷ []) 65295 7)) 0 ≡ (240, 65295) ∷ (0, 7) ∷ [] }
{}

/// A job sends what its internal channel held as the job started, whatever is written since.
pub fn words_as_at_the_start()
    ensures during { wire_at (left three_sequences runs.written_in_transfer_run) 0 ≡ (1, 255) ∷ (2, 255) ∷ [] }
    ensures before { wire_at (left three_sequences runs.written_before_run) 0 ≡ (3, 255) ∷ (4, 255) ∷ [] }
{}

/// After a reset the wire has shown nothing, the module is uninitialised, and once initialised all sequences are OK.
pub fn reset_with_a_done_word()
    ensures tells { told_on three_sequences runs.reset_run ≡ silence ∷ named EOk ∷ silence ∷ silence ∷ silence ∷ named SpiUninit ∷ silence ∷ named SpiSeqOk ∷ [] }
    ensures first { wire_at (left three_sequences runs.up_to_reset) 0 ≡ [] }
    ensures second { wire_at (left three_sequences runs.up_to_reset) 1 ≡ [] }
{}

/// At a rate of 4 a word is done after two ticks of the oscillator. All ones come in, and are stored.
pub fn words_at_a_rate()
    ensures tells { runs.told_at_four noting_board runs.rated_run
        ≡ silence ∷ silence ∷ named EOk ∷ named EOk ∷ silence ∷ silence ∷ silence ∷ silence ∷ silence ∷ silence ∷ notified (notice SpiSeqEndNotification 0 ∷ []) ∷ named SpiSeqOk ∷ [] }
    ensures source { source_of (runs.left_at_four noting_board runs.rated_run) 0 4 ≡ 4660 ∷ 43981 ∷ 0 ∷ 0 ∷ [] }
    ensures destination { destination_of (runs.left_at_four noting_board runs.rated_run) 0 4 ≡ 65535 ∷ 65535 ∷ 0 ∷ 0 ∷ [] }
    ensures wire { wire_at (runs.left_at_four noting_board runs.rated_run) 0 ≡ (4660, 65535) ∷ (43981, 65535) ∷ [] }
{}

/// A fault that meets a word in transfer fails its job and its sequence, and what was received before isn't readable.
/// One that meets a done word does nothing, and a word that isn't done may not be served.
pub fn fault_on_the_wire()
    ensures { told_on three_sequences runs.fault_run
        ≡ silence ∷ named EOk ∷ silence ∷ silence ∷ silence ∷ silence ∷ silence ∷ silence ∷ silence ∷ forbidden ∷ silence ∷ silence
        ∷ notified (notice SpiJobEndNotification 0 ∷ notice SpiSeqEndNotification 0 ∷ [])
        ∷ named SpiSeqFailed ∷ named SpiJobFailed ∷ named SpiJobOk ∷ named_with EOk (0 ∷ 0 ∷ []) ∷ [] }
{}

/// A waiting sequence that is cancelled ends at once, and a second time there is nothing to cancel. A sequence that has
/// a job in common with a pending one is refused, and a unit that runs a job doesn't start another.
pub fn cancelled_while_it_waits()
    ensures { told_on three_sequences runs.waiting_run
        ≡ silence ∷ named EOk ∷ silence ∷ named EOk ∷ refused_named ENotOk SequencePending ∷ silence ∷ named SpiSeqCanceled ∷ named SpiJobOk ∷ silence ∷ forbidden ∷ [] }
{}

/// A sequence that isn't interruptible runs its jobs in a row once it has started, whatever the priority of what waits.
/// Before that the higher priority comes first.
pub fn sequence_that_is_not_interruptible()
    ensures started { told_on two_sequences runs.uninterrupted_run
        ≡ silence ∷ named EOk ∷ silence ∷ named EOk ∷ named_with EOk (0 ∷ []) ∷ silence ∷ notified (notice SpiJobEndNotification 0 ∷ [])
        ∷ named_with EOk (15 ∷ []) ∷ silence ∷ silence ∷ notified (notice SpiJobEndNotification 1 ∷ notice SpiSeqEndNotification 0 ∷ [])
        ∷ silence ∷ silence ∷ notified (notice SpiJobEndNotification 2 ∷ notice SpiSeqEndNotification 1 ∷ []) ∷ [] }
    ensures waiting { told_on two_sequences runs.overtaken_run
        ≡ silence ∷ named EOk ∷ named EOk ∷ silence ∷ silence ∷ notified (notice SpiJobEndNotification 2 ∷ notice SpiSeqEndNotification 1 ∷ [])
        ∷ silence ∷ silence ∷ notified (notice SpiJobEndNotification 0 ∷ [])
        ∷ silence ∷ silence ∷ notified (notice SpiJobEndNotification 1 ∷ notice SpiSeqEndNotification 0 ∷ []) ∷ [] }
    ensures wire { wire_at (left two_sequences runs.overtaken_run) 1 ≡ (15, 15) ∷ (15, 15) ∷ (15, 15) ∷ [] }
{}

/// A line with a done word is ready in both modes and due in interrupt mode alone. The main function polls both lines in
/// polling mode alone.
pub fn lines_in_both_modes()
    ensures ready { (spi_machine three_sequences).ready runs.eight_later (left three_sequences runs.polling_run) 26 ≡ true }
    ensures not_due { (spi_machine three_sequences).due runs.eight_later (left three_sequences runs.polling_run) 26 ≡ false }
    ensures due { (spi_machine three_sequences).due runs.eight_later (left three_sequences runs.interrupt_run) 26 ≡ true }
    ensures not_yet { (spi_machine three_sequences).ready (world_start 0) (left three_sequences runs.polling_run) 26 ≡ false }
    ensures polls { (spi_machine three_sequences).polls runs.eight_later (left three_sequences runs.polling_run) MainFunctionHandling ≡ 26 ∷ 27 ∷ [] }
    ensures polls_none { (spi_machine three_sequences).polls runs.eight_later (left three_sequences runs.interrupt_run) MainFunctionHandling ≡ [] }
{}

/// The words that begin are those that the wire shows as sent, in their order, of the width of their channel, and for
/// their job's device, where it has one.
pub fn beginnings_of_words()
    ensures device { begun_on device_board (runs.device_run (240 ∷ 0 ∷ []) 65295 65535) ≡ word 240 16 (Some 0) ∷ word 0 16 (Some 0) ∷ [] }
    ensures failed { begun_on device_board (runs.device_run (1 ∷ 2 ∷ []) 65534 65536) ≡ word 1 16 (Some 0) ∷ word 2 16 (Some 0) ∷ [] }
    ensures none { begun_on three_sequences runs.cancel_run ≡ word 255 8 None ∷ word 255 8 None ∷ [] }
    ensures written { begun_on three_sequences runs.written_before_run ≡ word 3 8 None ∷ word 4 8 None ∷ [] }
{}

/// Sources that a pending sequence uses aren't filled.
pub fn sources_in_use()
    ensures used { is_busy (spi_setting three_sequences) runs.eight_later (left three_sequences runs.polling_run) [] 1 ≡ true }
    ensures unused { is_busy (spi_setting three_sequences) runs.eight_later (left three_sequences runs.up_to_reset) [] 1 ≡ false }
{}

/// Among jobs of one priority that of the earlier request runs next. While a sequence is pending the module is neither
/// deinitialised nor put into another mode. A sequence that is cancelled while its job runs ends with it as cancelled,
/// even where the job fails; one that waits ends at once, and its job has the result that it had.
pub fn sequences_of_one_priority()
    ensures tells { told_on equal_sequences runs.equals_run
        ≡ refused_named ENotOk Uninitialised ∷ silence ∷ refused AlreadyInitialised ∷ named EOk ∷ silence ∷ named EOk ∷ named EOk
        ∷ named ENotOk ∷ named ENotOk ∷ named SpiBusy ∷ named SpiIdle ∷ refused_named SpiUninit NoSuchUnit
        ∷ silence ∷ silence ∷ silence ∷ silence ∷ silence ∷ silence ∷ silence ∷ silence ∷ silence ∷ notified (notice SpiSeqEndNotification 0 ∷ []) ∷ silence
        ∷ silence ∷ silence ∷ silence ∷ silence ∷ notified (notice SpiSeqEndNotification 2 ∷ []) ∷ named SpiJobFailed ∷ named SpiSeqCanceled ∷ silence
        ∷ silence ∷ silence ∷ notified (notice SpiJobEndNotification 1 ∷ notice SpiSeqEndNotification 1 ∷ [])
        ∷ named EOk ∷ silence ∷ named EOk ∷ notified (notice SpiSeqEndNotification 2 ∷ []) ∷ named SpiJobFailed ∷ [] }
    ensures wire { wire_at (left equal_sequences runs.equals_start) 0 ≡ (3021, 4095) ∷ (3021, 4095) ∷ (255, 255) ∷ (255, 255) ∷ [] }
    ensures mode { (spi_machine equal_sequences).polls (world_start 0) (left equal_sequences runs.equals_start) MainFunctionHandling ≡ 26 ∷ 27 ∷ [] }
{}

/// A set-up without a source sends default data and stores what comes in. One without a destination sends the source,
/// masked, and stores nothing. As many words are sent as were set up, and then those of the job's other channel.
pub fn set_ups_without_a_buffer()
    ensures no_source { wire_at (left equal_sequences (runs.set_up_run Null Users 2)) 0 ≡ (3021, 564) ∷ (3021, 565) ∷ (255, 54) ∷ [] }
    ensures stored { destination_of (left equal_sequences (runs.set_up_run Null Users 2)) 1 2 ≡ 564 ∷ 565 ∷ [] }
    ensures no_destination { wire_at (left equal_sequences (runs.set_up_run Users Null 2)) 0 ≡ (7, 564) ∷ (8, 565) ∷ (255, 54) ∷ [] }
    ensures not_stored { destination_of (left equal_sequences (runs.set_up_run Users Null 2)) 1 2 ≡ 0 ∷ 0 ∷ [] }
    ensures one_word { wire_at (left equal_sequences (runs.set_up_run Users Users 1)) 0 ≡ (7, 564) ∷ (255, 53) ∷ [] }
    ensures one_stored { destination_of (left equal_sequences (runs.set_up_run Users Users 1)) 1 2 ≡ 564 ∷ 0 ∷ [] }
{}

/// A word above the channel's mask stands unmasked as the word to send, and is sent masked. Written from no buffer, the
/// channel has its default data to send.
pub fn words_wider_than_their_channel()
    ensures written { internal_word (left equal_sequences runs.wide_start) 0 false 0 ≡ 4660 }
    ensures sent { wire_at (left equal_sequences runs.wide_run) 0 ≡ (52, 17) ∷ [] }
    ensures received { internal_word (left equal_sequences runs.wide_run) 0 true 0 ≡ 17 }
    ensures default { internal_word (left equal_sequences runs.wide_run) 0 false 0 ≡ 255 }
{}

/// After a deinitialisation and an initialisation results are OK, received words are 0, and nothing is written or set
/// up. The wire shows what it has shown, and what is sent since.
pub fn initialised_again()
    ensures tells { told_on equal_sequences runs.renewed_run
        ≡ silence ∷ silence ∷ named EOk ∷ silence ∷ named EOk ∷ named EOk ∷ silence ∷ silence ∷ silence ∷ notified (notice SpiSeqEndNotification 2 ∷ [])
        ∷ named EOk ∷ silence ∷ silence ∷ silence ∷ silence ∷ notified (notice SpiJobEndNotification 1 ∷ notice SpiSeqEndNotification 1 ∷ [])
        ∷ named SpiJobFailed ∷ named SpiSeqFailed ∷ named_with EOk (17 ∷ [])
        ∷ named EOk ∷ named SpiUninit ∷ refused_named SpiJobFailed Uninitialised ∷ refused_named ENotOk Uninitialised ∷ silence ∷ named SpiIdle
        ∷ named SpiJobOk ∷ named SpiSeqOk ∷ named_with EOk (0 ∷ []) ∷ named EOk ∷ silence ∷ silence ∷ silence ∷ silence ∷ silence ∷ silence ∷ silence ∷ [] }
    ensures wire { wire_at (left equal_sequences runs.renewed_run) 0 ≡ (52, 17) ∷ (52, 18) ∷ (3021, 4095) ∷ (3021, 4095) ∷ (255, 255) ∷ [] }
{}

/// A started sequence that is cancelled while another one's job runs ends at once. Its job that ran keeps its new
/// result, and the others have those that they had.
pub fn cancelled_between_its_jobs()
    ensures { told_on three_sequences runs.between_run
        ≡ silence ∷ named EOk ∷ silence ∷ silence ∷ silence ∷ silence ∷ notified (notice SpiJobEndNotification 0 ∷ []) ∷ named SpiJobFailed
        ∷ named EOk ∷ silence ∷ named EOk ∷ silence ∷ silence ∷ silence ∷ silence ∷ silence ∷ notified (notice SpiJobEndNotification 0 ∷ [])
        ∷ silence ∷ notified (notice SpiSeqEndNotification 0 ∷ []) ∷ named SpiSeqCanceled ∷ named SpiJobOk ∷ named SpiJobOk ∷ named SpiJobPending
        ∷ silence ∷ silence ∷ silence ∷ silence ∷ silence ∷ notified (notice SpiSeqEndNotification 2 ∷ []) ∷ named SpiSeqOk ∷ [] }
{}

/// A fault meets the word in transfer of its own unit alone.
pub fn faults_of_each_unit()
    ensures own { told_on two_sequences (runs.fault_on 1)
        ≡ silence ∷ named EOk ∷ silence ∷ silence ∷ silence ∷ notified (notice SpiJobEndNotification 2 ∷ notice SpiSeqEndNotification 1 ∷ []) ∷ named SpiSeqFailed ∷ named SpiJobFailed ∷ [] }
    ensures other { told_on two_sequences (runs.fault_on 0)
        ≡ silence ∷ named EOk ∷ silence ∷ silence ∷ silence ∷ notified (notice SpiJobEndNotification 2 ∷ notice SpiSeqEndNotification 1 ∷ []) ∷ named SpiSeqOk ∷ named SpiJobOk ∷ [] }
{}

/// A call sends two words and waits for each. Until a word is done neither the next one begins nor the call acts, and
/// after the last one no further word begins. No notice is given, though both are configured.
pub fn words_of_a_call_that_waits()
    ensures tells { told_on waiting_board runs.sent_run
        ≡ silence ∷ silence ∷ named EOk ∷ refused_named ENotOk NoSuchSequence ∷ forbidden ∷ silence
        ∷ named SpiSeqPending ∷ silence ∷ forbidden ∷ forbidden ∷ silence ∷ forbidden ∷ silence ∷ silence ∷ forbidden ∷ named EOk
        ∷ named SpiSeqOk ∷ named SpiJobOk ∷ [] }
    ensures destination { destination_of (left waiting_board runs.sent_run) 0 2 ≡ 65295 ∷ 65535 ∷ [] }
    ensures wire { wire_at (left waiting_board runs.sent_run) 0 ≡ (240, 65295) ∷ (0, 65535) ∷ [] }
{}

/// A word that the device refuses is the last one of such a call, which ends its sequence as failed and frees the unit.
pub fn refused_word_of_a_call_that_waits()
    ensures { told_on waiting_board runs.refused_run
        ≡ silence ∷ named EOk ∷ silence ∷ silence ∷ forbidden ∷ named ENotOk ∷ named SpiSeqFailed ∷ named SpiJobFailed ∷ named SpiIdle ∷ [] }
{}

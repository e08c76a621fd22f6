ghost use Rattle.std.specs.Prelude.{◌≡◌, List, ℕ};
ghost use Rattle.bench_report.specs.Lines as lines;
ghost use Rattle.mcal_base.specs.det_errors.Spelling.{error_text};
ghost use Rattle.irq_control.specs.Spelling.{held_text};
ghost use Rattle.mcal_base.specs.Names as names;
ghost use Rattle.bench_script.specs.Words.{named};
ghost use Rattle.trace_reader.specs.Names as spec;

use bench_report::reason_text;
use irq_control::Held;
use mcal_base::{AnswerName, ErrorName, NoticeKind, Reason};

/// The causes for which a directive is held.
const CAUSES: [Held; 9] = [
    Held::Masked,
    Held::Level,
    Held::Reentry,
    Held::Idle,
    Held::Full,
    Held::Empty,
    Held::Busy,
    Held::Unknown,
    Held::Frames,
];

/// The reasons of resets.
const REASONS: [Reason; 3] = [Reason::PowerOn, Reason::Watchdog, Reason::Software];

/// The kinds of notices.
const NOTICES: [NoticeKind; 9] = [
    NoticeKind::GptNotification,
    NoticeKind::EcuMCheckWakeup,
    NoticeKind::EcuMSetWakeupEvent,
    NoticeKind::PwmNotification,
    NoticeKind::IcuSignalNotification,
    NoticeKind::IcuTimestampNotification,
    NoticeKind::AdcNotification,
    NoticeKind::SpiJobEndNotification,
    NoticeKind::SpiSeqEndNotification,
];

/// The names that answers begin with.
const ANSWERS: [AnswerName; 30] = [
    AnswerName::EOk,
    AnswerName::ENotOk,
    AnswerName::McuPllLocked,
    AnswerName::McuPllUnlocked,
    AnswerName::McuPllStatusUndefined,
    AnswerName::McuPowerOnReset,
    AnswerName::McuWatchdogReset,
    AnswerName::McuSwReset,
    AnswerName::McuResetUndefined,
    AnswerName::PwmHigh,
    AnswerName::PwmLow,
    AnswerName::IcuActive,
    AnswerName::IcuIdle,
    AnswerName::AdcIdle,
    AnswerName::AdcBusy,
    AnswerName::AdcCompleted,
    AnswerName::AdcStreamCompleted,
    AnswerName::SpiUninit,
    AnswerName::SpiIdle,
    AnswerName::SpiBusy,
    AnswerName::SpiJobOk,
    AnswerName::SpiJobPending,
    AnswerName::SpiJobFailed,
    AnswerName::SpiJobQueued,
    AnswerName::SpiSeqOk,
    AnswerName::SpiSeqPending,
    AnswerName::SpiSeqFailed,
    AnswerName::SpiSeqCanceled,
    AnswerName::StdHigh,
    AnswerName::StdLow,
];

/// The errors, module by module.
const ERRORS: [ErrorName; 52] = [
    ErrorName::McuUninit,
    ErrorName::McuParamRamsection,
    ErrorName::McuParamClock,
    ErrorName::McuPllNotLocked,
    ErrorName::McuParamMode,
    ErrorName::PortUninit,
    ErrorName::PortParamPin,
    ErrorName::PortDirectionUnchangeable,
    ErrorName::PortParamInvalidMode,
    ErrorName::PortModeUnchangeable,
    ErrorName::GptAlreadyInitialized,
    ErrorName::GptUninit,
    ErrorName::GptBusy,
    ErrorName::GptParamChannel,
    ErrorName::GptParamValue,
    ErrorName::GptMode,
    ErrorName::GptParamMode,
    ErrorName::PwmAlreadyInitialized,
    ErrorName::PwmUninit,
    ErrorName::PwmParamChannel,
    ErrorName::PwmPeriodUnchangeable,
    ErrorName::IcuAlreadyInitialized,
    ErrorName::IcuUninit,
    ErrorName::IcuParamChannel,
    ErrorName::IcuParamActivation,
    ErrorName::IcuParamBufferSize,
    ErrorName::IcuParamNotifyInterval,
    ErrorName::IcuNotStarted,
    ErrorName::AdcAlreadyInitialized,
    ErrorName::AdcUninit,
    ErrorName::AdcBusy,
    ErrorName::AdcParamGroup,
    ErrorName::AdcParamPointer,
    ErrorName::AdcWrongTriggSrc,
    ErrorName::AdcBufferUninit,
    ErrorName::AdcIdle,
    ErrorName::AdcNotifCapability,
    ErrorName::SpiAlreadyInitialized,
    ErrorName::SpiUninit,
    ErrorName::SpiParamChannel,
    ErrorName::SpiParamLength,
    ErrorName::SpiParamSeq,
    ErrorName::SpiSeqPending,
    ErrorName::SpiParamJob,
    ErrorName::SpiParamUnit,
    ErrorName::SpiSeqInProcess,
    ErrorName::DioParamInvalidChannelId,
    ErrorName::DioParamInvalidPortId,
    ErrorName::DioParamInvalidGroup,
    ErrorName::WdgDriverState,
    ErrorName::WdgParamMode,
    ErrorName::WdgParamTimeout,
];

/// What a report prints as one word.
trait Spelled: Copy {
    ghost spelling: { Self → List ℕ };

    /// The word.
    fn spelled(self) -> &'static str
        ensures { result.now ≡ spelling self };
}

impl Spelled for Held {
    ghost spelling = { λ cause. held_text cause };

    fn spelled(self) -> &'static str {
        self.text()
    }
}

impl Spelled for Reason {
    ghost spelling = { λ reason. lines.reason_text reason };

    fn spelled(self) -> &'static str {
        reason_text(self)
    }
}

impl Spelled for NoticeKind {
    ghost spelling = { λ kind. names.notice_text kind };

    fn spelled(self) -> &'static str {
        self.text()
    }
}

impl Spelled for AnswerName {
    ghost spelling = { λ name. names.answer_text name };

    fn spelled(self) -> &'static str {
        self.text()
    }
}

impl Spelled for ErrorName {
    ghost spelling = { λ error. error_text error };

    fn spelled(self) -> &'static str {
        mcal_base::det_errors::text(self)
    }
}

/// The first of the choices that a word spells.
fn first_named<T: Spelled>(choices: &[T], word: &[u8]) -> Option<T>
    ensures { result ≡ named T.spelling choices.now word.now }
{
    for choice in choices {
        if choice.spelled().as_bytes() == word {
            return Some(*choice);
        }
    }
    None
}

/// The cause that a word spells.
pub(crate) fn cause_named(word: &[u8]) -> Option<Held>
    ensures { result ≡ named held_text spec.all_causes word.now }
{
    first_named(&CAUSES, word)
}

/// The reason that a word spells.
pub(crate) fn reason_named(word: &[u8]) -> Option<Reason>
    ensures { result ≡ named lines.reason_text spec.all_reasons word.now }
{
    first_named(&REASONS, word)
}

/// The kind of notice that a word spells.
pub(crate) fn notice_named(word: &[u8]) -> Option<NoticeKind>
    ensures { result ≡ named names.notice_text spec.all_notices word.now }
{
    first_named(&NOTICES, word)
}

/// The name of an answer that a word spells.
pub(crate) fn answer_named(word: &[u8]) -> Option<AnswerName>
    ensures { result ≡ named names.answer_text spec.all_answers word.now }
{
    first_named(&ANSWERS, word)
}

/// The error that a word spells.
pub(crate) fn error_named(word: &[u8]) -> Option<ErrorName>
    ensures { result ≡ named error_text spec.all_errors word.now }
{
    first_named(&ERRORS, word)
}

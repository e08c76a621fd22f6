ghost use Rattle.std.specs.Prelude.{◌≡◌};
ghost use Rattle.adc_machine.specs.Checks as checks;
ghost use Rattle.adc_machine.specs.Table.{group_of};
ghost use Rattle.run_model.specs.Machine as done;
ghost use Rattle.mcal_base.specs.declared.answer_name.AnswerName.TheVariants.{EOk};
ghost use Rattle.audit_converters.specs.Stands.{circumstances_as, sets_up};

use adc_machine::{AdcTable, Call, GroupCall};
use audit_base::{named, nothing};
use mcal_base::det_errors::Facts;
use mcal_base::{Answer, AnswerName, Head, Words};

/// What the state says of a call.
#[derive(Clone, Copy)]
pub struct Circumstances {
    /// The module is uninitialised.
    pub uninitialised: bool,
    /// The call's group has no chosen buffer.
    pub unbuffered: bool,
    /// Its group is idle.
    pub idle: bool,
    /// Something that has to be free is busy.
    pub busy: bool,
}

/// Whether a call chooses a result buffer.
pub(crate) fn sets_up(call: GroupCall) -> bool
    ensures { result ≡ sets_up call }
{
    matches!(call, GroupCall::SetupResultBuffer(_))
}

/// Whether a group is triggered by hardware.
fn is_triggered(table: &AdcTable, group: u32) -> bool
    ensures { result ≡ checks.is_triggered (group_of table.now group) }
{
    match table.group(group) {
        Some(found) => found.trigger.is_some(),
        None => false,
    }
}

/// Whether a group has a notification.
fn has_notification(table: &AdcTable, group: u32) -> bool
    ensures { result ≡ checks.has_notification (group_of table.now group) }
{
    match table.group(group) {
        Some(found) => found.notification,
        None => false,
    }
}

/// Whether the errors of a call about a group hold after those of a missing `Adc_Init` and of an unknown group.
fn group_facts(table: &AdcTable, group: u32, call: GroupCall, found: Circumstances) -> [bool; 4]
    ensures { result ≡ checks.group_facts call (group_of table.now group) (circumstances_as found) }
{
    let triggered = is_triggered(table, group);
    match call {
        GroupCall::SetupResultBuffer(buffer) => [buffer.is_none(), found.busy, false, false],
        GroupCall::StartGroupConversion => [triggered, found.unbuffered, found.busy, false],
        GroupCall::StopGroupConversion => [triggered, found.idle, false, false],
        GroupCall::ReadGroup | GroupCall::GetStreamLastPointer => {
            [found.idle, false, false, false]
        }
        GroupCall::EnableHardwareTrigger => [!triggered, found.unbuffered, found.busy, false],
        GroupCall::DisableHardwareTrigger => [!triggered, found.idle, false, false],
        GroupCall::Notification(_) => [!has_notification(table, group), false, false, false],
        GroupCall::GetGroupStatus => [false; 4],
    }
}

/// Whether the errors of a call hold, in their order.
pub(crate) fn facts(table: &AdcTable, call: Call, found: Circumstances) -> Facts
    ensures { result.holds ≡ checks.facts_by table.now call (circumstances_as found) }
{
    let holds = match call {
        Call::Init => [!found.uninitialised, false, false, false, false, false],
        Call::DeInit => [found.uninitialised, found.busy, false, false, false, false],
        Call::Group(group, call) => {
            let unknown = table.group(group).is_none();
            let [first, second, third, fourth] = group_facts(table, group, call, found);
            [found.uninitialised, unknown, first, second, third, fourth]
        }
    };
    Facts { holds }
}

/// The answer without a pointer.
pub(crate) fn no_pointer() -> Answer
    ensures { result ≡ checks.zero_null }
{
    Answer {
        head: Head::ZeroNull,
        words: Words::new(),
    }
}

/// The answer that hands out values.
pub(crate) fn values_answer(words: Words) -> Answer
    ensures { result ≡ done.named_with EOk words }
{
    Answer {
        head: Head::Name(AnswerName::EOk),
        words,
    }
}

/// The answer of a call with an error.
pub(crate) fn refused(call: Call) -> Answer
    ensures { result ≡ checks.answer_refused call }
{
    match call {
        Call::Group(_, GroupCall::SetupResultBuffer(_) | GroupCall::ReadGroup) => {
            named(AnswerName::ENotOk)
        }
        Call::Group(_, GroupCall::GetGroupStatus) => named(AnswerName::AdcIdle),
        Call::Group(_, GroupCall::GetStreamLastPointer) => no_pointer(),
        _ => nothing(),
    }
}

ghost use Rattle.std.specs.Prelude.{◌≡◌};
ghost use Rattle.adc_machine.specs.Checks as checks;
ghost use Rattle.adc_machine.specs.Table.{group_of};
ghost use Rattle.adc_groups.specs.laws.services.LookSteps as spec;

use crate::body::{AdcBody, Place};
use crate::owed::error_owed;
use crate::service::listed::ListedTable;
use crate::service::module::{InitBody, Setup};
use crate::service::{ask, looking, request};
use crate::window::Window;
use crate::words::STATE;
use adc_machine::{AdcTable, Call, GroupCall};
use mcal_base::det_errors::{Facts, first_error};
use mcal_base::{Answer, AnswerName, ErrorName};
use service_outline::{
    Done, Epilogue, Looked, Or, Reply, Sweep, SweepStage, named, nothing, zero_null,
};

/// A place in any body of the driver.
pub type AnyBody = Or<Sweep<Setup, InitBody>, AdcBody>;

/// A call with the driver that it is made of.
#[derive(Drop)]
pub struct Asked {
    /// The call.
    pub call: Call,
    /// The driver.
    pub table: AdcTable,
}

impl service_outline::Service for Asked {
    type Body = AnyBody;

    ghost use Rattle.adc_groups.specs.laws.services.LookSteps.{adc_looked, any_ends};
    ghost use Rattle.adc_groups.specs.declared.words.TheConstants.{STATE};

    ghost WORD = { STATE };

    const WORD: u32 = STATE;

    ghost looked_of = { adc_looked };

    ghost ends_with = { any_ends };

    fn finish(body: &AnyBody, ended: &mut Option<Answer>) {
        if let Or::Second(body) = body {
            body.finish(ended);
        }
    }

    fn look(&self, value: u32) -> Looked<AnyBody> {
        match first_error(self.call.service(), &self.facts(value)) {
            Some(error) => Looked::Refused(self.refusal(error)),
            None => self.begin(),
        }
    }
}

impl Asked {
    /// Which errors the state word and the arguments show, in the order of the service's errors.
    fn facts(&self, state: u32) -> Facts
        ensures { result.holds ≡ spec.facts_of self.now state }
    {
        let uninit = state == 0;
        let holds = match self.call {
            Call::Init => [!uninit, false, false, false, false, false],
            Call::DeInit => [uninit, false, false, false, false, false],
            Call::Group(number, call) => {
                let unknown = self.table.group(number).is_none();
                [
                    uninit,
                    unknown,
                    self.is_wrong(number, call),
                    false,
                    false,
                    false,
                ]
            }
        };
        Facts { holds }
    }

    /// Whether a call about a group is wrong in what is configured of it or asked with.
    fn is_wrong(&self, number: u32, call: GroupCall) -> bool
        ensures { result ≡ spec.is_wrong call (group_of self.now.table number) }
    {
        match call {
            GroupCall::SetupResultBuffer(buffer) => buffer.is_none(),
            GroupCall::StartGroupConversion | GroupCall::StopGroupConversion => {
                self.is_triggered(number)
            }
            GroupCall::EnableHardwareTrigger | GroupCall::DisableHardwareTrigger => {
                !self.is_triggered(number)
            }
            GroupCall::Notification(_) => match self.table.group(number) {
                Some(found) => !found.notification,
                None => true,
            },
            GroupCall::ReadGroup | GroupCall::GetGroupStatus | GroupCall::GetStreamLastPointer =>
                false,
        }
    }

    /// Whether a group is triggered by hardware.
    fn is_triggered(&self, number: u32) -> bool
        ensures { result ≡ checks.is_triggered (group_of self.now.table number) }
    {
        match self.table.group(number) {
            Some(found) => found.trigger.is_some(),
            None => false,
        }
    }

    /// What a call with this error is done with.
    fn refusal(&self, error: ErrorName) -> Done
        ensures { result ≡ spec.refusal_of self.now error }
    {
        Done {
            answer: refused(self.call),
            owed: error_owed(&self.table, self.call.service(), error),
        }
    }

    /// What a call that nothing forbids so far goes on with.
    fn begin(&self) -> Looked<AnyBody>
        ensures { result ≡ spec.begun_by self.now.table self.now.call }
    {
        let table = self.table.copied();
        match self.call {
            Call::Init => Looked::Goes(Or::First(Sweep {
                objects: Setup {
                    table: ListedTable::new(table),
                },
                place: SweepStage::Opens,
            })),
            Call::DeInit => {
                let place = request::survey(&table, Window::Close, 0);
                Looked::Goes(Or::Second(AdcBody { table, place }))
            }
            Call::Group(number, call) => {
                let group = if number < 16 { number as u8 } else { 16 };
                let place = self.place(group, call);
                Looked::Goes(Or::Second(AdcBody { table, place }))
            }
        }
    }

    /// Where a call about a group begins.
    fn place(&self, group: u8, call: GroupCall) -> Place
        ensures { result ≡ spec.place_for self.now.table group call }
    {
        match call {
            GroupCall::SetupResultBuffer(Some(buffer)) => looking(Window::Setup(group, buffer)),
            GroupCall::SetupResultBuffer(None) => looking(Window::Status(group)),
            GroupCall::StartGroupConversion => looking(Window::Start(group)),
            GroupCall::EnableHardwareTrigger => looking(Window::Enable(group)),
            GroupCall::StopGroupConversion | GroupCall::DisableHardwareTrigger => {
                looking(Window::Stop(self.table.unit_of(group), group))
            }
            GroupCall::ReadGroup => looking(Window::Read(group)),
            GroupCall::Notification(on) => ask::notify(group, on),
            GroupCall::GetGroupStatus => looking(Window::Status(group)),
            GroupCall::GetStreamLastPointer => looking(Window::Point(group)),
        }
    }
}

/// The answer of a call with an error.
fn refused(call: Call) -> Reply
    ensures { result ≡ checks.answer_refused call }
{
    match call {
        Call::Group(_, GroupCall::SetupResultBuffer(_) | GroupCall::ReadGroup) => {
            named(AnswerName::ENotOk)
        }
        Call::Group(_, GroupCall::GetGroupStatus) => named(AnswerName::AdcIdle),
        Call::Group(_, GroupCall::GetStreamLastPointer) => zero_null(),
        _ => nothing(),
    }
}

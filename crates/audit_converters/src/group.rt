ghost use Rattle.std.specs.Prelude.{◌≡◌, ◌==◌, ◌||◌, ◌&&◌, nat_lt, not, is_some, option_map};
ghost use Rattle.adc_machine.specs.Groups as spec;
ghost use Rattle.adc_machine.specs.Machine.{under_way_by};
ghost use Rattle.adc_machine.specs.Turns as turns;
ghost use Rattle.run_model.specs.World.{World};
ghost use Rattle.audit_converters.specs.Stands.{group_as, is_busy, request_as, round_as, status_as};

use crate::values::{NO_VALUES, Values};
use adc_machine::ResultBuffer;
use mcal_base::AnswerName;

/// `Adc_StatusType`
#[derive(Clone, Copy)]
pub enum Status {
    /// The group is idle.
    Idle,
    /// It has no round that wasn't read.
    Busy,
    /// It has one.
    Completed,
    /// Its stream has as many rounds as its buffer holds.
    StreamCompleted,
}

/// A request of a group that waits or runs.
#[derive(Clone, Copy)]
pub struct Request {
    /// Its number.
    pub number: u32,
    /// The values of the inputs that had ended where its round was aborted.
    pub kept: Values,
}

/// A round under way.
#[derive(Clone, Copy)]
pub struct Round {
    /// Its group.
    pub group: u32,
    /// Its request.
    pub request: Request,
    /// When it was started or resumed, in peripheral ticks.
    pub start: u64,
}

/// A group.
#[derive(Clone, Copy)]
pub struct Group {
    /// Its status.
    pub status: Status,
    /// The result buffer that was set up last.
    pub chosen: Option<ResultBuffer>,
    /// Whether its notification is on.
    pub notification: bool,
    /// Whether its hardware trigger is enabled.
    pub trigger: bool,
    /// How many rounds were served since its start.
    pub count: u32,
    /// The newest one.
    pub newest: Values,
    /// Its request, while it waits.
    pub waiting: Option<Request>,
}

impl Status {
    /// Its name.
    pub(crate) fn name(self) -> AnswerName
        ensures { result ≡ spec.name_of (status_as self) }
    {
        match self {
            Status::Idle => AnswerName::AdcIdle,
            Status::Busy => AnswerName::AdcBusy,
            Status::Completed => AnswerName::AdcCompleted,
            Status::StreamCompleted => AnswerName::AdcStreamCompleted,
        }
    }

    /// Whether the group is idle.
    pub(crate) fn is_idle(self) -> bool
        ensures { result ≡ spec.is_idle (status_as self) }
    {
        matches!(self, Status::Idle)
    }

    /// Whether the group is busy.
    pub(crate) fn is_busy(self) -> bool
        ensures { result ≡ is_busy (status_as self) }
    {
        matches!(self, Status::Busy)
    }

    /// Whether the group is under way, by whether it has a turn and its trigger is enabled.
    pub(crate) fn is_under_way(self, turn: bool, trigger: bool) -> bool
        ensures { result ≡ under_way_by (status_as self) turn trigger }
    {
        match self {
            Status::Idle => false,
            Status::Busy | Status::Completed => true,
            Status::StreamCompleted => turn || trigger,
        }
    }

    /// The status after a round, by whether it went to the last place of the stream.
    pub(crate) fn after_round(self, last: bool) -> Status
        ensures { status_as result ≡ spec.status_after last (status_as self) }
    {
        if last {
            return Status::StreamCompleted;
        }
        match self {
            Status::StreamCompleted => Status::StreamCompleted,
            Status::Idle | Status::Busy | Status::Completed => Status::Completed,
        }
    }

    /// The status after the newest round was read, by whether the group ends with its stream.
    pub(crate) fn read(self, ends: bool) -> Status
        ensures { status_as result ≡ spec.status_read ends (status_as self) }
    {
        if ends && matches!(self, Status::StreamCompleted) {
            Status::Idle
        } else {
            Status::Busy
        }
    }
}

/// A group after `Adc_Init`.
pub(crate) const BLANK: Group = Group {
    status: Status::Idle,
    chosen: None,
    notification: false,
    trigger: false,
    count: 0,
    newest: NO_VALUES,
    waiting: None,
};

impl Group {
    /// Whether it waits.
    pub(crate) fn waits(self) -> bool
        ensures { result ≡ is_some (group_as self).waiting }
    {
        self.waiting.is_some()
    }

    /// Whether no buffer is chosen.
    pub(crate) fn is_unbuffered(self) -> bool
        ensures { result ≡ not (is_some (group_as self).chosen) }
    {
        self.chosen.is_none()
    }
}

/// Whether a waiting request comes before another one, by the ranks of their groups and by their numbers.
pub(crate) fn precedes(rank: u32, other_rank: u32, number: u32, other_number: u32) -> bool
    ensures { result ≡ nat_lt other_rank rank || (rank == other_rank && nat_lt number other_number) }
{
    other_rank < rank || rank == other_rank && number < other_number
}

/// Whether a round is one of a group.
pub(crate) fn is_round_of(group: u32, round: Option<Round>) -> bool
    ensures { result ≡ turns.is_round_of group (option_map round_as round) }
{
    match round {
        Some(round) => round.group == group,
        None => false,
    }
}

/// A round, but for one of a group.
pub(crate) fn unless_of(group: u32, round: Option<Round>) -> Option<Round>
    ensures { option_map round_as result ≡ turns.unless_of group (option_map round_as round) }
{
    if is_round_of(group, round) {
        None
    } else {
        round
    }
}

/// The number of a request, 0 where there is none.
pub(crate) fn number_in(waiting: Option<Request>) -> u32
    ensures { result ≡ turns.number_in (option_map request_as waiting) }
{
    match waiting {
        Some(request) => request.number,
        None => 0,
    }
}

/// The round of a group that a request begins now.
pub(crate) fn begun(group: u32, waiting: Option<Request>, now: u64) -> Option<Round>
    ensures { (w : World) → w.now ≡ now → option_map round_as result ≡ turns.begun w group (option_map request_as waiting) }
{
    match waiting {
        Some(request) => Some(Round {
            group,
            request,
            start: now,
        }),
        None => None,
    }
}

use audit_base::Notices;
use mcal_base::{Answer, DevError, Directive, Reason, Short, Unit};

/// Times in peripheral ticks, at most eight, which contracts see as a list.
pub type Times = Short<u64, 8>;

/// What happens to the machines.
#[derive(Drop)]
pub enum Happening {
    /// The hardware moves: a directive that asks for it.
    Hw(Directive),
    /// The call of a directive acts. Where it is `Pwm_Init`, it committed the output of each configured pulse channel at
    /// these times, in the order of the channels' numbers; elsewhere there is no time.
    Act(Directive, Times),
    /// A line is served, with the incoming word of a serial word that begins there.
    Serve(u32, u32),
    /// A unit starts its next round, job or word, with the incoming word of a serial word that begins there, and the call's
    /// directive where it starts a word for a call.
    Start(Unit, u32, Option<Directive>),
    /// The running round of a unit is aborted. Its second number counts for nothing.
    Abort(Unit, u32),
    /// The chip is reset.
    Reset(Reason),
}

/// What the machines make of a happening.
#[derive(Drop)]
pub enum Took {
    /// It isn't allowed, and changes nothing.
    Refused,
    /// The answer of an act, the error that is reported, and the notices that are given, in their order.
    Allowed(Answer, Option<DevError>, Notices),
}

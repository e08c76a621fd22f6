//! The writes that calls about all channels owe, as bits of a mask.

ghost use Rattle.std.specs.Prelude.{◌≡◌, ◌<◌, ◌+◌, ◌*◌, ◌^◌};
ghost use Rattle.audit_frames.specs.Told.{is_of_kind};
ghost use Rattle.module_machines.specs.pwm.Bounds as bounds;
ghost use Rattle.audit_subject.specs.Marks as masks;
ghost use Rattle.audit_pulses.specs.Duties as spec;

use mcal_base::{Move, Reg};
use module_machines::pwm::{Call, Channel, PwmTable};

/// What such a call does to the output of each channel.
#[derive(Clone, Copy)]
pub enum Duty {
    /// It commits it.
    Commit,
    /// It idles it.
    Idle,
}

/// Whether a move does so to a channel.
fn is_done(duty: Duty, channel: u32, made: Move) -> bool
    ensures { result ≡ is_of_kind (spec.kind_of duty channel) made }
{
    match duty {
        Duty::Commit => match made {
            Move::Write(Reg::PulseCommit(number), _) => number == channel,
            _ => false,
        },
        Duty::Idle => match made {
            Move::Write(Reg::PulseIdle(number), _) => number == channel,
            _ => false,
        },
    }
}

/// Whether it does, and yes where there is no move.
fn is_met(duty: Duty, channel: u32, made: Option<Move>) -> bool
    ensures { result ≡ masks.is_met made (spec.kind_of duty channel) }
{
    match made {
        Some(made) => is_done(duty, channel, made),
        None => true,
    }
}

/// A mask with the bit of one more channel below the others, where it is configured.
fn with_channel(
    mask: u64,
    duty: Duty,
    number: u32,
    channel: Option<Channel>,
    made: Option<Move>,
) -> u64
    requires { 2 * mask + 1 < 2 ^ 64 }
    ensures { result ≡ masks.with_marks made (bounds.duty_of (spec.kind_of duty) number channel) mask }
{
    match channel {
        Some(_) => u64::from(is_met(duty, number, made)) + 2 * mask,
        None => mask,
    }
}

/// A bit for each configured channel, the highest in bit 0: of those to which the move does so, and of all where there is none.
fn marks(table: &PwmTable, duty: Duty, made: Option<Move>) -> u64
    ensures { result ≡ masks.marks made (bounds.duties table.now (spec.kind_of duty) 8) }
{
    let mut mask = 0;
    for number in 0..8u32 {
        mask = with_channel(mask, duty, number, table.channel(number), made);
    }
    mask
}

/// A bit for each write that a call owes: of those that the move makes, and of all where there is none.
pub(crate) fn owed(table: &PwmTable, call: Call, made: Option<Move>) -> u64
    ensures { result ≡ masks.marks made (bounds.must_by table.now call) }
{
    match call {
        Call::Init => marks(table, Duty::Commit, made),
        Call::DeInit => marks(table, Duty::Idle, made),
        Call::GetOutputState(_) | Call::Channel(..) => 0,
    }
}

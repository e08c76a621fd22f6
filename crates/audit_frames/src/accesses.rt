ghost use Rattle.std.specs.Prelude.{◌≡◌, ◌||◌};
ghost use Rattle.run_model.specs.Frame.{is_write};
ghost use Rattle.mcal_base.specs.Reach.{CanApply};
ghost use Rattle.mcal_base.specs.declared.moves.Move.TheVariants.{Read};
ghost use Rattle.audit_frames.specs.AccessRules as spec;

use crate::bits::{has_bit, includes, with_bit};
use crate::terms::{Around, Counter, Task};
use mcal_base::{Move, Reg, Service};

/// What a frame has read and written.
#[derive(Clone, Copy)]
pub struct Accesses {
    /// Whether it read the low half of its call's counter.
    pub low_read: bool,
    /// Whether it read the high half.
    pub high_read: bool,
    /// Whether it wrote a register or a word.
    pub wrote: bool,
    /// The kinds of write that its call owes and that it has made.
    pub made: u64,
    /// The low halves that it read since it closed or opened the mask: of timers, of edges' counts and of edges' times, in turn.
    pub lows: u64,
    /// Whether it made a move since then that belongs beside its act.
    pub beside: bool,
    /// When it last wrote the commit register of each pulse channel.
    pub committed: [Option<u64>; 8],
}

/// Whether the register has the low half of the counter.
fn is_low_of(counter: Option<Counter>, register: Reg) -> bool
    ensures { result ≡ spec.is_low_of counter register }
{
    match counter {
        Some(Counter::Timer(channel)) => match register {
            Reg::TimerLow(number) => number == channel,
            _ => false,
        },
        Some(Counter::Capture(channel)) => match register {
            Reg::CaptureCountLow(number) => number == channel,
            _ => false,
        },
        None => false,
    }
}

/// Whether the register has its high half.
fn is_high_of(counter: Option<Counter>, register: Reg) -> bool
    ensures { result ≡ spec.is_high_of counter register }
{
    match counter {
        Some(Counter::Timer(channel)) => match register {
            Reg::TimerHigh(number) => number == channel,
            _ => false,
        },
        Some(Counter::Capture(channel)) => match register {
            Reg::CaptureCountHigh(number) => number == channel,
            _ => false,
        },
        None => false,
    }
}

/// Whether the move reads the low half of the counter.
pub(crate) fn reads_low(counter: Option<Counter>, made: &Move) -> bool
    ensures { result ≡ spec.reads_low counter made.now }
{
    match *made {
        Move::Read(register) => is_low_of(counter, register),
        _ => false,
    }
}

/// Whether the move reads its high half.
fn reads_high(counter: Option<Counter>, made: &Move) -> bool
    ensures { result ≡ spec.reads_high counter made.now }
{
    match *made {
        Move::Read(register) => is_high_of(counter, register),
        _ => false,
    }
}

/// The counter that the call of a task reads, where it reads one.
pub(crate) fn counter_of(task: Task) -> Option<Counter>
    ensures { result ≡ spec.counter_of task }
{
    match task {
        Task::Call(caller) => caller.counter,
        Task::Line(_) => None,
    }
}

/// Whether a low half was read, with this move.
fn has_read_low(before: bool, counter: Option<Counter>, made: &Move) -> bool
    ensures { result ≡ (spec.reads_low counter made.now || before) }
{
    reads_low(counter, made) || before
}

/// Whether a high half was read, with this move.
fn has_read_high(before: bool, counter: Option<Counter>, made: &Move) -> bool
    ensures { result ≡ (spec.reads_high counter made.now || before) }
{
    reads_high(counter, made) || before
}

/// Whether something was written, with this move.
fn has_written(before: bool, made: &Move) -> bool
    ensures { result ≡ (before || is_write made.now) }
{
    before || matches!(made, Move::Write(_, _) | Move::Store(_, _))
}

/// The low halves that were read in a window, with this register's: a bit of a mask for each.
fn lows_with(lows: u64, register: Reg) -> u64
    requires { CanApply (Read register) }
    ensures { result ≡ spec.lows_with lows register }
{
    match register {
        Reg::TimerLow(channel) => with_bit(lows, 3 * channel),
        Reg::CaptureCountLow(channel) => with_bit(lows, 3 * channel + 1),
        Reg::CaptureTimeLow(channel) => with_bit(lows, 3 * channel + 2),
        _ => lows,
    }
}

/// The low halves that were read in a window, after a move.
fn lows_after(lows: u64, made: &Move) -> u64
    requires { CanApply made.now }
    ensures { result ≡ spec.lows_after lows made.now }
{
    match *made {
        Move::Mask | Move::Unmask => 0,
        Move::Read(register) => lows_with(lows, register),
        Move::Write(_, _) | Move::Load(_) | Move::Store(_, _) | Move::Note(_) | Move::Report(_) => {
            lows
        }
    }
}

/// Whether the low half was read in the window of which the register has the high half, where it has one.
fn follows_low(lows: u64, register: Reg) -> bool
    requires { CanApply (Read register) }
    ensures { result ≡ spec.follows_low lows register }
{
    match register {
        Reg::TimerHigh(channel) => has_bit(lows, 3 * channel),
        Reg::CaptureCountHigh(channel) => has_bit(lows, 3 * channel + 1),
        Reg::CaptureTimeHigh(channel) => has_bit(lows, 3 * channel + 2),
        _ => true,
    }
}

/// Whether the register has the high half of a counter or of an edge's time.
fn is_high(register: Reg) -> bool
    ensures { result ≡ spec.is_high register }
{
    matches!(
        register,
        Reg::TimerHigh(_) | Reg::CaptureCountHigh(_) | Reg::CaptureTimeHigh(_)
    )
}

/// Whether a call of the service makes such a move in the window in which it acts, and nowhere else.
fn is_beside(service: Service, made: &Move) -> bool
    ensures { result ≡ spec.is_beside service made.now }
{
    match *made {
        Move::Write(Reg::PulseCommit(_), _) => matches!(service, Service::PwmInit),
        Move::Write(Reg::PulseIdle(_), _) => matches!(service, Service::PwmDeInit),
        _ => false,
    }
}

fn is_beside_act(task: Task, made: &Move) -> bool
    ensures { result ≡ spec.is_beside_act task made.now }
{
    match task {
        Task::Call(caller) => is_beside(caller.service, made),
        Task::Line(_) => false,
    }
}

/// Whether such a move was made in the window, after a move.
fn beside_after(beside: bool, task: Task, made: &Move) -> bool
    ensures { result ≡ spec.beside_after beside task made.now }
{
    match *made {
        Move::Mask | Move::Unmask => false,
        Move::Read(_)
        | Move::Write(_, _)
        | Move::Load(_)
        | Move::Store(_, _)
        | Move::Note(_)
        | Move::Report(_) => is_beside_act(task, made) || beside,
    }
}

/// The last writes of commit registers, after a move now.
pub(crate) fn committed_after(
    committed: [Option<u64>; 8],
    made: &Move,
    now: u64,
) -> [Option<u64>; 8]
    requires { CanApply made.now }
    ensures { result ≡ spec.committed_after committed made.now now }
{
    let mut times = committed;
    if let Move::Write(Reg::PulseCommit(channel), _) = *made {
        times[channel as usize] = Some(now);
    }
    times
}

/// A commit register is written, where a move does that now.
fn commit(committed: &mut [Option<u64>; 8], made: &Move, now: u64)
    requires { CanApply made.now }
    ensures { committed.new ≡ spec.committed_after committed.old made.now now }
{
    if let Move::Write(Reg::PulseCommit(channel), _) = *made {
        committed[channel as usize] = Some(now);
    }
}

impl Accesses {
    /// Nothing was read or written yet.
    pub(crate) fn none() -> Accesses
        ensures { result ≡ spec.accesses_none }
    {
        Accesses {
            low_read: false,
            high_read: false,
            wrote: false,
            made: 0,
            lows: 0,
            beside: false,
            committed: [None; 8],
        }
    }

    /// A move is made now, which is of these kinds of write that the call owes.
    pub(crate) fn take(&mut self, task: Task, made: &Move, around: &Around)
        requires { CanApply made.now }
        ensures { self.new ≡ spec.accesses_after self.old task made.now around.now }
    {
        let counter = counter_of(task);
        self.low_read = has_read_low(self.low_read, counter, made);
        self.high_read = has_read_high(self.high_read, counter, made);
        self.wrote = has_written(self.wrote, made);
        self.made |= around.settles;
        self.lows = lows_after(self.lows, made);
        self.beside = beside_after(self.beside, task, made);
        commit(&mut self.committed, made, around.time);
    }

    /// Whether the move stands in the window in which it belongs: a high half is read with the mask closed, after its low half
    /// was read there, and a move beside the act is made with the mask closed, which isn't opened before the act. `acts` says
    /// whether the frame acted since it closed or opened the mask, with this step.
    pub(crate) fn are_together(&self, task: Task, inside: bool, acts: bool, made: &Move) -> bool
        requires { CanApply made.now }
        ensures { result ≡ spec.are_together self.now task inside acts made.now }
    {
        match *made {
            Move::Read(register) => {
                !is_high(register) || inside && follows_low(self.lows, register)
            }
            Move::Write(_, _) => !is_beside_act(task, made) || inside,
            Move::Unmask => !self.beside || acts,
            Move::Mask | Move::Load(_) | Move::Store(_, _) | Move::Note(_) | Move::Report(_) =>
                true,
        }
    }

    /// Whether each kind of write was made that a call owes.
    pub(crate) fn are_made(&self, task: Task) -> bool
        ensures { result ≡ spec.are_made self.now task }
    {
        match task {
            Task::Call(caller) => includes(caller.duties, self.made),
            Task::Line(_) => true,
        }
    }
}

ghost use Rattle.std.specs.Prelude.{◌≡◌, ◌<◌, ◌+◌, ◌^◌, ℕ, IfOk, option_copied};
ghost use Rattle.mcal_base.specs.det_errors.Reports as errors;
ghost use Rattle.run_model.specs.Machine.{Acts, Serves, Starts, Aborts, Moves, Restarts, tells_nothing};
ghost use Rattle.run_model.specs.World.{World};
ghost use Rattle.audit_base.specs.Comes.{Comes};
ghost use Rattle.audit_base.specs.Deeds.{Follows, Member};
ghost use Rattle.audit_base.specs.Outside.{IsWorld, IsAfter, IsThere, AreTimes, ArePast};

use crate::done::Done;
use crate::outside::Outside;
use mcal_base::{ErrorName, Order, Reason, Service, Short, Unit};
use std::alloc::AllocError;

/// The lines that a call polls, in the order in which it serves them.
pub type Polled = Short<u32, 2>;

/// The machine of a module, or of several, as a program. After an error of memory it is only dropped.
pub trait Part {
    ghost use Rattle.audit_base.specs.declared.outside.Outside.{Outside};

    /// A service with its arguments.
    type Call: Drop;

    /// The state of the machine. Contracts alone name it.
    type State;

    /// What it keeps of a configuration. Contracts alone name it.
    type Table;

    /// What it keeps of its configuration, which stays.
    ghost table: { Self → Self.Table };

    /// The machine under a configuration, with the lines of its configured objects.
    ghost member: { Self.Table → Member Self.State Self.Call };

    /// It can be told what happens now: no time is earlier than the one before, and not too much was told.
    ghost fits: { Self → Outside → Type 0 };

    /// The peripheral ticks of a tick of the oscillator.
    ghost ticks: { Self → ℕ };

    /// What it keeps stands for a state of the machine.
    ghost stands: { Self → Self.State → Type 0 };

    /// Whether a configured object uses a line.
    fn has_line(&self, line: u32) -> bool
        ensures { result ≡ (member (table self.now)).lines line };

    /// A call acts, where it may; its frame wrote the commit register of each pulse channel last at these times.
    fn act(
        &mut self,
        outside: &Outside,
        call: &Self::Call,
        times: [u64; 8],
    ) -> Result<Option<Done>, AllocError>
        requires fits { fits self.old outside.now }
        requires count { outside.now.told + 1 < 2 ^ 32 }
        requires short { outside.now.osc < 2 ^ 63 }
        requires past { ArePast times outside.now.time }
        ensures follows { (w : World) (s : Self.State) (committed : ℕ → ℕ) → IsWorld outside.now w → AreTimes times committed → stands self.old s →
            IfOk result (λ done. Follows (stands self.new) s done ((member (table self.old)).machine.happens w s (Acts call.now committed))) }
        ensures fits { IfOk result (λ _. (o : Outside) → IsAfter outside.now o → fits self.new o) }
        ensures table { table self.new ≡ table self.old };

    /// A line is served, where it may be; a word that begins there has this incoming word.
    fn serve(
        &mut self,
        outside: &Outside,
        line: u32,
        received: u32,
    ) -> Result<Option<Done>, AllocError>
        requires fits { fits self.old outside.now }
        requires count { outside.now.told + 1 < 2 ^ 32 }
        ensures follows { (w : World) (s : Self.State) → IsWorld outside.now w → stands self.old s →
            IfOk result (λ done. Follows (stands self.new) s done ((member (table self.old)).machine.happens w s (Serves line received))) }
        ensures fits { IfOk result (λ _. (o : Outside) → IsAfter outside.now o → fits self.new o) }
        ensures table { table self.new ≡ table self.old };

    /// A unit starts its next round, job or word, where it may: for a call, where one is given. A word that begins there
    /// has this incoming word.
    fn start(
        &mut self,
        outside: &Outside,
        unit: Unit,
        by: Option<&Self::Call>,
        received: u32,
    ) -> Result<Option<Done>, AllocError>
        requires fits { fits self.old outside.now }
        requires count { outside.now.told + 1 < 2 ^ 32 }
        ensures follows { (w : World) (s : Self.State) → IsWorld outside.now w → stands self.old s →
            IfOk result (λ done. Follows (stands self.new) s done ((member (table self.old)).machine.happens w s (Starts unit (option_copied by.entry) received))) }
        ensures fits { IfOk result (λ _. (o : Outside) → IsAfter outside.now o → fits self.new o) }
        ensures table { table self.new ≡ table self.old };

    /// The running round of a unit is aborted, where it may be.
    fn abort(&mut self, outside: &Outside, unit: Unit) -> Result<Option<Done>, AllocError>
        requires fits { fits self.old outside.now }
        requires count { outside.now.told + 1 < 2 ^ 32 }
        ensures follows { (w : World) (s : Self.State) → IsWorld outside.now w → stands self.old s →
            IfOk result (λ done. Follows (stands self.new) s done ((member (table self.old)).machine.happens w s (Aborts unit))) }
        ensures fits { IfOk result (λ _. (o : Outside) → IsAfter outside.now o → fits self.new o) }
        ensures table { table self.new ≡ table self.old };

    /// The hardware moves, which is always allowed. What stands outside is as it was before.
    fn moved(&mut self, outside: &Outside, order: &Order) -> Result<(), AllocError>
        requires fits { fits self.old outside.now }
        requires count { outside.now.told + 1 < 2 ^ 32 }
        requires there { IsThere order.now }
        ensures comes { (w : World) (s : Self.State) → IsWorld outside.now w → stands self.old s →
            IfOk result (λ _. Comes (stands self.new) tells_nothing ((member (table self.old)).machine.happens w s (Moves order.now))) }
        ensures fits { IfOk result (λ _. (o : Outside) → IsAfter outside.now o → fits self.new o) }
        ensures table { table self.new ≡ table self.old };

    /// The chip is reset, which is always allowed.
    fn reset(&mut self, outside: &Outside, reason: Reason)
        requires fits { fits self.old outside.now }
        ensures comes { (w : World) (s : Self.State) → stands self.old s →
            Comes (stands self.new) tells_nothing ((member (table self.old)).machine.happens w s (Restarts reason)) }
        ensures fits { (o : Outside) → IsAfter outside.now o → fits self.new o }
        ensures table { table self.new ≡ table self.old };

    /// Whether a line may be served.
    fn ready(&self, outside: &Outside, line: u32) -> bool
        ensures { (w : World) (s : Self.State) → fits self.now outside.now → IsWorld outside.now w → stands self.now s → result ≡ (member (table self.now)).machine.ready w s line };

    /// Whether a line wants to be served.
    fn due(&self, outside: &Outside, line: u32) -> bool
        ensures { (w : World) (s : Self.State) → fits self.now outside.now → IsWorld outside.now w → stands self.now s → result ≡ (member (table self.now)).machine.due w s line };

    /// Whether a line is a unit's that may start or abort.
    fn line_waits(&self, outside: &Outside, line: u32) -> bool
        ensures { (w : World) (s : Self.State) → fits self.now outside.now → IsWorld outside.now w → stands self.now s → result ≡ (member (table self.now)).machine.line_waits w s line };

    /// Whether a unit may start or abort.
    fn startable(&self, outside: &Outside, unit: Unit) -> bool
        ensures { (w : World) (s : Self.State) → fits self.now outside.now → IsWorld outside.now w → stands self.now s → result ≡ (member (table self.now)).machine.startable w s unit };

    /// The peripheral ticks of a tick of the oscillator.
    fn rate(&self) -> u32
        ensures ticks { result ≡ ticks self.now }
        ensures is { (s : Self.State) → stands self.now s → result ≡ (member (table self.now)).machine.rate s };

    /// The ticks of the oscillator that are left until the watchdog's time ends, where it runs.
    fn expires(&self, outside: &Outside) -> Option<u64>
        ensures { (w : World) (s : Self.State) → IsWorld outside.now w → stands self.now s → result ≡ (member (table self.now)).machine.expires w s };

    /// The service of a call.
    fn service(&self, call: &Self::Call) -> Service
        ensures { result ≡ (member (table self.now)).machine.service_of call.now };

    /// Whether an error that a call finds is reported: as a runtime error, or as a development error.
    fn reported(&self, call: &Self::Call, error: ErrorName) -> Option<bool>
        ensures { result ≡ errors.reported ((member (table self.now)).machine.reporting call.now) error };

    /// The lines that a call polls, in the order in which it serves them.
    fn polls(&self, call: &Self::Call) -> Polled
        ensures { (w : World) (s : Self.State) → stands self.now s → result ≡ (member (table self.now)).machine.polls w s call.now };

    /// What it can be told, it can be told later.
    ghost later: { (m : Self) (o p : Outside) → fits m o → IsAfter o p → fits m p };
}

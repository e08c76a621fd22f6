ghost use Rattle.std.specs.Prelude.{◌≡◌, ◌<◌, ◌+◌, ◌^◌, ℕ, IfOk, option_copied, true};
ghost use Rattle.run_model.specs.Frame.{outcome_of, report_of};
ghost use Rattle.run_model.specs.Machine.{Aborts, Acts, Moves, Restarts, Serves, Starts};
ghost use Rattle.run_model.specs.World.{World, world_after};
ghost use Rattle.audit_base.specs.Outside.{CanMove, IsThere, IsWorld};
ghost use Rattle.audit_machines.specs.Happens as spec;
ghost use Rattle.audit_machines.specs.Happens.{AreBefore, CanHappen, GoesOn, IsAsked, IsAskedBy, Takes, Tells, deed_of, times_by, unreported, world_by};
ghost use Rattle.audit_machines.specs.Requests as requests;
ghost use Rattle.audit_machines.specs.declared.happening.Took.TheVariants.{Refused};

use crate::all::AllModules;
use crate::happening::{Happening, Took};
use crate::request::{AnyCall, call_of};
use crate::times::by_channel;
use audit_base::{Done, Notices, Outside, Part, nothing};
use mcal_base::{DevError, Directive, ErrorName, NoMemory, Order, Reason, Request, Unit};
use std::alloc::AllocError;

/// The machines of modules, of all of them where no others are named, with what stands outside.
#[derive(Drop)]
pub struct Machines<P = AllModules> {
    /// The modules.
    pub modules: P,
    /// What stands outside.
    pub outside: Outside,
    /// The place of each pulse channel's time among those of the configured channels.
    pub places: [u32; 8],
}

/// What is told of what no call did.
fn uncalled(done: Option<Done>) -> Took
    ensures { Tells result done unreported }
{
    match done {
        Some(done) => {
            let (answer, _, notices) = done.told.apart();
            Took::Allowed(answer, None, notices)
        }
        None => Took::Refused,
    }
}

/// The request of an order that calls.
fn request_in(order: &Order) -> Option<&Request>
    ensures { option_copied result ≡ spec.request_of order.now }
{
    match order {
        Order::Call(_, request) | Order::Do(_, request) => Some(request),
        _ => None,
    }
}

/// The call that a directive makes, where it makes one.
fn called_by(by: &Option<Directive>) -> Option<AnyCall>
    requires { IsAskedBy by.now }
    ensures { result ≡ spec.called_by by.now }
{
    match by {
        Some(directive) => match &directive.order {
            Order::Call(_, request) | Order::Do(_, request) => Some(call_of(request)),
            _ => None,
        },
        None => None,
    }
}

impl<P: Part<Call = AnyCall>> Machines<P> {
    /// The error that a call finds as it is reported, where it is.
    fn report(&self, call: &AnyCall, error: Option<ErrorName>) -> Option<DevError>
        ensures { result ≡ report_of (P.member (P.table self.now.modules)).machine call.now error }
    {
        let error = error?;
        let runtime = self.modules.reported(call, error)?;
        let service = self.modules.service(call);
        Some(DevError {
            service,
            error,
            runtime,
        })
    }

    /// What is told of what a call did.
    fn told(&self, call: &AnyCall, done: Option<Done>) -> Took
        ensures { Tells result done (report_of (P.member (P.table self.now.modules)).machine call.now) }
    {
        match done {
            Some(done) => {
                let (answer, error, notices) = done.told.apart();
                Took::Allowed(answer, self.report(call, error), notices)
            }
            None => Took::Refused,
        }
    }

    /// A call acts.
    fn act(&mut self, request: &Request, times: &[u64]) -> Result<Took, AllocError>
        requires fits { P.fits self.old.modules self.old.outside }
        requires count { self.old.outside.told + 1 < 2 ^ 32 }
        requires short { self.old.outside.osc < 2 ^ 63 }
        requires asked { requests.has_service request.now.service ≡ true }
        requires past { AreBefore self.old.outside.time times.now }
        ensures takes { (w : World) (s : P.State) → IsWorld self.old.outside w → P.stands self.old.modules s → let m = (P.member (P.table self.old.modules)).machine in let call = requests.call_of request.now in
            IfOk result (λ took. Takes (λ x. IsWorld self.new.outside w × P.stands self.new.modules x) s took (report_of m call) (m.happens w s (Acts call (times_by self.old.places times.now)))) }
        ensures on { IfOk result (λ _. GoesOn P.fits P.table self.old self.new) }
    {
        let call = call_of(request);
        let times = by_channel(&self.places, times);
        let done = self.modules.act(&self.outside, &call, times)?;
        self.outside.count();
        Ok(self.told(&call, done))
    }

    /// The hardware moves.
    fn move_by(&mut self, order: &Order) -> Result<Took, AllocError>
        requires fits { P.fits self.old.modules self.old.outside }
        requires count { self.old.outside.told + 1 < 2 ^ 32 }
        requires short { self.old.outside.osc < 2 ^ 63 }
        requires there { IsThere order.now }
        requires times { CanMove self.old.outside order.now (P.ticks self.old.modules) }
        ensures takes { (w : World) (s : P.State) → IsWorld self.old.outside w → P.stands self.old.modules s → let m = (P.member (P.table self.old.modules)).machine in
            IfOk result (λ took. Takes (λ x. IsWorld self.new.outside (world_after w (m.rate s) order.now) × P.stands self.new.modules x) s took unreported (m.happens w s (Moves order.now))) }
        ensures on { IfOk result (λ _. GoesOn P.fits P.table self.old self.new) }
    {
        let rate = self.modules.rate();
        self.modules.moved(&self.outside, order)?;
        self.outside.move_by(order, rate)?;
        Ok(Took::Allowed(nothing(), None, Notices::None))
    }

    /// A unit starts.
    fn start(
        &mut self,
        unit: Unit,
        received: u32,
        by: &Option<Directive>,
    ) -> Result<Took, AllocError>
        requires fits { P.fits self.old.modules self.old.outside }
        requires count { self.old.outside.told + 1 < 2 ^ 32 }
        requires short { self.old.outside.osc < 2 ^ 63 }
        requires asked { IsAskedBy by.now }
        ensures takes { (w : World) (s : P.State) → IsWorld self.old.outside w → P.stands self.old.modules s → let m = (P.member (P.table self.old.modules)).machine in
            IfOk result (λ took. Takes (λ x. IsWorld self.new.outside w × P.stands self.new.modules x) s took unreported (m.happens w s (Starts unit (spec.called_by by.now) received))) }
        ensures on { IfOk result (λ _. GoesOn P.fits P.table self.old self.new) }
    {
        let call = called_by(by);
        let done = self
            .modules
            .start(&self.outside, unit, call.as_ref(), received)?;
        self.outside.count();
        Ok(uncalled(done))
    }

    /// A line is served.
    fn serve(&mut self, line: u32, received: u32) -> Result<Took, AllocError>
        requires fits { P.fits self.old.modules self.old.outside }
        requires count { self.old.outside.told + 1 < 2 ^ 32 }
        requires short { self.old.outside.osc < 2 ^ 63 }
        ensures takes { (w : World) (s : P.State) → IsWorld self.old.outside w → P.stands self.old.modules s → let m = (P.member (P.table self.old.modules)).machine in
            IfOk result (λ took. Takes (λ x. IsWorld self.new.outside w × P.stands self.new.modules x) s took unreported (m.happens w s (Serves line received))) }
        ensures on { IfOk result (λ _. GoesOn P.fits P.table self.old self.new) }
    {
        let done = self.modules.serve(&self.outside, line, received)?;
        self.outside.count();
        Ok(uncalled(done))
    }

    /// The running round of a unit is aborted.
    fn abort(&mut self, unit: Unit) -> Result<Took, AllocError>
        requires fits { P.fits self.old.modules self.old.outside }
        requires count { self.old.outside.told + 1 < 2 ^ 32 }
        requires short { self.old.outside.osc < 2 ^ 63 }
        ensures takes { (w : World) (s : P.State) → IsWorld self.old.outside w → P.stands self.old.modules s → let m = (P.member (P.table self.old.modules)).machine in
            IfOk result (λ took. Takes (λ x. IsWorld self.new.outside w × P.stands self.new.modules x) s took unreported (m.happens w s (Aborts unit))) }
        ensures on { IfOk result (λ _. GoesOn P.fits P.table self.old self.new) }
    {
        let done = self.modules.abort(&self.outside, unit)?;
        self.outside.count();
        Ok(uncalled(done))
    }

    /// The call of a directive acts, where that is one of a call.
    fn act_by(&mut self, directive: &Directive, times: &[u64]) -> Result<Took, AllocError>
        requires fits { P.fits self.old.modules self.old.outside }
        requires count { self.old.outside.told + 1 < 2 ^ 32 }
        requires short { self.old.outside.osc < 2 ^ 63 }
        requires asked { IsAsked (spec.request_of directive.now.order) }
        requires past { AreBefore self.old.outside.time times.now }
        ensures takes { (w : World) (s : P.State) → IsWorld self.old.outside w → P.stands self.old.modules s → let m = (P.member (P.table self.old.modules)).machine in
            IfOk result (λ took. Takes (λ x. IsWorld self.new.outside w × P.stands self.new.modules x) s took (spec.reported_by m (spec.called directive.now)) (outcome_of m w s (spec.act_of (spec.called directive.now) (times_by self.old.places times.now)))) }
        ensures on { IfOk result (λ _. GoesOn P.fits P.table self.old self.new) }
    {
        match request_in(&directive.order) {
            Some(request) => self.act(request, times),
            None => Ok(self.refuse()),
        }
    }

    /// What isn't allowed is told.
    fn refuse(&mut self) -> Took
        requires fits { P.fits self.old.modules self.old.outside }
        requires count { self.old.outside.told + 1 < 2 ^ 32 }
        requires short { self.old.outside.osc < 2 ^ 63 }
        ensures refused { result ≡ Refused }
        ensures world { (w : World) → IsWorld self.old.outside w → IsWorld self.new.outside w }
        ensures modules { self.new.modules ≡ self.old.modules }
        ensures on { GoesOn P.fits P.table self.old self.new }
    {
        self.outside.count();
        Took::Refused
    }

    /// The chip is reset.
    fn reset(&mut self, reason: Reason) -> Took
        requires fits { P.fits self.old.modules self.old.outside }
        requires count { self.old.outside.told + 1 < 2 ^ 32 }
        requires short { self.old.outside.osc < 2 ^ 63 }
        ensures takes { (w : World) (s : P.State) → IsWorld self.old.outside w → P.stands self.old.modules s → let m = (P.member (P.table self.old.modules)).machine in
            Takes (λ x. IsWorld self.new.outside w × P.stands self.new.modules x) s result unreported (m.happens w s (Restarts reason)) }
        ensures on { GoesOn P.fits P.table self.old self.new }
    {
        self.modules.reset(&self.outside, reason);
        self.outside.count();
        Took::Allowed(nothing(), None, Notices::None)
    }

    /// A happening is told. It is refused exactly where the machine of all modules doesn't allow it, and then changes
    /// nothing. The same as `take`, with the allocator's error.
    fn taken(&mut self, happening: &Happening) -> Result<Took, AllocError>
        requires fits { P.fits self.old.modules self.old.outside }
        requires count { self.old.outside.told + 1 < 2 ^ 32 }
        requires short { self.old.outside.osc < 2 ^ 63 }
        requires can { CanHappen self.old.outside (P.ticks self.old.modules) happening.now }
        ensures takes { (w : World) (s : P.State) → IsWorld self.old.outside w → P.stands self.old.modules s → let m = (P.member (P.table self.old.modules)).machine in
            IfOk result (λ took. Takes (λ x. IsWorld self.new.outside (world_by w (m.rate s) happening.now) × P.stands self.new.modules x) s took (spec.report m happening.now) (outcome_of m w s (deed_of self.old.places happening.now))) }
        ensures on { IfOk result (λ _. GoesOn P.fits P.table self.old self.new) }
    {
        match happening {
            Happening::Hw(directive) => self.move_by(&directive.order),
            Happening::Act(directive, times) => self.act_by(directive, times.as_slice()),
            Happening::Serve(line, received) => self.serve(*line, *received),
            Happening::Start(unit, received, by) => self.start(*unit, *received, by),
            Happening::Abort(unit, _) => self.abort(*unit),
            Happening::Reset(reason) => Ok(self.reset(*reason)),
        }
    }

    /// A happening is told, whose numbers and times are in range. It is refused exactly where the machine of all modules
    /// doesn't allow it, and then changes nothing. After an error the machines are only dropped.
    pub fn take(&mut self, happening: &Happening) -> Result<Took, NoMemory>
        requires fits { P.fits self.old.modules self.old.outside }
        requires count { self.old.outside.told + 1 < 2 ^ 32 }
        requires short { self.old.outside.osc < 2 ^ 63 }
        requires can { CanHappen self.old.outside (P.ticks self.old.modules) happening.now }
        ensures takes { (w : World) (s : P.State) → IsWorld self.old.outside w → P.stands self.old.modules s → let m = (P.member (P.table self.old.modules)).machine in
            IfOk result (λ took. Takes (λ x. IsWorld self.new.outside (world_by w (m.rate s) happening.now) × P.stands self.new.modules x) s took (spec.report m happening.now) (outcome_of m w s (deed_of self.old.places happening.now))) }
        ensures on { IfOk result (λ _. GoesOn P.fits P.table self.old self.new) }
    {
        match self.taken(happening) {
            Ok(took) => Ok(took),
            Err(_) => Err(NoMemory),
        }
    }

    /// Whether a line may be served.
    pub fn ready(&self, line: u32) -> bool
        requires { P.fits self.now.modules self.now.outside }
        ensures { (w : World) (s : P.State) → IsWorld self.now.outside w → P.stands self.now.modules s → result ≡ (P.member (P.table self.now.modules)).machine.ready w s line }
    {
        self.modules.ready(&self.outside, line)
    }

    /// Whether a line wants to be served.
    pub fn due(&self, line: u32) -> bool
        requires { P.fits self.now.modules self.now.outside }
        ensures { (w : World) (s : P.State) → IsWorld self.now.outside w → P.stands self.now.modules s → result ≡ (P.member (P.table self.now.modules)).machine.due w s line }
    {
        self.modules.due(&self.outside, line)
    }

    /// Whether a unit may start or abort.
    pub fn startable(&self, unit: Unit) -> bool
        requires { P.fits self.now.modules self.now.outside }
        ensures { (w : World) (s : P.State) → IsWorld self.now.outside w → P.stands self.now.modules s → result ≡ (P.member (P.table self.now.modules)).machine.startable w s unit }
    {
        self.modules.startable(&self.outside, unit)
    }
}

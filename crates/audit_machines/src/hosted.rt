ghost use Rattle.std.specs.Prelude.{◌≡◌, ◌<◌, ℕ, List, Option, option_copied};
ghost use Rattle.module_machines.specs.dio.Machine.{HostPins, does};
ghost use Rattle.run_model.specs.World.{World};
ghost use Rattle.audit_base.specs.Comes.{Gives};
ghost use Rattle.audit_base.specs.Outside.{IsWorld, IsAfter};
ghost use Rattle.audit_base.specs.Product.{first_call};

use crate::pin_calls::{act_on, pin_of};
use audit_base::{Both, Done, Either, Outside, Part, Polled, Told};
use audit_clock::{Pins, Ports};
use audit_pulses::Pulses;
use mcal_base::{ErrorName, Order, Reason, Service, Unit};
use module_machines::dio::{Call, DioTable};
use std::alloc::AllocError;

/// A part that has the pins, which channels and ports see and change. The outputs of pulse channels are seen at the pins
/// that these name.
pub trait HasPins: Part {
    ghost use Rattle.audit_base.specs.declared.outside.Outside.{Outside};

    /// The pins of its machine under a configuration.
    ghost pins: { Self.Table → (outputs : List (Option ℕ)) → HostPins Self.State };

    /// The level of a pin, of 64.
    fn pin(&self, outside: &Outside, outputs: &[Option<u32>; 8], pin: u32) -> bool
        requires { pin < 64 }
        ensures { (w : World) (s : Self.State) → IsWorld outside.now w → Self.stands self.now s → result ≡ (pins (Self.table self.now) outputs.now).level w s pin };

    /// A call of channels and ports acts on its pins.
    fn act_on_pins(
        &mut self,
        outside: &Outside,
        ports: &Ports,
        outputs: &[Option<u32>; 8],
        call: Call,
    ) -> Told
        requires fits { Self.fits self.old outside.now }
        ensures gives { (w : World) (s : Self.State) → IsWorld outside.now w → Self.stands self.old s →
            Gives (Self.stands self.new) result (does (pins (Self.table self.old) outputs.now) ports.now w s call) }
        ensures fits { (o : Outside) → IsAfter outside.now o → Self.fits self.new o }
        ensures table { Self.table self.new ≡ Self.table self.old };
}

impl<C: Part, T: Part, K: Part, R: Part> HasPins
    for Both<Both<C, Both<Pins, T>>, Both<Both<Pulses, K>, R>> {
    ghost use Rattle.audit_machines.specs.Guest.{host_pins};

    ghost pins = { λ t. host_pins t.1.0.0 };

    fn pin(&self, outside: &Outside, outputs: &[Option<u32>; 8], pin: u32) -> bool {
        pin_of(self, outside, outputs, pin)
    }

    fn act_on_pins(
        &mut self,
        outside: &Outside,
        ports: &Ports,
        outputs: &[Option<u32>; 8],
        call: Call,
    ) -> Told {
        act_on(self, outside, ports, outputs, call)
    }
}

/// A part that has the pins, with channels and ports.
#[derive(Drop)]
pub struct Hosted<H> {
    /// The part that has the pins, and all states.
    pub host: H,
    /// Channels and ports.
    pub ports: Ports,
    /// The pin at which the output of each pulse channel is seen, where it is seen at one.
    pub outputs: [Option<u32>; 8],
}

/// A call of the host, where it is one.
fn host_call<C>(call: Option<&Either<C, Call>>) -> Option<&C>
    ensures { option_copied result ≡ first_call (option_copied call.entry) }
{
    match call {
        Some(Either::Left(call)) => Some(call),
        _ => None,
    }
}

impl<H: HasPins> Part for Hosted<H> {
    type Call = Either<H::Call, Call>;

    type State = H::State;

    type Table = (H::Table, DioTable, [Option<u32>; 8]);

    ghost use Rattle.audit_machines.specs.Guest.{hosted};

    ghost table = { λ m. (H.table m.host, m.ports, m.outputs) };

    ghost member = { λ t. hosted (H.member t.0) (H.pins t.0 t.2) t.1 };

    ghost fits = { λ m o. H.fits m.host o };

    ghost ticks = { λ m. H.ticks m.host };

    ghost stands = { λ m s. H.stands m.host s };

    fn has_line(&self, line: u32) -> bool {
        self.host.has_line(line)
    }

    fn act(
        &mut self,
        outside: &Outside,
        call: &Self::Call,
        times: [u64; 8],
    ) -> Result<Option<Done>, AllocError> {
        match call {
            Either::Left(call) => self.host.act(outside, call, times),
            Either::Right(call) => {
                let told = self
                    .host
                    .act_on_pins(outside, &self.ports, &self.outputs, *call);
                Ok(Some(Done { told, begins: None }))
            }
        }
    }

    fn serve(
        &mut self,
        outside: &Outside,
        line: u32,
        received: u32,
    ) -> Result<Option<Done>, AllocError> {
        self.host.serve(outside, line, received)
    }

    fn start(
        &mut self,
        outside: &Outside,
        unit: Unit,
        by: Option<&Self::Call>,
        received: u32,
    ) -> Result<Option<Done>, AllocError> {
        self.host.start(outside, unit, host_call(by), received)
    }

    fn abort(&mut self, outside: &Outside, unit: Unit) -> Result<Option<Done>, AllocError> {
        self.host.abort(outside, unit)
    }

    fn moved(&mut self, outside: &Outside, order: &Order) -> Result<(), AllocError> {
        self.host.moved(outside, order)
    }

    fn reset(&mut self, outside: &Outside, reason: Reason) {
        self.host.reset(outside, reason);
    }

    fn ready(&self, outside: &Outside, line: u32) -> bool {
        self.host.ready(outside, line)
    }

    fn due(&self, outside: &Outside, line: u32) -> bool {
        self.host.due(outside, line)
    }

    fn line_waits(&self, outside: &Outside, line: u32) -> bool {
        self.host.line_waits(outside, line)
    }

    fn startable(&self, outside: &Outside, unit: Unit) -> bool {
        self.host.startable(outside, unit)
    }

    fn rate(&self) -> u32 {
        self.host.rate()
    }

    fn expires(&self, outside: &Outside) -> Option<u64> {
        self.host.expires(outside)
    }

    fn service(&self, call: &Self::Call) -> Service {
        match call {
            Either::Left(call) => self.host.service(call),
            Either::Right(call) => call.service(),
        }
    }

    fn reported(&self, call: &Self::Call, error: ErrorName) -> Option<bool> {
        match call {
            Either::Left(call) => self.host.reported(call, error),
            Either::Right(_) => self.ports.report(error),
        }
    }

    fn polls(&self, call: &Self::Call) -> Polled {
        match call {
            Either::Left(call) => self.host.polls(call),
            Either::Right(_) => Polled::new(),
        }
    }

    ghost later = { λ m o p h a. H.later m.host o p h a };
}

use crate::guests::Guest;
use chip_model::Bus;
use mcal_base::ModuleName;
use run_model::Class;
use step_runner::{Either, Module};

/// A driver with its guest.
#[derive(Drop)]
pub struct Hosted<H, G> {
    /// The driver, which has the state and the lines.
    pub host: H,
    /// The guest.
    pub guest: G,
}

impl<H: Module, G: Guest<State = H::State>> Module for Hosted<H, G> {
    type Call = Either<H::Call, G::Call>;

    type Frame = Either<H::Frame, G::Frame>;

    type State = H::State;

    ghost use Rattle.service_outline.specs.guests.Guest.{guest_of};
    ghost use Rattle.service_outline.specs.guests.GuestLaws.{guest-lawful};

    ghost spec = { λ m. guest_of (H.spec m.host) (G.spec m.guest) };

    fn frame(&self, call: &Either<H::Call, G::Call>) -> Either<H::Frame, G::Frame> {
        match call {
            Either::Left(call) => Either::Left(self.host.frame(call)),
            Either::Right(call) => Either::Right(self.guest.frame(call)),
        }
    }

    fn handler(&self, line: u32) -> Option<Either<H::Frame, G::Frame>> {
        match self.host.handler(line) {
            Some(frame) => Some(Either::Left(frame)),
            None => None,
        }
    }

    fn class(&self, call: &Either<H::Call, G::Call>) -> Class {
        match call {
            Either::Left(call) => self.host.class(call),
            Either::Right(_) => self.guest.class(),
        }
    }

    fn level(&self, line: u32) -> u32 {
        self.host.level(line)
    }

    fn owner(&self, line: u32) -> ModuleName {
        self.host.owner(line)
    }

    fn source_use(&self, bus: &Bus, channel: u32) -> Option<bool> {
        self.host.source_use(bus, channel)
    }

    ghost laws = { λ m fits. guest-lawful
        (H.spec m.host) (G.spec m.guest)
        H.Frame.move_of H.Frame.left H.Frame.gave G.Frame.move_of G.Frame.left G.Frame.gave
        (H.laws m.host fits.0) (G.laws m.guest fits.1) fits.2 };
}

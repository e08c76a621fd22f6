ghost use Rattle.std.specs.Prelude.{◌≡◌};
ghost use Rattle.audit_machines.specs.Hosting as spec;

use crate::hosted::{HasPins, Hosted};
use audit_base::{Either, Outside};
use audit_frames::Counter;
use audit_subject::Subject;
use mcal_base::{ModuleName, Move, Reg, Unit};
use run_model::{Class, Kind};

/// The driver word that a call of channels and ports with an error loads, to act. It is never stored.
const NOWHERE: u32 = 57_344;

/// The most steps of a call of channels and ports.
const MOST_STEPS: u32 = 64;

/// Whether a frame of channels and ports may make a move of its own.
fn may(made: &Move) -> bool
    ensures { result ≡ spec.may made.now }
{
    match *made {
        Move::Read(Reg::PortLevels(port)) => port < 8,
        Move::Read(Reg::PinFlip(pin)) => pin < 64,
        Move::Write(Reg::PortPut(port), _) => port < 8,
        Move::Load(word) => word == NOWHERE,
        _ => false,
    }
}

impl<H: HasPins + Subject> Subject for Hosted<H> {
    ghost use Rattle.audit_machines.specs.Hosting.{hosted_setting, hosted_member};
    ghost use Rattle.audit_subject.specs.Hosting.{hosting_windows};

    ghost setting = { λ t. hosted_setting (H.setting t.0) (H.pins t.0 t.2) t.1 };

    fn class(&self, call: &Self::Call) -> Class {
        match call {
            Either::Left(call) => self.host.class(call),
            Either::Right(_) => Class {
                kind: Kind::Guarded,
                module: ModuleName::Port,
                key: None,
            },
        }
    }

    fn level(&self, line: u32) -> u32 {
        self.host.level(line)
    }

    fn owner(&self, line: u32) -> ModuleName {
        self.host.owner(line)
    }

    fn call_steps(&self, call: &Self::Call) -> u32 {
        match call {
            Either::Left(call) => self.host.call_steps(call),
            Either::Right(_) => MOST_STEPS,
        }
    }

    fn line_steps(&self, line: u32) -> u32 {
        self.host.line_steps(line)
    }

    fn counter(&self, call: &Self::Call) -> Option<Counter> {
        match call {
            Either::Left(call) => self.host.counter(call),
            Either::Right(_) => None,
        }
    }

    fn polled(&self, call: &Self::Call) -> u64 {
        match call {
            Either::Left(call) => self.host.polled(call),
            Either::Right(_) => 0,
        }
    }

    fn duties(&self, call: &Self::Call) -> u64 {
        match call {
            Either::Left(call) => self.host.duties(call),
            Either::Right(_) => 0,
        }
    }

    fn settles(&self, call: &Self::Call, made: &Move) -> u64 {
        match call {
            Either::Left(call) => self.host.settles(call, made),
            Either::Right(_) => 0,
        }
    }

    fn call_may(&self, call: &Self::Call, made: &Move) -> bool {
        match call {
            Either::Left(call) => self.host.call_may(call, made),
            Either::Right(_) => may(made),
        }
    }

    fn line_may(&self, line: u32, made: &Move) -> bool {
        self.host.line_may(line, made)
    }

    fn starts_uncalled(&self, outside: &Outside, unit: Unit) -> bool {
        self.host.starts_uncalled(outside, unit)
    }

    fn fills(&self, channel: u32) -> bool {
        self.host.fills(channel)
    }

    fn in_use(&self, channel: u32) -> bool {
        self.host.in_use(channel)
    }

    ghost member_is = { λ t. hosted_member (H.setting t.0) _ (H.pins t.0 t.2) t.1 (H.member_is t.0) };

    ghost windows = { λ t o. hosting_windows (H.setting t.0) (H.windows t.0) o };
}

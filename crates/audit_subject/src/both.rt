use crate::subject::Subject;
use audit_base::{Both, Either, Outside};
use audit_frames::Counter;
use mcal_base::{ModuleName, Move, Unit};
use run_model::Class;

impl<A: Subject, B: Subject> Subject for Both<A, B> {
    ghost use Rattle.audit_subject.specs.Product.{joined};
    ghost use Rattle.audit_subject.specs.Joining.{members, joined_windows};

    ghost setting = { λ t. joined (A.setting t.0) (B.setting t.1) };

    fn class(&self, call: &Self::Call) -> Class {
        match call {
            Either::Left(call) => self.first.class(call),
            Either::Right(call) => self.second.class(call),
        }
    }

    fn level(&self, line: u32) -> u32 {
        if self.first.has_line(line) {
            self.first.level(line)
        } else {
            self.second.level(line)
        }
    }

    fn owner(&self, line: u32) -> ModuleName {
        if self.first.has_line(line) {
            self.first.owner(line)
        } else {
            self.second.owner(line)
        }
    }

    fn call_steps(&self, call: &Self::Call) -> u32 {
        match call {
            Either::Left(call) => self.first.call_steps(call),
            Either::Right(call) => self.second.call_steps(call),
        }
    }

    fn line_steps(&self, line: u32) -> u32 {
        if self.first.has_line(line) {
            self.first.line_steps(line)
        } else {
            self.second.line_steps(line)
        }
    }

    fn counter(&self, call: &Self::Call) -> Option<Counter> {
        match call {
            Either::Left(call) => self.first.counter(call),
            Either::Right(call) => self.second.counter(call),
        }
    }

    fn polled(&self, call: &Self::Call) -> u64 {
        match call {
            Either::Left(call) => self.first.polled(call),
            Either::Right(call) => self.second.polled(call),
        }
    }

    fn duties(&self, call: &Self::Call) -> u64 {
        match call {
            Either::Left(call) => self.first.duties(call),
            Either::Right(call) => self.second.duties(call),
        }
    }

    fn settles(&self, call: &Self::Call, made: &Move) -> u64 {
        match call {
            Either::Left(call) => self.first.settles(call, made),
            Either::Right(call) => self.second.settles(call, made),
        }
    }

    fn call_may(&self, call: &Self::Call, made: &Move) -> bool {
        match call {
            Either::Left(call) => self.first.call_may(call, made),
            Either::Right(call) => self.second.call_may(call, made),
        }
    }

    fn line_may(&self, line: u32, made: &Move) -> bool {
        if self.first.has_line(line) {
            self.first.line_may(line, made)
        } else {
            self.second.line_may(line, made)
        }
    }

    fn starts_uncalled(&self, outside: &Outside, unit: Unit) -> bool {
        let first = self.first.starts_uncalled(outside, unit);
        let second = self.second.starts_uncalled(outside, unit);
        first || second
    }

    fn fills(&self, channel: u32) -> bool {
        self.first.fills(channel) || self.second.fills(channel)
    }

    fn in_use(&self, channel: u32) -> bool {
        self.first.fills(channel) && self.first.in_use(channel)
            || self.second.fills(channel) && self.second.in_use(channel)
    }

    ghost member_is = { λ t. members (A.setting t.0) (B.setting t.1) _ _ (A.member_is t.0) (B.member_is t.1) };

    ghost windows = { λ t o. joined_windows (A.setting t.0) (B.setting t.1) (A.windows t.0) (B.windows t.1) o };
}

ghost use Rattle.std.specs.Prelude.{◌≡◌};
ghost use Rattle.run_model.specs.Machine.{tells_nothing, answers, tells_error};
ghost use Rattle.audit_base.specs.Tells.{listed, gives};

use crate::answers::nothing;
use mcal_base::{Answer, ErrorName, Notice};
use std::marker::Model;

/// The notices that a deed gives, in their order.
#[derive(Clone, Copy)]
pub enum Notices {
    /// None.
    None,
    /// One.
    One(Notice),
    /// Two.
    Two(Notice, Notice),
}

/// What the act of a call or a serving tells: an answer, at most one error, and at most two notices. Contracts see it as
/// the machines have it.
#[derive(Drop)]
pub struct Told {
    answer: Answer,
    error: Option<ErrorName>,
    notices: Notices,
}

impl Model for Told {
    ghost use Rattle.run_model.specs.Machine.{Told};
    ghost use Rattle.audit_base.specs.Tells.{listed};

    ghost Value = { Told };

    ghost view = { λ t. record { answer = t.answer; error = t.error; notices = listed t.notices } };
}

impl Told {
    /// Nothing is told.
    pub fn nothing() -> Told
        ensures { result ≡ tells_nothing }
    {
        Told {
            answer: nothing(),
            error: None,
            notices: Notices::None,
        }
    }

    /// An answer alone.
    pub fn with_answer(answer: Answer) -> Told
        ensures { result ≡ answers answer }
    {
        Told {
            answer,
            error: None,
            notices: Notices::None,
        }
    }

    /// An error, with the answer of a call that finds it.
    pub fn with_error(answer: Answer, error: ErrorName) -> Told
        ensures { result ≡ tells_error answer error }
    {
        Told {
            answer,
            error: Some(error),
            notices: Notices::None,
        }
    }

    /// Notices alone.
    pub fn with_notices(notices: Notices) -> Told
        ensures { result ≡ gives (listed notices) }
    {
        Told {
            answer: nothing(),
            error: None,
            notices,
        }
    }

    /// The answer.
    pub fn answer(&self) -> &Answer
        ensures { result.now ≡ self.now.answer }
    {
        &self.answer
    }

    /// The error that was found, if there was one.
    pub fn error(&self) -> Option<ErrorName>
        ensures { result ≡ self.now.error }
    {
        self.error
    }

    /// The notices.
    pub fn notices(&self) -> Notices
        ensures { listed result ≡ self.now.notices }
    {
        self.notices
    }

    /// The answer, the error that was found, if there was one, and the notices.
    pub fn apart(self) -> (Answer, Option<ErrorName>, Notices)
        ensures answer { result.0 ≡ self.answer }
        ensures error { result.1 ≡ self.error }
        ensures notices { listed result.2 ≡ self.notices }
    {
        (self.answer, self.error, self.notices)
    }
}

ghost use Rattle.std.specs.Prelude.{◌≡◌, ◌<◌, ◌||◌, ℕ, length};
ghost use Rattle.mcal_base.specs.Bits.{has_bit};
ghost use Rattle.run_model.specs.Frame.{Called, is_shared};
ghost use Rattle.run_model.specs.World.{World};
ghost use Rattle.audit_frames.specs.StandsFor.{kind_at, must_of};
ghost use Rattle.audit_frames.specs.Told.{ArePolled, IsReported, is_of_kind};
ghost use Rattle.audit_subject.specs.Origins.{origin_of};

use crate::origin::Origin;
use crate::subject::Subject;
use audit_base::{Part, Polled};
use mcal_base::{ErrorName, Move};

/// The lines that the call of a frame polls, in their order; none of a handler.
pub(crate) fn polls_of<P: Part>(part: &P, origin: &Origin<P::Call>) -> Polled
    ensures { (w : World) (s : P.State) → P.stands part.now s → ArePolled (P.member (P.table part.now)).machine w s result (origin_of origin.now) }
{
    match origin {
        Origin::Call(call) => part.polls(call),
        Origin::Line(_) => Polled::new(),
    }
}

/// How a call reports the error that its act finds, where it finds one.
fn reported_by<P: Part>(part: &P, call: &P::Call, error: Option<ErrorName>) -> Option<bool>
    ensures { IsReported (P.member (P.table part.now)).machine (Called call.now) error result }
{
    match error {
        Some(error) => part.reported(call, error),
        None => None,
    }
}

/// How the error that the act of a frame's call finds is reported.
pub(crate) fn reported_of<P: Part>(
    part: &P,
    origin: &Origin<P::Call>,
    error: Option<ErrorName>,
) -> Option<bool>
    ensures { IsReported (P.member (P.table part.now)).machine (origin_of origin.now) error result }
{
    match origin {
        Origin::Call(call) => reported_by(part, call, error),
        Origin::Line(_) => None,
    }
}

/// The kinds of write that a frame's call owes and that a move is of.
pub(crate) fn settles_of<S: Subject>(subject: &S, origin: &Origin<S::Call>, made: &Move) -> u64
    ensures { (i : ℕ) → i < length (must_of (S.setting (S.table subject.now)) (origin_of origin.now)) → has_bit result i ≡ is_of_kind (kind_at (must_of (S.setting (S.table subject.now)) (origin_of origin.now)) i) made.now }
{
    match origin {
        Origin::Call(call) => subject.settles(call, made),
        Origin::Line(_) => 0,
    }
}

/// Whether a move belongs to no module, as those of the mask do.
fn is_shared(made: &Move) -> bool
    ensures { result ≡ is_shared made.now }
{
    matches!(
        made,
        Move::Mask | Move::Unmask | Move::Note(_) | Move::Report(_)
    )
}

/// Whether a frame may make a move of its module's own.
fn may<S: Subject>(subject: &S, origin: &Origin<S::Call>, made: &Move) -> bool
    ensures { result ≡ (S.setting (S.table subject.now)).may (origin_of origin.now) made.now }
{
    match origin {
        Origin::Call(call) => subject.call_may(call, made),
        Origin::Line(line) => subject.line_may(*line, made),
    }
}

/// Whether a frame names only what is its module's: it makes a move of its module's own, or one that belongs to no module.
pub fn names_own<S: Subject>(subject: &S, origin: &Origin<S::Call>, made: &Move) -> bool
    ensures { result ≡ (is_shared made.now || (S.setting (S.table subject.now)).may (origin_of origin.now) made.now) }
{
    is_shared(made) || may(subject, origin, made)
}

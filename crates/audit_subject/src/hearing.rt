ghost use Rattle.std.specs.Prelude.{◌≡◌, ◌<◌, ◌+◌, ◌^◌, IfOk, IfSome};
ghost use Rattle.mcal_base.specs.Reach.{CanApply};
ghost use Rattle.run_model.specs.Frame.{Open};
ghost use Rattle.run_model.specs.Moment.{Moment};
ghost use Rattle.run_model.specs.World.{World};
ghost use Rattle.run_model.specs.declared.item.Stepped.{Stepped};
ghost use Rattle.audit_base.specs.Outside.{IsWorld, ArePast, IsAfter};
ghost use Rattle.audit_frames.specs.FrameRules.{committed_at};
ghost use Rattle.audit_frames.specs.StandsFor.{StandsFor};
ghost use Rattle.audit_frames.specs.Told.{step_of};
ghost use Rattle.audit_subject.specs.Hearings.{Hears, heard_in};
ghost use Rattle.audit_subject.specs.Origins.{origin_of};
ghost use Rattle.audit_subject.specs.Tellings.{times_at};

use crate::asking::{polls_of, reported_of, settles_of};
use crate::lines::{calm, unready};
use crate::origin::Origin;
use crate::subject::Subject;
use crate::telling::tell;
use audit_base::{Begun, Outside, Polled, Told};
use audit_frames::{Around, Frame, Step};
use std::alloc::AllocError;

/// What a module says of a step of a frame: what its event tells, the word that begins there, and what frames are judged by.
/// It is long, so it is written to a place that lives from step to step.
#[derive(Drop)]
pub struct Heard {
    /// What the event tells, and without one what an earlier step's told.
    pub told: Told,
    /// The word that begins there, where one does.
    pub begins: Option<Begun>,
    /// The lines that the frame's call polls, in their order.
    pub polls: Polled,
    /// What else its frame is judged by.
    pub around: Around,
}

impl Heard {
    /// Room for what a module says of a step.
    pub fn new() -> Heard {
        Heard {
            told: Told::nothing(),
            begins: None,
            polls: Polled::new(),
            around: Around {
                time: 0,
                unready: 0,
                calm: 0,
                settles: 0,
                reported: None,
            },
        }
    }
}

/// The machine of a module is told a step of a frame, with the incoming word of a word that begins there, and what it says is
/// written down. Answers whether it allows the step's event; where it doesn't, nothing changes.
pub fn hear<S: Subject>(
    subject: &mut S,
    outside: &mut Outside,
    origin: &Origin<S::Call>,
    frame: &Frame,
    step: &Step,
    received: u32,
    heard: &mut Heard,
) -> Result<bool, AllocError>
    requires fits { S.fits subject.old outside.old }
    requires count { outside.old.told + 1 < 2 ^ 32 }
    requires short { outside.old.osc < 2 ^ 63 }
    requires there { CanApply step.now.made }
    requires past { ArePast (times_at (committed_at frame.now step.now.made outside.old.time) outside.old.time) outside.old.time }
    ensures hears { (m : Moment S.State S.Call) (o : Open S.Call) (s : Stepped) → IsWorld outside.old m.world → S.stands subject.old m.state →
        o.origin ≡ origin_of origin.now → StandsFor (S.setting (S.table subject.old)) frame.now o → step.now ≡ step_of s → s.received ≡ received →
        IfOk result (λ allowed. Hears (S.setting (S.table subject.old)) (S.stands subject.new) m o s frame.now.terms.asked (heard_in allowed heard.new)) }
    ensures now { IfOk result (λ allowed. IfSome (heard_in allowed heard.new) (λ it. it.around.time ≡ outside.old.time)) }
    ensures later { IfOk result (λ _. IsAfter outside.old outside.new) }
    ensures world { (w : World) → IsWorld outside.old w → IsWorld outside.new w }
    ensures fits { IfOk result (λ _. S.fits subject.new outside.new) }
    ensures table { S.table subject.new ≡ S.table subject.old }
{
    let asked = frame.terms().asked;
    let unready = unready(subject, outside, asked);
    let polls = polls_of(subject, origin);
    let settles = settles_of(subject, origin, &step.made);
    let time = outside.time;
    let allowed = tell(subject, outside, origin, frame, step, received, heard)?;
    outside.count();
    if !allowed {
        return Ok(false);
    }
    heard.polls = polls;
    heard.around = Around {
        time,
        unready,
        calm: calm(subject, outside, asked),
        settles,
        reported: reported_of(subject, origin, heard.told.error()),
    };
    Ok(true)
}

ghost use Rattle.std.specs.Prelude.{◌<◌};
ghost use Rattle.run_model.specs.Frame.{Called, Entered, opened};
ghost use Rattle.run_model.specs.Moment.{call_tag, line_tag};
ghost use Rattle.audit_frames.specs.StandsFor.{IsBegun};

use crate::subject::Subject;
use audit_frames::{Caller, Task, Terms};
use run_model::Tag;

/// The most moves of a window.
const MOST_MOVES: u32 = 32;

/// What the frame of a call is judged by that begins at this level.
pub fn call_terms<S: Subject>(subject: &S, call: &S::Call, level: u32) -> Terms
    ensures { IsBegun (S.setting (S.table subject.now)) result (opened (Called call.now) (call_tag (S.setting (S.table subject.now)) call.now level)) }
{
    let class = subject.class(call);
    let caller = Caller {
        service: subject.service(call),
        counter: subject.counter(call),
        duties: subject.duties(call),
    };
    Terms {
        task: Task::Call(caller),
        tag: Tag {
            level,
            owner: class.module,
            class: Some(class),
        },
        steps: subject.call_steps(call),
        window: MOST_MOVES,
        asked: subject.polled(call),
    }
}

/// What the frame of a line's handler is judged by. There are 32 lines.
pub fn line_terms<S: Subject>(subject: &S, line: u32) -> Terms
    requires { line < 64 }
    ensures { IsBegun (S.setting (S.table subject.now)) result (opened (Entered line) (line_tag (S.setting (S.table subject.now)) line)) }
{
    Terms {
        task: Task::Line(line),
        tag: Tag {
            level: subject.level(line),
            owner: subject.owner(line),
            class: None,
        },
        steps: subject.line_steps(line),
        window: MOST_MOVES,
        asked: 1 << line,
    }
}

ghost use Rattle.audit_frames.specs.Judged as spec;

/// What a run of frames is over: a machine, with its calls.
pub trait Run {
    /// The state of the machine. Contracts alone name it.
    type State;

    /// A service with its arguments.
    type Call;

    ghost use Rattle.run_model.specs.Moment.{Setting};

    /// What the run is over.
    ghost setting: { Setting Self.State Self.Call };
}

/// A step is judged right exactly where it is one that the frame may make, and what is kept after it stands for the frame
/// after it. With what chip, machine and module decide, that is the whole of a legal step. A frame that is kept can go on
/// within its bounds exactly where the frame can. One that begins stands for its frame, and over those that are kept a call or
/// a handler is held as over the frames.
pub fn steps_are_judged<R: Run>()
    ensures sound { spec.Sound R.setting }
    ensures complete { spec.Complete R.setting }
    ensures whole { spec.Whole R.setting }
    ensures divides { spec.Divides R.setting }
    ensures going { spec.Going R.setting }
    ensures begins { spec.Begins R.setting }
    ensures holds { spec.Holds R.setting }
    ensures steps_on { spec.StepsOn R.setting }
{}

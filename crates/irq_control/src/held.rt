ghost use Rattle.std.specs.Prelude.{◌≡◌};
ghost use Rattle.irq_control.specs.Spelling.{held_text};

/// Why a directive is held.
#[derive(Clone, Copy)]
pub enum Held {
    /// The mask is closed.
    Masked,
    /// The level isn't allowed over the top frame.
    Level,
    /// The service may not begin over the frames that are there.
    Reentry,
    /// The line isn't pending.
    Idle,
    /// As many frames are there as may be.
    Full,
    /// No frame is there.
    Empty,
    /// The array is in use by a pending sequence.
    Busy,
    /// No object of that number is configured.
    Unknown,
    /// Frames are open.
    Frames,
}

impl Held {
    /// The cause as a report prints it.
    pub fn text(self) -> &'static str
        ensures { result.now ≡ held_text self }
    {
        match self {
            Held::Masked => "masked",
            Held::Level => "level",
            Held::Reentry => "reentry",
            Held::Idle => "idle",
            Held::Full => "full",
            Held::Empty => "empty",
            Held::Busy => "busy",
            Held::Unknown => "unknown",
            Held::Frames => "open",
        }
    }
}

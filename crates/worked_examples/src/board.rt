//! What the machines of clock, pins and timers tell and show on small boards.

ghost use Rattle.std.specs.Prelude.{◌≡◌, true, false, [], ◌∷◌};
ghost use Rattle.mcal_base.specs.declared.answer_name.AnswerName.TheVariants.{EOk, ENotOk, McuPllLocked, McuPllUnlocked};
ghost use Rattle.mcal_base.specs.declared.error_name.ErrorName.TheVariants.{McuPllNotLocked, PortDirectionUnchangeable};
ghost use Rattle.mcal_base.specs.declared.notice.NoticeKind.TheVariants.{GptNotification};
ghost use Rattle.worked_examples.specs.Told.{silence, named, numbered, noted, refused, refused_named};
ghost use Rattle.worked_examples.specs.BoardRuns.{small_board, pulse_board, small_run, pulse_run, seen, Tells, Words, Levels};

/// A section of two words shows 0 0, and 7 7 after it was initialised. At a rate of 4 a timer shows 500 after 125
/// ticks. A pin that is configured high shows 1 until it is made an input, which a refresh leaves; one that is an
/// input and may not change stays so and shows the outside level.
pub fn clock_ram_and_pins()
    ensures { seen small_board small_run
        ≡ Tells silence ∷ Words ((0, 0 ∷ 0 ∷ []) ∷ []) ∷ Tells (named EOk) ∷ Words ((0, 7 ∷ 7 ∷ []) ∷ []) ∷ Tells (named EOk) ∷ Tells silence ∷ Tells (named EOk)
        ∷ Tells silence ∷ Tells silence ∷ Tells silence ∷ Tells (numbered (500 ∷ []))
        ∷ Tells silence ∷ Levels ((0, true) ∷ (1, false) ∷ []) ∷ Tells silence ∷ Tells silence ∷ Levels ((0, false) ∷ (1, false) ∷ [])
        ∷ Tells (refused PortDirectionUnchangeable) ∷ Tells silence ∷ Levels ((0, false) ∷ (1, true) ∷ []) ∷ [] }
{}

/// A PLL isn't locked 99 ticks after its start, where its clock isn't distributed, and is at 100. Then a timer counts
/// four for a tick. A pin in the mode of the pulse outputs shows the output of the channel that names it.
pub fn clock_and_pulse_output()
    ensures { seen pulse_board pulse_run
        ≡ Tells silence ∷ Tells (named EOk) ∷ Tells silence ∷ Tells (named McuPllUnlocked) ∷ Tells (refused_named ENotOk McuPllNotLocked) ∷ Tells silence
        ∷ Tells (named McuPllLocked) ∷ Tells (named EOk)
        ∷ Tells silence ∷ Tells silence ∷ Tells silence ∷ Tells silence
        ∷ Tells silence ∷ Levels ((0, false) ∷ []) ∷ Tells (numbered (500 ∷ [])) ∷ Tells silence ∷ Tells (noted GptNotification 0) ∷ Levels ((0, true) ∷ []) ∷ Tells (numbered (1000 ∷ [])) ∷ [] }
{}

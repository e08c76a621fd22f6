ghost use Rattle.std.specs.Prelude.{◌≡◌, ◌∷◌, [], slice_get};
ghost use Rattle.adc_groups.specs.declared.window.Window.TheVariants as windows;
ghost use Rattle.adc_groups.specs.laws.words.WindowWords as spec;

use crate::outside::{Suspended, Taken};
use crate::words::Word;
use adc_machine::ResultBuffer;

/// What a window is for.
#[derive(Clone, Copy)]
pub enum Window {
    /// `Adc_DeInit`
    Close,
    /// `Adc_SetupResultBuffer` of a group.
    Setup(u8, ResultBuffer),
    /// `Adc_GetGroupStatus` of a group.
    Status(u8),
    /// `Adc_GetStreamLastPointer` of a group.
    Point(u8),
    /// `Adc_ReadGroup` of a group.
    Read(u8),
    /// `Adc_StartGroupConversion` of a group.
    Start(u8),
    /// `Adc_EnableHardwareTrigger` of a group.
    Enable(u8),
    /// `Adc_StopGroupConversion` or `Adc_DisableHardwareTrigger`, on this unit, of a group.
    Stop(u8, u8),
    /// To abort what a unit has, where a request of higher priority waits.
    Yield(u8),
    /// The same, of this group, which is outranked and suspends.
    Suspend(u8, u8),
    /// To keep the values of an aborted round, so many in all.
    Keep(Suspended),
    /// To start what waits first on a unit.
    Begin(u8),
    /// The same, where the frame ends its own claim with it.
    Leave(u8),
    /// The same, of this group, which waits first, and whether a claim ends with it.
    Convert(u8, u8, bool),
    /// To take a finished round from a unit.
    Take(u8),
    /// The same, into a bank.
    Claim(Taken),
    /// To serve a round that was taken.
    Serve(Taken),
    /// To serve a pulse of a trigger input, which is for this group.
    Trigger(u8, u8),
}

impl Window {
    /// The words that it looks at, by their place.
    pub fn word(self, at: usize) -> Option<Word>
        ensures { result ≡ spec.word_at self at }
    {
        match self {
            Window::Close | Window::Leave(_) => None,
            Window::Setup(group, _) | Window::Status(group) | Window::Read(group) => first(
                at,
                Word::Phase(group),
            ),
            Window::Point(group) => pointer_word(group, at),
            Window::Start(group) | Window::Enable(group) => {
                either(at, Word::Chosen(group), Word::Phase(group))
            }
            Window::Stop(unit, group) => stop_word(unit, group, at),
            Window::Yield(unit) | Window::Begin(unit) => {
                either(at, Word::Running(unit), Word::Claim(unit))
            }
            Window::Suspend(_, group) | Window::Convert(_, group, _) => {
                first(at, Word::Kept(group))
            }
            Window::Keep(suspended) => first(at, Word::Claim(suspended.unit)),
            Window::Take(unit) => first(at, Word::Running(unit)),
            Window::Claim(taken) => first(at, Word::Kept(taken.group)),
            Window::Serve(taken) => round_word(taken, at),
            Window::Trigger(_, group) => first(at, Word::Turn(group)),
        }
    }
}

/// One word.
fn first(at: usize, word: Word) -> Option<Word>
    ensures { result ≡ slice_get (word ∷ []) at }
{
    if at == 0 { Some(word) } else { None }
}

/// Two words.
fn either(at: usize, first: Word, second: Word) -> Option<Word>
    ensures { result ≡ slice_get (first ∷ second ∷ []) at }
{
    match at {
        0 => Some(first),
        1 => Some(second),
        _ => None,
    }
}

/// The words of the question for the pointer.
fn pointer_word(group: u8, at: usize) -> Option<Word>
    ensures { result ≡ slice_get (spec.words_of (windows.Point group)) at }
{
    match at {
        0 => Some(Word::Phase(group)),
        1 => Some(Word::Count(group)),
        2 => Some(Word::Place(group)),
        _ => None,
    }
}

/// The words of a stop.
fn stop_word(unit: u8, group: u8, at: usize) -> Option<Word>
    ensures { result ≡ slice_get (spec.words_of (windows.Stop unit group)) at }
{
    match at {
        0 => Some(Word::Phase(group)),
        1 => Some(Word::Turn(group)),
        2 => Some(Word::Running(unit)),
        3 => Some(Word::Claim(unit)),
        _ => None,
    }
}

/// The words of a round's serving.
fn round_word(taken: Taken, at: usize) -> Option<Word>
    ensures { result ≡ slice_get (spec.words_of (windows.Serve taken)) at }
{
    match at {
        0 => Some(Word::Running(taken.unit)),
        1 => Some(Word::Phase(taken.group)),
        2 => Some(Word::Count(taken.group)),
        3 => Some(Word::Place(taken.group)),
        4 => Some(Word::Chosen(taken.group)),
        5 => Some(Word::Notified(taken.group)),
        _ => None,
    }
}

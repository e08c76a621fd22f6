ghost use Rattle.std.specs.Prelude.{◌≡◌, ◌==◌, Some, true, bytes_eq, cond};
ghost use Rattle.bench_script.specs.Orders.{choice};
ghost use Rattle.bench_script.specs.Scanned.{begins};
ghost use Rattle.bench_script.specs.Words as spec;

use crate::fault::LineFault;
use mcal_base::{Reason, Shown, Stop};

/// The first words of directives.
#[derive(Clone, Copy)]
pub(crate) enum Keyword {
    /// `call`
    Call,
    /// `do`
    Do,
    /// `enter`
    Enter,
    /// `serve`
    Serve,
    /// `run`
    Run,
    /// `upto`
    Upto,
    /// `finish`
    Finish,
    /// `tick`
    Tick,
    /// `level`
    Level,
    /// `analog`
    Analog,
    /// `trigger`
    Trigger,
    /// `miso`
    Miso,
    /// `spifault`
    SpiFault,
    /// `detach`
    Detach,
    /// `fill`
    Fill,
    /// `reset`
    Reset,
    /// `show`
    Show,
}

/// A keyword where a word is its text, else another. Inlined, and with a text of a constant length, so that the letters
/// are compared at once.
#[inline(always)]
fn keyword_or<const N: usize>(
    word: &[u8],
    text: &[u8; N],
    keyword: Keyword,
    other: Option<Keyword>,
) -> Option<Keyword>
    ensures { result ≡ cond (bytes_eq text.now word.now) (Some keyword) other }
{
    match word.as_array::<N>() {
        Some(letters) if text == letters => Some(keyword),
        _ => other,
    }
}

/// The keyword that a word with such a first letter is.
fn keyword_of(letter: u8, word: &[u8]) -> Option<Keyword>
    ensures { begins (λ b. letter == b) word.now ≡ true → result ≡ spec.named spec.keyword_text spec.all_keywords word.now }
{
    match letter {
        b'a' => keyword_or(word, b"analog", Keyword::Analog, None),
        b'c' => keyword_or(word, b"call", Keyword::Call, None),
        b'd' => {
            let detach = keyword_or(word, b"detach", Keyword::Detach, None);
            keyword_or(word, b"do", Keyword::Do, detach)
        }
        b'e' => keyword_or(word, b"enter", Keyword::Enter, None),
        b'f' => {
            let fill = keyword_or(word, b"fill", Keyword::Fill, None);
            keyword_or(word, b"finish", Keyword::Finish, fill)
        }
        b'l' => keyword_or(word, b"level", Keyword::Level, None),
        b'm' => keyword_or(word, b"miso", Keyword::Miso, None),
        b'r' => {
            let reset = keyword_or(word, b"reset", Keyword::Reset, None);
            keyword_or(word, b"run", Keyword::Run, reset)
        }
        b's' => {
            let show = keyword_or(word, b"show", Keyword::Show, None);
            let fault_or_show = keyword_or(word, b"spifault", Keyword::SpiFault, show);
            keyword_or(word, b"serve", Keyword::Serve, fault_or_show)
        }
        b't' => {
            let trigger = keyword_or(word, b"trigger", Keyword::Trigger, None);
            keyword_or(word, b"tick", Keyword::Tick, trigger)
        }
        b'u' => keyword_or(word, b"upto", Keyword::Upto, None),
        _ => None,
    }
}

/// The keyword that a word must be.
pub(crate) fn keyword_named(word: &[u8]) -> Result<Keyword, LineFault>
    ensures { result ≡ choice spec.keyword_text spec.all_keywords word.now }
{
    match word {
        [] => Err(LineFault::Word),
        [letter, ..] => match keyword_of(*letter, word) {
            Some(keyword) => Ok(keyword),
            None => Err(LineFault::Word),
        },
    }
}

/// Where `upto` may stop.
pub(crate) fn stops() -> &'static [Stop]
    ensures { result.now ≡ spec.all_stops }
{
    &[Stop::Act, Stop::Mask, Stop::Unmask, Stop::Note]
}

/// The word for a place where `upto` may stop.
pub(crate) fn stop_text(stop: Stop) -> &'static str
    ensures { result.now ≡ spec.stop_text stop }
{
    match stop {
        Stop::Act => "act",
        Stop::Mask => "mask",
        Stop::Unmask => "unmask",
        Stop::Note => "note",
    }
}

/// What a script may show.
pub(crate) fn sights() -> &'static [Shown]
    ensures { result.now ≡ spec.all_shown }
{
    &[Shown::Pins, Shown::Wire, Shown::Buffers, Shown::Ram]
}

/// The word for what a script may show.
pub(crate) fn shown_text(shown: Shown) -> &'static str
    ensures { result.now ≡ spec.shown_text shown }
{
    match shown {
        Shown::Pins => "pins",
        Shown::Wire => "wire",
        Shown::Buffers => "buffers",
        Shown::Ram => "ram",
    }
}

/// Why a script may reset the chip.
pub(crate) fn reasons() -> &'static [Reason]
    ensures { result.now ≡ spec.all_reasons }
{
    &[Reason::PowerOn, Reason::Watchdog]
}

/// The word for a reason of a reset. No script names the last.
pub(crate) fn reason_text(reason: Reason) -> &'static str
    ensures { result.now ≡ spec.reason_text reason }
{
    match reason {
        Reason::PowerOn => "power",
        Reason::Watchdog => "watchdog",
        Reason::Software => "software",
    }
}

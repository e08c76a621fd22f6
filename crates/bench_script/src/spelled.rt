ghost use Rattle.std.specs.Prelude.{◌≡◌, ◌≤◌, ◌+◌, List, ℕ, bytes_eq, length, take, drop};
ghost use Rattle.mcal_base.specs.Names.{service_text, argument_text};
ghost use Rattle.bench_script.specs.Words as spec;

use crate::words::{reason_text, shown_text, stop_text};
use mcal_base::{ArgumentName, Reason, Service, Shown, Stop};

/// What a script spells by one word.
pub(crate) trait Spelled: Copy {
    ghost spelling: { Self → List ℕ };

    /// The word.
    fn spelled(self) -> &'static str
        ensures { result.now ≡ spelling self };
}

/// The eight bytes of a word from a place on.
#[inline(always)]
fn eight_at(word: &[u8], place: usize) -> &[u8; 8]
    requires { place + 8 ≤ length word.now }
    ensures { result.now ≡ take 8 (drop place word.now) }
{
    word[place..].first_chunk::<8>().unwrap()
}

/// Whether two words of one length are the same. Long ones are compared by eight bytes, first the last eight,
/// which others overlap.
#[inline(always)]
fn is_same(text: &[u8], word: &[u8]) -> bool
    requires { length text.now ≡ length word.now }
    ensures { result ≡ bytes_eq text.now word.now }
{
    if text.len() < 8 {
        return text == word;
    }
    let last = text.len() - 8;
    if *eight_at(text, last) != *eight_at(word, last) {
        return false;
    }
    let mut place = 0;
    while place + 8 < text.len() {
        if *eight_at(text, place) != *eight_at(word, place) {
            return false;
        }
        place += 8;
    }
    true
}

/// The first of the choices that a word spells.
pub(crate) fn named<T: Spelled>(choices: &[T], word: &[u8]) -> Option<T>
    ensures { result ≡ spec.named T.spelling choices.now word.now }
{
    choices.iter().copied().find(|choice| {
        let text = choice.spelled().as_bytes();
        text.len() == word.len() && is_same(text, word)
    })
}

impl Spelled for Service {
    ghost spelling = { λ s. service_text s };

    fn spelled(self) -> &'static str {
        self.text()
    }
}

impl Spelled for ArgumentName {
    ghost spelling = { λ n. argument_text n };

    fn spelled(self) -> &'static str {
        self.text()
    }
}

impl Spelled for Stop {
    ghost spelling = { λ s. spec.stop_text s };

    fn spelled(self) -> &'static str {
        stop_text(self)
    }
}

impl Spelled for Shown {
    ghost spelling = { λ s. spec.shown_text s };

    fn spelled(self) -> &'static str {
        shown_text(self)
    }
}

impl Spelled for Reason {
    ghost spelling = { λ r. spec.reason_text r };

    fn spelled(self) -> &'static str {
        reason_text(self)
    }
}

ghost use Rattle.std.specs.Prelude.{◌≡◌, ◌≤◌, ◌∷◌, None, MatchOption, length, map, string_bytes};
ghost use Rattle.std.specs.Option.{IfSome};
ghost use Rattle.bench_top.specs.Words.{number_between};
ghost use Rattle.sweep_top.specs.Wishes as spec;

/// What the words ask for.
#[derive(Clone, Copy)]
pub struct Asked {
    /// To stop at the first outcome that is neither as before nor as behind.
    pub first: bool,
    /// To print all ranges of places.
    pub all: bool,
    /// To print for other tools.
    pub json: bool,
    /// Which part of the places is tried, from 1.
    pub part: usize,
    /// Of how many parts.
    pub parts: usize,
    /// The place, from 1, whose flat script is to be printed.
    pub show: Option<usize>,
}

/// The most that a number of the words may be.
const MOST: usize = 1_000_000_000;

/// The number that a word writes in decimal digits, where it lies between these.
pub(crate) fn number_between(least: usize, most: usize, word: &str) -> Option<usize>
    requires { most ≤ 4294967295 }
    ensures is { result ≡ number_between least most word.now }
    ensures within { IfSome result (λ number. number ≤ most) }
{
    if word.starts_with('+') {
        return None;
    }
    match word.parse::<usize>() {
        Ok(number) if least <= number && number <= most => Some(number),
        _ => None,
    }
}

/// The number that a word writes, from 1.
fn number(word: &str) -> Option<usize>
    ensures { result ≡ spec.number word.now }
{
    number_between(1, MOST, word)
}

/// Whether a word asks for something with the word behind it.
fn takes_word(word: &str) -> bool
    ensures { result ≡ spec.takes_word word.now }
{
    word == "--part" || word == "--show"
}

impl Asked {
    /// What no words ask for: all places are tried.
    fn nothing() -> Asked
        ensures { result ≡ spec.asked_nothing }
    {
        Asked {
            first: false,
            all: false,
            json: false,
            part: 1,
            parts: 1,
            show: None,
        }
    }

    /// With a part of so many of the places.
    fn with_numbers(self, part: &str, parts: &str) -> Option<Asked>
        ensures { result ≡ spec.part_by self (spec.number part.now) (spec.number parts.now) }
    {
        let part = number(part)?;
        let parts = number(parts)?;
        if part <= parts {
            Some(Asked {
                part,
                parts,
                ..self
            })
        } else {
            None
        }
    }

    /// With a part of the places, as `I/N`.
    fn with_part(self, word: &str) -> Option<Asked>
        ensures { result ≡ spec.with_part self word.now }
    {
        let (part, parts) = word.split_once('/')?;
        self.with_numbers(part, parts)
    }

    /// With the place whose flat script is to be printed.
    fn with_place(self, word: &str) -> Option<Asked>
        ensures { result ≡ spec.with_place self (spec.number word.now) }
    {
        match number(word) {
            Some(place) => Some(Asked {
                show: Some(place),
                ..self
            }),
            None => None,
        }
    }

    /// With what a word asks for that stands alone.
    fn with_flag(self, word: &str) -> Option<Asked>
        ensures { result ≡ spec.with_flag self word.now }
    {
        match word {
            "--first" => Some(Asked {
                first: true,
                ..self
            }),
            "--all" => Some(Asked { all: true, ..self }),
            "--json" => Some(Asked { json: true, ..self }),
            _ => None,
        }
    }

    /// With what a word asks for with the one behind it.
    fn with_both(self, word: &str, next: &str) -> Option<Asked>
        ensures { result ≡ spec.with_both self word.now next.now }
    {
        match word {
            "--part" => self.with_part(next),
            "--show" => self.with_place(next),
            _ => None,
        }
    }

    /// With what the first word asks for, or the first two, and the words behind.
    #[tactic(auto, using(crate::proofs::Wishing::flag_none, crate::proofs::Wishing::flag_some, crate::proofs::Wishing::both_none, crate::proofs::Wishing::both_lone))]
    fn with_first<'a>(self, word: &str, behind: &'a [String]) -> Option<(Asked, &'a [String])>
        ensures { MatchOption result (spec.asked_behind self (word.now ∷ map string_bytes behind.now) ≡ None) (λ r. (spec.asked_behind self (word.now ∷ map string_bytes behind.now) ≡ spec.asked_behind r.0 (map string_bytes r.1.now)) × (length r.1.now ≤ length behind.now)) }
    {
        if !takes_word(word) {
            let asked = self.with_flag(word)?;
            return Some((asked, behind));
        }
        let [next, further @ ..] = behind else {
            return None;
        };
        let asked = self.with_both(word, next.as_str())?;
        Some((asked, further))
    }

    /// With the place whose flat script is printed nothing else is asked for: of so many words.
    fn alone(self, words: usize) -> Option<Asked>
        ensures { result ≡ spec.shown_alone words self }
    {
        if self.show.is_none() || words == 2 {
            Some(self)
        } else {
            None
        }
    }
}

/// What the words ask for, whatever else is asked for with the place whose flat script is printed.
fn asked_behind(words: &[String]) -> Option<Asked>
    ensures { result ≡ spec.asked_behind spec.asked_nothing (map string_bytes words.now) }
{
    let mut asked = Asked::nothing();
    let mut rest = words;
    while let [word, behind @ ..] = rest {
        let Some((more, further)) = asked.with_first(word.as_str(), behind) else {
            return None;
        };
        asked = more;
        rest = further;
    }
    Some(asked)
}

/// What the words ask for, where they are of a form. With the place whose flat script is printed nothing else is asked for.
pub fn asked_by(words: &[String]) -> Option<Asked>
    ensures { result ≡ spec.asked_by (map string_bytes words.now) }
{
    let asked = asked_behind(words)?;
    asked.alone(words.len())
}

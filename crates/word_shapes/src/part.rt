ghost use Rattle.std.specs.Prelude.{◌≡◌, [], ◌∷◌};
ghost use Rattle.word_shapes.specs.Playing as spec;

use mcal_base::{Answer, Head, Taken, Words};

/// A step that goes on.
pub fn goes() -> Taken
    ensures { result ≡ spec.goes }
{
    Taken {
        event: None,
        ended: None,
    }
}

/// The last step of a routine that gives nothing.
pub fn gives_nothing() -> Taken
    ensures { result ≡ spec.gives [] }
{
    Taken {
        event: None,
        ended: Some(Answer {
            head: Head::Numbers,
            words: Words::new(),
        }),
    }
}

/// The last step of a routine that gives a number.
pub fn gives(value: u32) -> Taken
    ensures { result ≡ spec.gives (value ∷ []) }
{
    let mut words = Words::new();
    words.push(value);
    Taken {
        event: None,
        ended: Some(Answer {
            head: Head::Numbers,
            words,
        }),
    }
}

ghost use Rattle.std.specs.Prelude.{◌≡◌, [], ◌∷◌};
ghost use Rattle.run_model.specs.Machine.{no_answer};
ghost use Rattle.run_model.specs.Machine as spec;

use mcal_base::{Answer, AnswerName, Head, Words};

/// The answer of a service that answers nothing.
pub fn nothing() -> Answer
    ensures { result ≡ no_answer }
{
    Answer {
        head: Head::Nothing,
        words: Words::new(),
    }
}

/// The answer that is a name.
pub fn named(name: AnswerName) -> Answer
    ensures { result ≡ spec.named name }
{
    Answer {
        head: Head::Name(name),
        words: Words::new(),
    }
}

/// The answer that is a number.
pub fn number(value: u32) -> Answer
    ensures { result ≡ spec.number value }
{
    let mut words = Words::new();
    words.push(value);
    Answer {
        head: Head::Numbers,
        words,
    }
}

/// The answer that is two numbers.
pub fn numbers(first: u32, second: u32) -> Answer
    ensures { result ≡ spec.numbers (first ∷ second ∷ []) }
{
    let mut words = Words::new();
    words.push(first);
    words.push(second);
    Answer {
        head: Head::Numbers,
        words,
    }
}

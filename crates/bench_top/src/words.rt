ghost use Rattle.std.specs.Prelude.{◌≡◌, ◌≤◌, map, string_bytes};
ghost use Rattle.bench_top.specs.Words as spec;
ghost use Rattle.bench_top.specs.Tail.{is_traced};

/// What the words ask for.
#[derive(Clone, Copy)]
pub enum Form {
    /// To do something with a bench file.
    File(Task),
    /// To generate a bench from a seed, with so many directives, and to run it.
    Gen(u32, u32),
    /// To judge the report behind a bench file.
    Audit,
}

/// What is to be done with a bench file.
#[derive(Clone, Copy)]
pub enum Task {
    /// To say that it is one.
    Check,
    /// To run it, and to print the report in this way.
    Run(Printing),
}

/// How a report is printed.
#[derive(Clone, Copy)]
pub enum Printing {
    /// As it is.
    Plain,
    /// With a line of its own for each step.
    Traced,
    /// So many of its last lines.
    Tail(usize),
}

impl Printing {
    /// Whether each step has a line of its own.
    pub fn is_traced(self) -> bool
        ensures { result ≡ is_traced self }
    {
        matches!(self, Printing::Traced)
    }
}

/// The most lines that a tail may have.
const MOST_LINES: usize = 10_000;

/// The most directives of a generated bench.
const MOST_GENERATED: usize = 20_000;

/// The fewest directives of a generated bench.
const FEWEST_GENERATED: usize = 8;

/// The greatest seed.
const MOST_SEED: usize = 4_294_967_295;

/// The form of one word.
fn one_word(word: &str) -> Option<Form>
    ensures { result ≡ spec.one_word word.now }
{
    match word {
        "check" => Some(Form::File(Task::Check)),
        "run" => Some(Form::File(Task::Run(Printing::Plain))),
        "audit" => Some(Form::Audit),
        _ => None,
    }
}

/// The form of two words.
fn two_words(word: &str, option: &str) -> Option<Form>
    ensures { result ≡ spec.two_words word.now option.now }
{
    if word == "run" && option == "--trace" {
        Some(Form::File(Task::Run(Printing::Traced)))
    } else {
        None
    }
}

/// The number that a word writes, where it lies between these.
fn number_between(least: usize, most: usize, word: &str) -> Option<usize>
    requires { most ≤ 4294967295 }
    ensures { result ≡ spec.number_between least most word.now }
{
    if word.starts_with('+') {
        return None;
    }
    match word.parse::<usize>() {
        Ok(number) if least <= number && number <= most => Some(number),
        _ => None,
    }
}

/// A tail of so many lines.
fn tail_of(lines: &str) -> Option<Form>
    ensures { result ≡ spec.tail_of lines.now }
{
    let lines = number_between(1, MOST_LINES, lines)?;
    Some(Form::File(Task::Run(Printing::Tail(lines))))
}

/// A bench generated from this seed, with so many directives.
fn generated_of(seed: &str, count: &str) -> Option<Form>
    ensures { result ≡ spec.generated_of (spec.number_between 0 4294967295 seed.now) (spec.number_between 8 20000 count.now) }
{
    let seed = number_between(0, MOST_SEED, seed)?;
    let count = number_between(FEWEST_GENERATED, MOST_GENERATED, count)?;
    Some(Form::Gen(seed as u32, count as u32))
}

/// The form of three words.
fn three_words(word: &str, first: &str, second: &str) -> Option<Form>
    ensures { result ≡ spec.three_words word.now first.now second.now }
{
    if word == "run" {
        if first == "--tail" {
            tail_of(second)
        } else {
            None
        }
    } else if word == "gen" {
        generated_of(first, second)
    } else {
        None
    }
}

/// The form of the words, where they are of one.
pub fn form_of(words: &[String]) -> Option<Form>
    ensures { result ≡ spec.form_of (map string_bytes words.now) }
{
    match words {
        [word] => one_word(word.as_str()),
        [word, option] => two_words(word.as_str(), option.as_str()),
        [word, first, second] => three_words(word.as_str(), first.as_str(), second.as_str()),
        _ => None,
    }
}

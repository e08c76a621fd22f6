ghost use Rattle.std.specs.Prelude.{◌≡◌, ◌||◌, IfOk, bytes_eq, codes, map, option_map, Option, List, ℕ};
ghost use Rattle.trace_reader.specs.Guess as spec;
ghost use Rattle.trace_reader.specs.Numbers as numbers;
ghost use Rattle.trace_reader.specs.Read.{line_of};

use crate::guess::{is, plain};
use crate::line::Read;
use crate::names::answer_named;
use crate::numbers::{number, place_of};
use bench_report::{RowName, Value};
use bench_script::service_named;
use mcal_base::{Head, Service};
use std::alloc::{AllocError, Global};

/// The numbers that words are.
fn numbers(alloc: Global, words: &[&[u8]]) -> Result<Option<Vec<u32>>, AllocError>
    ensures { IfOk result (λ r. option_map (λ v. v.items) r ≡ spec.each numbers.number (map (λ w. w.now) words.now)) }
{
    let mut read = Vec::new(alloc);
    for word in words {
        match number(word) {
            Some(number) => read.push(number)?,
            None => return Ok(None),
        }
    }
    Ok(Some(read))
}

/// Two values.
fn pair(sent: &[u8], received: &[u8]) -> Option<Value>
    ensures { result ≡ spec.pair sent.now received.now }
{
    let sent = number(sent)?;
    let received = number(received)?;
    Some(Value::Pair(sent, received))
}

/// A value, or two with a stroke between them.
#[tactic(auto, using(crate::proofs::Cuts::pair_there, crate::proofs::Cuts::one_there))]
fn value(word: &[u8]) -> Option<Value>
    ensures { result ≡ spec.value word.now }
{
    match place_of(b'/', word) {
        None => number(word).map(Value::One),
        Some(place) => pair(&word[..place], &word[place + 1..]),
    }
}

/// The values that words are.
fn values(alloc: Global, words: &[&[u8]]) -> Result<Option<Vec<Value>>, AllocError>
    ensures { IfOk result (λ r. option_map (λ v. v.items) r ≡ spec.each spec.value (map (λ w. w.now) words.now)) }
{
    let mut read = Vec::new(alloc);
    for word in words {
        match value(word) {
            Some(value) => read.push(value)?,
            None => return Ok(None),
        }
    }
    Ok(Some(read))
}

/// A call that returned, with the numbers of its answer.
fn answered(
    alloc: Global,
    service: Service,
    head: Head,
    words: &[&[u8]],
) -> Result<Option<Read>, AllocError>
    ensures { IfOk result (λ r. option_map line_of r ≡ spec.answered service head (map (λ w. w.now) words.now)) }
{
    match numbers(alloc, words)? {
        Some(numbers) => Ok(Some(Read::Returns(service, head, numbers))),
        None => Ok(None),
    }
}

/// An answer that begins with a number: 0 and null, or numbers alone.
fn numbered(alloc: Global, service: Service, words: &[&[u8]]) -> Result<Option<Read>, AllocError>
    ensures { IfOk result (λ r. option_map line_of r ≡ spec.numbered service (map (λ w. w.now) words.now)) }
{
    match words {
        [_, null, behind @ ..] if is(null, "null") => {
            answered(alloc, service, Head::ZeroNull, behind)
        }
        _ => answered(alloc, service, Head::Numbers, words),
    }
}

/// Whether a word begins with a digit.
fn is_numeral(word: &[u8]) -> bool
    ensures { result ≡ spec.is_numeral word.now }
{
    match word {
        [byte, ..] => byte.is_ascii_digit(),
        [] => false,
    }
}

/// An answer: none, one that begins with a number, or a name and numbers.
fn answer(alloc: Global, service: Service, words: &[&[u8]]) -> Result<Option<Read>, AllocError>
    ensures { IfOk result (λ r. option_map line_of r ≡ spec.answer service (map (λ w. w.now) words.now)) }
{
    match words {
        [] => answered(alloc, service, Head::Nothing, words),
        [word, ..] if is_numeral(word) => numbered(alloc, service, words),
        [word, behind @ ..] => match answer_named(word) {
            Some(name) => answered(alloc, service, Head::Name(name), behind),
            None => Ok(None),
        },
    }
}

/// A call that returned.
fn returned(alloc: Global, words: &[&[u8]]) -> Result<Option<Read>, AllocError>
    ensures { IfOk result (λ r. option_map line_of r ≡ spec.returned (map (λ w. w.now) words.now)) }
{
    match words {
        [word, behind @ ..] => match service_named(word) {
            Some(service) => answer(alloc, service, behind),
            None => Ok(None),
        },
        [] => Ok(None),
    }
}

/// A word without its last byte.
fn before_colon(word: &[u8]) -> &[u8]
    ensures { result.now ≡ spec.before_colon word.now }
{
    match word {
        [front @ .., _] => front,
        [] => word,
    }
}

/// The words of a serial channel.
fn channel_words(channel: u32, word: &[u8]) -> Option<RowName>
    ensures { result ≡ spec.channel_words channel word.now }
{
    if is(word, "src:") {
        Some(RowName::Source(channel))
    } else if is(word, "dst:") {
        Some(RowName::Destination(channel))
    } else if is(word, "tx:") {
        Some(RowName::Transmit(channel))
    } else if is(word, "rx:") {
        Some(RowName::Receive(channel))
    } else {
        None
    }
}

/// An object by its kind and its number.
fn short_name(word: &[u8], number_word: &[u8]) -> Option<RowName>
    ensures { result ≡ spec.short_name word.now number_word.now }
{
    let digits = before_colon(number_word);
    if is(word, "pin") {
        Some(RowName::Pin(number(digits)?))
    } else if is(word, "ram") {
        Some(RowName::Ram(number(digits)?))
    } else if is(word, "wire") {
        Some(RowName::Wire(number(digits)?))
    } else if is(word, "icu") {
        Some(RowName::Stamps(number(digits)?))
    } else {
        None
    }
}

/// An object by its kind and two words.
fn long_name(word: &[u8], first: &[u8], second: &[u8]) -> Option<RowName>
    ensures { result ≡ spec.long_name word.now first.now second.now }
{
    if is(word, "adc") {
        let group = number(first)?;
        let buffer = number(before_colon(second))?;
        Some(RowName::Results(group, buffer))
    } else if is(word, "spi") {
        let channel = number(first)?;
        channel_words(channel, second)
    } else {
        None
    }
}

/// A row of an object.
fn shown(alloc: Global, name: Option<RowName>, words: &[&[u8]]) -> Result<Option<Read>, AllocError>
    ensures { IfOk result (λ r. option_map line_of r ≡ spec.shown name (map (λ w. w.now) words.now)) }
{
    let Some(name) = name else {
        return Ok(None);
    };
    match values(alloc, words)? {
        Some(values) => Ok(Some(Read::Shows(name, values))),
        None => Ok(None),
    }
}

/// A row of an object that two words name.
fn long_row(alloc: Global, word: &[u8], words: &[&[u8]]) -> Result<Option<Read>, AllocError>
    ensures { IfOk result (λ r. option_map line_of r ≡ spec.long_row word.now (map (λ w. w.now) words.now)) }
{
    match words {
        [first, second, behind @ ..] => shown(alloc, long_name(word, first, second), behind),
        [] => Ok(None),
        [_] => Ok(None),
    }
}

/// Whether two words name an object of this kind.
fn is_long(word: &[u8]) -> bool
    ensures { result ≡ spec.is_long word.now }
{
    is(word, "adc") || is(word, "spi")
}

/// A row.
fn row(alloc: Global, word: &[u8], words: &[&[u8]]) -> Result<Option<Read>, AllocError>
    ensures { IfOk result (λ r. option_map line_of r ≡ spec.row word.now (map (λ w. w.now) words.now)) }
{
    if is_long(word) {
        return long_row(alloc, word, words);
    }
    match words {
        [first, behind @ ..] => shown(alloc, short_name(word, first), behind),
        [] => Ok(None),
    }
}

/// Whether a line of a list of values begins with this word.
fn is_row(word: &[u8]) -> bool
    ensures { result ≡ spec.is_row word.now }
{
    is(word, "pin") || is(word, "ram") || is(word, "wire") || is(word, "icu") || is_long(word)
}

/// A line by its first word.
fn by_word(alloc: Global, word: &[u8], words: &[&[u8]]) -> Result<Option<Read>, AllocError>
    ensures { IfOk result (λ r. option_map line_of r ≡ spec.by_word word.now (map (λ w. w.now) words.now)) }
{
    if is(word, "return") {
        returned(alloc, words)
    } else if is_row(word) {
        row(alloc, word, words)
    } else {
        Ok(plain(word, words).map(Read::Plain))
    }
}

/// The line that words may be: the only one that can be printed so, if one can.
pub(crate) fn guess(alloc: Global, words: &[&[u8]]) -> Result<Option<Read>, AllocError>
    ensures { IfOk result (λ r. option_map line_of r ≡ spec.guess (map (λ w. w.now) words.now)) }
{
    match words {
        [word, behind @ ..] => by_word(alloc, word, behind),
        [] => Ok(None),
    }
}

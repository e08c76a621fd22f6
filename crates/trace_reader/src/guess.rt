ghost use Rattle.std.specs.Prelude.{◌≡◌, false, true, map, bytes_eq, option_map};
ghost use Rattle.trace_reader.specs.Guess as spec;
ghost use Rattle.bench_report.specs.Lines.{line_of};

use crate::names::{cause_named, error_named, notice_named, reason_named};
use crate::numbers::{before_digit, before_letter, number};
use crate::registers::register_of;
use bench_report::Line;
use bench_script::service_named;
use mcal_base::{DevError, Event, Move, Notice, Reg, Unit};

/// Whether a word is this text.
pub(crate) fn is(word: &[u8], text: &str) -> bool
    ensures { result ≡ bytes_eq word.now text.now }
{
    word == text.as_bytes()
}

/// The register that a word may be: letters, a number, letters and a number.
fn register(word: &[u8]) -> Option<Reg>
    ensures { result ≡ spec.register word.now }
{
    let (letter, behind_letter) = before_digit(word);
    let (first, behind_first) = before_letter(behind_letter);
    let (name, second) = before_digit(behind_first);
    let first = number(first)?;
    let second = number(second)?;
    register_of(letter, first, name, second)
}

/// The number behind the letter of a driver word.
fn word_number(word: &[u8]) -> Option<u32>
    ensures { result ≡ spec.word_number word.now }
{
    match word {
        [b'w', digits @ ..] => number(digits),
        _ => None,
    }
}

/// A notice by its kind and its number.
fn notice(kind: &[u8], id: &[u8]) -> Option<Notice>
    ensures { result ≡ spec.notice kind.now id.now }
{
    let kind = notice_named(kind)?;
    let id = number(id)?;
    Some(Notice { kind, id })
}

/// A reported error by its service and its name.
fn found(runtime: bool, service: &[u8], error: &[u8]) -> Option<DevError>
    ensures { result ≡ spec.found runtime service.now error.now }
{
    let service = service_named(service)?;
    let error = error_named(error)?;
    Some(DevError {
        service,
        error,
        runtime,
    })
}

/// An access to a register or a driver word, by its word and the two behind it, and the value that it gave.
fn access(word: &[u8], first: &[u8], second: &[u8]) -> Option<(Move, u32)>
    ensures { result ≡ spec.access word.now first.now second.now }
{
    if is(word, "read") {
        let reg = register(first)?;
        Some((Move::Read(reg), number(second)?))
    } else if is(word, "write") {
        let reg = register(first)?;
        Some((Move::Write(reg, number(second)?), 0))
    } else if is(word, "load") {
        let place = word_number(first)?;
        Some((Move::Load(place), number(second)?))
    } else if is(word, "store") {
        let place = word_number(first)?;
        Some((Move::Store(place, number(second)?), 0))
    } else {
        None
    }
}

/// A move by its word and the two behind it, and the value that it gave.
fn long_move(word: &[u8], first: &[u8], second: &[u8]) -> Option<(Move, u32)>
    ensures { result ≡ spec.long_move word.now first.now second.now }
{
    if is(word, "note") {
        Some((Move::Note(notice(first, second)?), 0))
    } else if is(word, "report") {
        Some((Move::Report(found(false, first, second)?), 0))
    } else if is(word, "runtime") {
        Some((Move::Report(found(true, first, second)?), 0))
    } else {
        access(word, first, second)
    }
}

/// The word that came in at the end of a step; 0 where none did.
fn ending(words: &[&[u8]]) -> Option<u32>
    ensures { result ≡ spec.ending (map (λ w. w.now) words.now) }
{
    match words {
        [] => Some(0),
        [word, count] if is(word, "got") => number(count),
        _ => None,
    }
}

/// An event, and the word that came in behind it.
fn followed(event: Option<Event>, words: &[&[u8]]) -> Option<(Option<Event>, u32)>
    ensures { result ≡ spec.followed event (map (λ w. w.now) words.now) }
{
    match ending(words) {
        Some(received) => Some((event, received)),
        None => None,
    }
}

/// The same of a line that is served.
fn serving(words: &[&[u8]]) -> Option<(Option<Event>, u32)>
    ensures { result ≡ spec.serving (map (λ w. w.now) words.now) }
{
    match words {
        [line, words @ ..] => {
            let line = number(line)?;
            followed(Some(Event::Serve(line)), words)
        }
        [] => None,
    }
}

/// The event of a step, if it has one, and the word that came in.
fn marked(words: &[&[u8]]) -> Option<(Option<Event>, u32)>
    ensures { result ≡ spec.marked (map (λ w. w.now) words.now) }
{
    match words {
        [] => followed(None, words),
        [word, behind @ ..] => {
            if is(word, "act") {
                followed(Some(Event::Act), behind)
            } else if is(word, "serve") {
                serving(behind)
            } else if is(word, "abort") {
                followed(Some(Event::Abort(Unit::Adc0)), behind)
            } else if is(word, "start") {
                followed(Some(Event::Start(Unit::Adc0)), behind)
            } else {
                followed(None, words)
            }
        }
    }
}

/// A step by its move, the value that it gave, and the words behind those.
fn made_step(depth: u32, made: Move, value: u32, words: &[&[u8]]) -> Option<Line<'static>>
    ensures { option_map line_of result ≡ spec.made_step depth made value (map (λ w. w.now) words.now) }
{
    match marked(words) {
        Some((event, received)) => Some(Line::Makes(depth, made, value, received, event)),
        None => None,
    }
}

/// A step whose move has two words behind its own.
fn long_step(depth: u32, word: &[u8], words: &[&[u8]]) -> Option<Line<'static>>
    ensures { option_map line_of result ≡ spec.long_step depth word.now (map (λ w. w.now) words.now) }
{
    match words {
        [first, second, words @ ..] => match long_move(word, first, second) {
            Some((made, value)) => made_step(depth, made, value, words),
            None => None,
        },
        [] => None,
        [_] => None,
    }
}

/// A step by the first word of its move.
fn moved(depth: u32, word: &[u8], words: &[&[u8]]) -> Option<Line<'static>>
    ensures { option_map line_of result ≡ spec.moved depth word.now (map (λ w. w.now) words.now) }
{
    if is(word, "mask") {
        made_step(depth, Move::Mask, 0, words)
    } else if is(word, "unmask") {
        made_step(depth, Move::Unmask, 0, words)
    } else {
        long_step(depth, word, words)
    }
}

/// A step.
fn step(depth: &[u8], word: &[u8], words: &[&[u8]]) -> Option<Line<'static>>
    ensures { option_map line_of result ≡ spec.step depth.now word.now (map (λ w. w.now) words.now) }
{
    match number(depth) {
        Some(depth) => moved(depth, word, words),
        None => None,
    }
}

/// A line of a word alone.
fn alone(word: &[u8]) -> Option<Line<'static>>
    ensures { option_map line_of result ≡ spec.alone word.now }
{
    if is(word, "ok") {
        Some(Line::Done)
    } else {
        None
    }
}

/// A line with one word behind its first.
fn with_one(word: &[u8], first: &[u8]) -> Option<Line<'static>>
    ensures { option_map line_of result ≡ spec.with_one word.now first.now }
{
    if is(word, "left") {
        Some(Line::Leaves(number(first)?))
    } else if is(word, "stall") {
        Some(Line::Waits(number(first)?))
    } else if is(word, "held") {
        Some(Line::Holds(cause_named(first)?))
    } else {
        None
    }
}

/// A reset.
fn restart(reason: &[u8], dropped: &[u8]) -> Option<Line<'static>>
    ensures { option_map line_of result ≡ spec.restart reason.now dropped.now }
{
    let reason = reason_named(reason)?;
    let dropped = number(dropped)?;
    Some(Line::Restarts(reason, dropped))
}

/// A line with two words behind its first.
fn with_two(word: &[u8], first: &[u8], second: &[u8]) -> Option<Line<'static>>
    ensures { option_map line_of result ≡ spec.with_two word.now first.now second.now }
{
    if is(word, "note") {
        Some(Line::Notes(notice(first, second)?))
    } else if is(word, "error") {
        Some(Line::Errs(found(false, first, second)?))
    } else if is(word, "runtime") {
        Some(Line::Errs(found(true, first, second)?))
    } else if is(word, "reset") {
        restart(first, second)
    } else {
        None
    }
}

/// The same where no words are behind those.
fn with_just_two(word: &[u8], first: &[u8], second: &[u8], words: &[&[u8]]) -> Option<Line<'static>>
    ensures { option_map line_of result ≡ spec.with_just_two word.now first.now second.now (map (λ w. w.now) words.now) }
{
    match words {
        [] => with_two(word, first, second),
        [_, ..] => None,
    }
}

/// A line with two words or more behind its first: a step may have more.
#[tactic(auto, unfolding(crate::specs::Guess::with_more))]
fn with_more(word: &[u8], first: &[u8], second: &[u8], words: &[&[u8]]) -> Option<Line<'static>>
    ensures { option_map line_of result ≡ spec.with_more word.now first.now second.now (map (λ w. w.now) words.now) }
{
    if is(word, "step") {
        step(first, second, words)
    } else {
        with_just_two(word, first, second, words)
    }
}

/// A line that takes no memory, by its first word.
pub(crate) fn plain(word: &[u8], words: &[&[u8]]) -> Option<Line<'static>>
    ensures { option_map line_of result ≡ spec.plain word.now (map (λ w. w.now) words.now) }
{
    match words {
        [] => alone(word),
        [first] => with_one(word, first),
        [first, second, behind @ ..] => with_more(word, first, second, behind),
    }
}

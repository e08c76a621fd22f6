use crate::found::Found;
use crate::numbers::{is_written_as_number, number_of};
use crate::split::{Word, before_comment, plain_len, words_of};
use bench_script::ScriptFault;
use desk_findings::places::{Lines, Span};
use desk_findings::{allowed, nearest};
use desk_tables::{DirectiveRow, Operand, ServiceRow, directives, services};
use std::alloc::{AllocError, Global};

/// The most numbers that stand in a row.
const MOST_IN_ROW: usize = 64;

/// Explains why a line of a script is refused. Where no word is found to be amiss, the whole line is.
pub(crate) fn explain(
    found: &mut Found,
    lines: &Lines<'_>,
    number: usize,
    fault: ScriptFault,
) -> Result<(), AllocError> {
    let before = found.errors.len();
    let line = lines.line(number);
    let start = lines.start_of(number);
    match fault {
        ScriptFault::NotText(_) => not_text(found, line, start)?,
        _ => {
            let words = words_of(found.alloc, line, start)?;
            directive(found, &words)?;
        }
    }
    if found.errors.len() == before {
        let kind = fault.kind_text();
        let what = format_args!("this line is refused: {kind}");
        return found.error(lines.span_of(number), what, "");
    }
    Ok(())
}

/// How many bytes the character at the front has, as far as its bytes behind the first are marked as such.
fn character_len(bytes: &[u8]) -> usize {
    let mut len = 1usize;
    for byte in bytes.get(1..).unwrap_or(&[]) {
        if *byte & 0xC0 != 0x80 {
            return len;
        }
        len = len.saturating_add(1);
    }
    len
}

/// Names the first byte that is no text.
fn not_text(found: &mut Found, line: &[u8], start: usize) -> Result<(), AllocError> {
    let text = before_comment(line);
    let before = plain_len(text);
    let rest = text.get(before..).unwrap_or(&[]);
    let len = character_len(rest);
    let first = start.saturating_add(before);
    let end = first.saturating_add(len);
    let character = String::from_utf8_lossy(found.alloc, rest.get(..len).unwrap_or(&[]))?;
    found.error(
        Span { start: first, end },
        format_args!("`{character}` can't stand here"),
        "outside comments, tabs and printable ASCII alone",
    )
}

/// The row of a directive.
fn row_of(word: &str) -> Option<DirectiveRow> {
    for row in directives() {
        if row.0 == word {
            return Some(*row);
        }
    }
    None
}

/// The row of a service.
pub(crate) fn service_of(word: &str) -> Option<ServiceRow> {
    for row in services() {
        if row.0.text() == word {
            return Some(*row);
        }
    }
    None
}

/// Looks at the words of a line.
fn directive(found: &mut Found, words: &[Word<'_>]) -> Result<(), AllocError> {
    let [word, rest @ ..] = words else {
        return Ok(());
    };
    match row_of(word.text) {
        None => unknown_directive(found, *word),
        Some(DirectiveRow(_, [Operand::Number(..), Operand::Service])) => request(
            found, *word, rest,
        ),
        Some(DirectiveRow(name, places)) => {
            if counted(found, name, places, *word, rest)? {
                all_places(found, places, rest)?;
            }
            Ok(())
        }
    }
}

/// Says that a word is no directive.
fn unknown_directive(found: &mut Found, word: Word<'_>) -> Result<(), AllocError> {
    let text = word.text;
    let mut choices = Vec::new(found.alloc);
    for DirectiveRow(choice, _) in directives() {
        choices.push(*choice)?;
    }
    let help = allowed(found.alloc, text, &choices)?;
    found.error(word.span, format_args!("`{text}` is no directive"), help)
}

/// Says that a word is no service.
fn unknown_service(found: &mut Found, word: Word<'_>) -> Result<(), AllocError> {
    let text = word.text;
    let mut choices = Vec::new(found.alloc);
    for ServiceRow(service, _) in services() {
        choices.push(service.text())?;
    }
    let what = format_args!("`{text}` is no service");
    match nearest(found.alloc, text, &choices)? {
        Some(choice) => found.error(word.span, what, format_args!("did you mean `{choice}`?")),
        None => found.error(
            word.span,
            what,
            "they have the standard's names, as `Gpt_Init`",
        ),
    }
}

/// Looks at a level, a service and its arguments.
fn request(found: &mut Found, directive: Word<'_>, words: &[Word<'_>]) -> Result<(), AllocError> {
    let name = directive.text;
    match words {
        [first, ..] if service_of(first.text).is_some() => {
            let service = first.text;
            found.error(
                first.span,
                "a level, 0 to 7, stands before the service",
                format_args!("write `{name} 0 {service} ..`"),
            )
        }
        [level, word, arguments @ ..] => match service_of(word.text) {
            None => unknown_service(found, *word),
            Some(row) => call_of(found, row, *level, *word, arguments),
        },
        _ => found.error(
            directive.span,
            format_args!("`{name}` wants a level and a service"),
            format_args!("{name} <level> <service> .."),
        ),
    }
}

/// Looks at the level and the arguments of a call of a service.
fn call_of(
    found: &mut Found,
    row: ServiceRow,
    level: Word<'_>,
    word: Word<'_>,
    arguments: &[Word<'_>],
) -> Result<(), AllocError> {
    let ServiceRow(service, places) = row;
    if counted(found, service.text(), places, word, arguments)? {
        number_at(found, "the level", 7, level)?;
        all_places(found, places, arguments)?;
    }
    Ok(())
}

/// What stands for the words of a place, and behind it whether more may follow.
fn label_of(place: Operand) -> (&'static str, &'static str) {
    match place {
        Operand::Number(label, _) | Operand::Name(label, _) => (label, ""),
        Operand::Several(label, _) => (label, " .."),
        Operand::Buffer => ("buffer", ""),
        Operand::Service => ("service", " .."),
    }
}

/// How a line is written, from its first word on.
fn form_of(alloc: Global, name: &str, places: &[Operand]) -> Result<String, AllocError> {
    let mut text = String::from_str(alloc, name)?;
    for place in places {
        let (label, rest) = label_of(*place);
        write!(text, " <{label}>{rest}")?;
    }
    Ok(text)
}

/// Whether there are as many words as places; says so where not.
fn counted(
    found: &mut Found,
    name: &str,
    places: &[Operand],
    at: Word<'_>,
    words: &[Word<'_>],
) -> Result<bool, AllocError> {
    let (least, most) = match places {
        [front @ .., Operand::Several(..)] => (
            places.len(),
            front.len().saturating_add(MOST_IN_ROW),
        ),
        _ => (places.len(), places.len()),
    };
    if least <= words.len() && words.len() <= most {
        return Ok(true);
    }
    match words.get(most) {
        Some(word) => one_too_many(found, name, places, *word)?,
        None => {
            let help = form_of(found.alloc, name, places)?;
            let what = format_args!("too few words stand behind `{name}`");
            found.error(at.span, what, help)?;
        }
    }
    Ok(false)
}

/// Says that a word is one too many.
fn one_too_many(
    found: &mut Found,
    name: &str,
    places: &[Operand],
    word: Word<'_>,
) -> Result<(), AllocError> {
    let text = word.text;
    let what = format_args!("`{text}` is one word too many for `{name}`");
    if text.starts_with("//") {
        return found.error(word.span, what, "comments begin with `#`");
    }
    let help = form_of(found.alloc, name, places)?;
    found.error(word.span, what, help)
}

/// Looks at the words that stand in some places.
fn all_places(found: &mut Found, places: &[Operand], words: &[Word<'_>]) -> Result<(), AllocError> {
    for (number, word) in words.iter().enumerate() {
        let Some(place) = places.get(number).or(places.last()) else {
            return Ok(());
        };
        word_at(found, *place, *word)?;
    }
    Ok(())
}

/// Looks at the word that stands in a place.
fn word_at(found: &mut Found, place: Operand, word: Word<'_>) -> Result<(), AllocError> {
    match place {
        Operand::Number(label, most) | Operand::Several(label, most) => {
            number_at(found, label, most, word)
        }
        Operand::Name(label, names) => name_at(found, label, names, word),
        Operand::Buffer => buffer_at(found, word),
        Operand::Service => Ok(()),
    }
}

/// Looks at a number.
fn number_at(found: &mut Found, label: &str, most: u32, word: Word<'_>) -> Result<(), AllocError> {
    let text = word.text;
    match number_of(found.alloc, text)? {
        Some(number) if number <= most => Ok(()),
        None if !is_written_as_number(text) => found.error(
            word.span,
            format_args!("`{text}` is no number"),
            format_args!("{label} is 0 to {most}: decimal digits, or `0x` and hexadecimal ones"),
        ),
        _ => found.error(
            word.span,
            format_args!("{text} is too large"),
            format_args!("{label} is 0 to {most}"),
        ),
    }
}

/// Looks at a name.
fn name_at(
    found: &mut Found,
    label: &str,
    names: &[&str],
    word: Word<'_>,
) -> Result<(), AllocError> {
    let text = word.text;
    if names.contains(&text) {
        return Ok(());
    }
    let help = allowed(found.alloc, text, names)?;
    found.error(word.span, format_args!("`{text}` is no {label}"), help)
}

/// Looks at a result buffer.
fn buffer_at(found: &mut Found, word: Word<'_>) -> Result<(), AllocError> {
    let text = word.text;
    if text == "null" || matches!(number_of(found.alloc, text)?, Some(0 | 1)) {
        return Ok(());
    }
    found.error(
        word.span,
        format_args!("`{text}` is no buffer"),
        "allowed: 0, 1, null",
    )
}

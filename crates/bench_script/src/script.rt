ghost use Rattle.std.specs.Prelude.{◌≡◌, ◌≤◌, ◌<◌, ◌^◌, [], ◌∷◌, IfOk, length, map, vec_len};
ghost use Rattle.bench_script.specs.Orders.{keyword_of, order_by_keyword, order_of, some_order};
ghost use Rattle.bench_script.specs.Script as spec;
ghost use Rattle.bench_script.specs.Steps.{put};

use crate::fault::{LineFault, ScriptFault};
use crate::lines::line_words;
use crate::orders::{read_order, unread};
use crate::words::{Keyword, keyword_named};
use mcal_base::{Directive, Order};
use std::alloc::{AllocError, Global};

/// The most directives of a script.
const MOST_DIRECTIVES: usize = 50_000;

/// The fewest bytes of a directive with its line feed, those of `run 1`.
const FEWEST_BYTES: usize = 6;

/// The fault of a line for whose directive there is no room.
#[inline(never)]
fn one_too_many(
    alloc: Global,
    number: u32,
    keyword: Keyword,
    words: &[&[u8]],
) -> Result<ScriptFault, AllocError>
    ensures { IfOk result (λ fault. fault ≡ spec.too_many number (order_by_keyword keyword (map (λ w. w.now) words.now))) }
{
    let mut order = unread(alloc, keyword)?;
    match read_order(words, &mut order) {
        Ok(()) => Ok(ScriptFault::Long(number)),
        Err(fault) => Ok(fault.at(number)),
    }
}

/// Reads what the words after a keyword ask for into an order of that keyword.
fn read_numbered(number: u32, words: &[&[u8]], order: &mut Order) -> Result<(), ScriptFault>
    ensures { put result order.new ≡
        spec.numbered number (order_by_keyword (keyword_of order.old) (map (λ w. w.now) words.now)) }
{
    match read_order(words, order) {
        Ok(()) => Ok(()),
        Err(fault) => Err(fault.at(number)),
    }
}

/// Keeps a directive of a keyword, and then reads what its words ask for where it is kept.
fn keep_order(
    alloc: Global,
    directives: &mut Vec<Directive>,
    number: u32,
    keyword: Keyword,
    words: &[&[u8]],
) -> Result<(), ScriptFault>
    requires { vec_len directives.old ≤ 50000 }
    ensures keeps { spec.KeepsLine result directives.old.items directives.new.items number
        (some_order (order_by_keyword keyword (map (λ w. w.now) words.now))) }
    ensures few { vec_len directives.new ≤ 50000 }
{
    let place = directives.len();
    if place == MOST_DIRECTIVES {
        return Err(one_too_many(alloc, number, keyword, words)?);
    }
    directives.reserve(1)?;
    let order = unread(alloc, keyword)?;
    directives.push_reserved(Directive {
        line: number,
        order,
    });
    read_numbered(number, words, &mut directives[place].order)
}

/// Keeps the directive that a word and those after it are.
fn keep_directive(
    alloc: Global,
    directives: &mut Vec<Directive>,
    number: u32,
    word: &[u8],
    words: &[&[u8]],
) -> Result<(), ScriptFault>
    requires { vec_len directives.old ≤ 50000 }
    ensures keeps { spec.KeepsLine result directives.old.items directives.new.items number
        (order_of (word.now ∷ map (λ w. w.now) words.now)) }
    ensures few { vec_len directives.new ≤ 50000 }
{
    match keyword_named(word) {
        Ok(keyword) => keep_order(alloc, directives, number, keyword, words),
        Err(fault) => Err(fault.at(number)),
    }
}

/// Keeps the directive that the words of a line are, if there are any.
fn keep_words(
    alloc: Global,
    directives: &mut Vec<Directive>,
    number: u32,
    words: &[&[u8]],
) -> Result<(), ScriptFault>
    requires { vec_len directives.old ≤ 50000 }
    ensures keeps { spec.KeepsLine result directives.old.items directives.new.items number
        (order_of (map (λ w. w.now) words.now)) }
    ensures few { vec_len directives.new ≤ 50000 }
{
    match words {
        [] => Ok(()),
        [word, words @ ..] => keep_directive(alloc, directives, number, word, words),
    }
}

/// No directives, and room for as many as a text of so many bytes may have, so that their vector doesn't grow.
fn room_for(alloc: Global, bytes: usize) -> Result<Vec<Directive>, AllocError>
    ensures { IfOk result (λ directives. directives.items ≡ []) }
{
    Vec::with_capacity(alloc, (bytes / FEWEST_BYTES + 1).min(MOST_DIRECTIVES))
}

/// The directives of a script. Its first line that is refused is named, with the first reason for it. The words of each
/// line are kept in one place.
#[inline(never)]
pub fn read_script(alloc: Global, text: &[u8]) -> Result<Vec<Directive>, ScriptFault>
    requires { length text.now < 2 ^ 32 }
    ensures { spec.GivesScript (λ directives. directives.items) result text.now }
{
    let mut directives = room_for(alloc, text.len())?;
    let mut words = Vec::new(alloc);
    let mut rest = text;
    let mut number = 0;
    while !rest.is_empty() {
        number += 1;
        match line_words(&mut words, rest)? {
            Some(after) => {
                keep_words(alloc, &mut directives, number, words.as_slice())?;
                rest = after;
            }
            None => return Err(LineFault::NotText.at(number)),
        }
    }
    Ok(directives)
}

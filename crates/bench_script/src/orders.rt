ghost use Rattle.std.specs.Prelude.{◌≡◌, ◌≤◌, [], IfOk, length, map};
ghost use Rattle.mcal_base.specs.Names.{service_text};
ghost use Rattle.mcal_base.specs.declared.service.Service.{Service};
ghost use Rattle.bench_script.specs.Orders as spec;
ghost use Rattle.bench_script.specs.Steps.{put};
ghost use Rattle.bench_script.specs.Words.{all_services};
ghost use Rattle.bench_script.specs.declared.words.Keyword.{Keyword};

use crate::arguments::arguments;
use crate::fault::LineFault;
use crate::numbers::number_up_to;
use crate::services::service_named;
use crate::spelled::{Spelled, named};
use crate::tables::arguments_of;
use crate::words::{Keyword, reasons, sights, stops};
use mcal_base::{BoxedWords, Order, Reason, Request, Service, Short, Shown, Stop, Words};
use std::alloc::{AllocError, Global};

/// What a word must be one of.
fn choice<T: Spelled>(choices: &[T], word: &[u8]) -> Result<T, LineFault>
    ensures { result ≡ spec.choice T.spelling choices.now word.now }
{
    match named(choices, word) {
        Some(choice) => Ok(choice),
        None => Err(LineFault::Word),
    }
}

/// The one number after a keyword.
fn one(most: u32, words: &[&[u8]]) -> Result<u32, LineFault>
    ensures { result ≡ spec.one most (map (λ w. w.now) words.now) }
{
    match words {
        [word] => number_up_to(most, word),
        _ => Err(LineFault::Count),
    }
}

/// The one word after a keyword, out of some choices.
fn one_of<T: Spelled>(choices: &[T], words: &[&[u8]]) -> Result<T, LineFault>
    ensures { result ≡ spec.one_of T.spelling choices.now (map (λ w. w.now) words.now) }
{
    match words {
        [word] => choice(choices, word),
        _ => Err(LineFault::Count),
    }
}

/// Two numbers.
fn pair(most: u32, most_next: u32, word: &[u8], next: &[u8]) -> Result<(u32, u32), LineFault>
    ensures { result ≡ spec.pair most most_next word.now next.now }
{
    let first = number_up_to(most, word)?;
    let second = number_up_to(most_next, next)?;
    Ok((first, second))
}

/// The two numbers after a keyword.
fn two(most: u32, most_next: u32, words: &[&[u8]]) -> Result<(u32, u32), LineFault>
    ensures { result ≡ spec.two most most_next (map (λ w. w.now) words.now) }
{
    match words {
        [word, next] => pair(most, most_next, word, next),
        _ => Err(LineFault::Count),
    }
}

/// The numbers that words are, put into a place where there are none.
fn numbers(most: u32, words: &[&[u8]], numbers: &mut Words) -> Result<(), LineFault>
    requires few { length words.now ≤ 64 }
    requires none { numbers.old ≡ [] }
    ensures { put result numbers.new ≡ spec.numbers most (map (λ w. w.now) words.now) }
{
    for word in words {
        numbers.push(number_up_to(most, word)?);
    }
    Ok(())
}

/// A number, and the numbers that follow it, written to a place. Not inlined, so that the room for the numbers is
/// filled here alone.
#[inline(never)]
fn row(
    most: u32,
    most_next: u32,
    word: &[u8],
    words: &[&[u8]],
    first: &mut u32,
    others: &mut BoxedWords,
) -> Result<(), LineFault>
    requires { length words.now ≤ 64 }
    ensures { put result (first.new, others.new) ≡ spec.row most most_next word.now (map (λ w. w.now) words.now) }
{
    *first = number_up_to(most, word)?;
    let mut read = Words::new();
    numbers(most_next, words, &mut read)?;
    others.set(read);
    Ok(())
}

/// The number after a keyword, and the 1 to 64 numbers that follow it, written to a place.
fn several(
    most: u32,
    most_next: u32,
    words: &[&[u8]],
    first: &mut u32,
    others: &mut BoxedWords,
) -> Result<(), LineFault>
    ensures { put result (first.new, others.new) ≡ spec.several most most_next (map (λ w. w.now) words.now) }
{
    match words {
        [word, words @ ..] if !words.is_empty() && words.len() <= 64 => {
            row(most, most_next, word, words, first, others)
        }
        _ => Err(LineFault::Count),
    }
}

/// A level, and a service with its arguments, written to a place.
fn request_to(
    service: Service,
    word: &[u8],
    words: &[&[u8]],
    level: &mut u32,
    request: &mut Request,
) -> Result<(), LineFault>
    ensures { put result (level.new, request.new) ≡ spec.request_to service word.now (map (λ w. w.now) words.now) }
{
    let kinds = arguments_of(service);
    if words.len() != kinds.len() {
        return Err(LineFault::Count);
    }
    *level = number_up_to(7, word)?;
    request.service = service;
    request.arguments = Short::new();
    arguments(kinds, words, &mut request.arguments)
}

/// The service that a word must name.
fn service(name: &[u8]) -> Result<Service, LineFault>
    ensures { result ≡ spec.choice service_text all_services name.now }
{
    match service_named(name) {
        Some(service) => Ok(service),
        None => Err(LineFault::Word),
    }
}

/// A level, and a service by its name with its arguments, written to a place.
fn request_by_name(
    word: &[u8],
    name: &[u8],
    words: &[&[u8]],
    level: &mut u32,
    request: &mut Request,
) -> Result<(), LineFault>
    ensures { put result (level.new, request.new) ≡
        spec.request_by_name word.now name.now (map (λ w. w.now) words.now) }
{
    let service = service(name)?;
    request_to(service, word, words, level, request)
}

/// The level and the request after a keyword, written to a place.
fn request(words: &[&[u8]], level: &mut u32, request: &mut Request) -> Result<(), LineFault>
    ensures { put result (level.new, request.new) ≡ spec.request (map (λ w. w.now) words.now) }
{
    match words {
        [word, name, words @ ..] => request_by_name(word, name, words, level, request),
        _ => Err(LineFault::Count),
    }
}

/// Nothing after a keyword.
fn nothing(words: &[&[u8]]) -> Result<(), LineFault>
    ensures { result ≡ spec.nothing (map (λ w. w.now) words.now) }
{
    match words {
        [] => Ok(()),
        _ => Err(LineFault::Count),
    }
}

/// A request of which nothing is read yet: the first service, without an argument.
fn no_request() -> Request
    ensures { result ≡ record { service = Service.McuInit; arguments = [] } }
{
    Request {
        service: Service::McuInit,
        arguments: Short::new(),
    }
}

/// An order of a keyword, of which nothing is read yet.
pub(crate) fn unread(alloc: Global, keyword: Keyword) -> Result<Order, AllocError>
    ensures { IfOk result (λ order. spec.keyword_of order ≡ keyword) }
{
    let order = match keyword {
        Keyword::Call => Order::Call(0, no_request()),
        Keyword::Do => Order::Do(0, no_request()),
        Keyword::Enter => Order::Enter(0),
        Keyword::Serve => Order::Serve(0),
        Keyword::Run => Order::Run(0),
        Keyword::Upto => Order::Upto(Stop::Act),
        Keyword::Finish => Order::Finish,
        Keyword::Tick => Order::Tick(0),
        Keyword::Level => Order::Level(0, false),
        Keyword::Analog => Order::Analog(0, 0),
        Keyword::Trigger => Order::Trigger(0),
        Keyword::Miso => Order::Miso(0, BoxedWords::new(alloc, Words::new())?),
        Keyword::SpiFault => Order::SpiFault(0),
        Keyword::Detach => Order::Detach,
        Keyword::Fill => Order::Fill(0, BoxedWords::new(alloc, Words::new())?),
        Keyword::Reset => Order::Reset(Reason::PowerOn),
        Keyword::Show => Order::Show(Shown::Pins),
    };
    Ok(order)
}

/// Reads what the words after a keyword ask for into an order of that keyword, where it stands. Inlined, so that a line
/// makes no frame for it.
#[inline(always)]
pub(crate) fn read_order(words: &[&[u8]], order: &mut Order) -> Result<(), LineFault>
    ensures { put result order.new ≡ spec.order_by_keyword (spec.keyword_of order.old) (map (λ w. w.now) words.now) }
{
    match order {
        Order::Call(level, asked) => request(words, level, asked)?,
        Order::Do(level, asked) => request(words, level, asked)?,
        Order::Enter(line) => *line = one(31, words)?,
        Order::Serve(line) => *line = one(31, words)?,
        Order::Run(steps) => *steps = one(u32::MAX, words)?,
        Order::Upto(stop) => *stop = one_of(stops(), words)?,
        Order::Finish => nothing(words)?,
        Order::Tick(ticks) => *ticks = one(1_000_000, words)?,
        Order::Level(pin, level) => {
            let (number, value) = two(63, 1, words)?;
            *pin = number;
            *level = value == 1;
        }
        Order::Analog(input, value) => {
            let (number, level) = two(31, 4095, words)?;
            *input = number;
            *value = level;
        }
        Order::Trigger(input) => *input = one(3, words)?,
        Order::Miso(unit, words_in) => several(1, 65_535, words, unit, words_in)?,
        Order::SpiFault(unit) => *unit = one(1, words)?,
        Order::Detach => nothing(words)?,
        Order::Fill(channel, values) => several(u32::MAX, u32::MAX, words, channel, values)?,
        Order::Reset(reason) => *reason = one_of(reasons(), words)?,
        Order::Show(shown) => *shown = one_of(sights(), words)?,
    }
    Ok(())
}

ghost use Rattle.std.specs.Prelude.{◌≡◌, ◌++◌, IfOk, OnOk};

use mcal_base::{Argument, BoxedWords, Directive, Order, Request, Short, Words};
use std::alloc::{AllocError, Global};

/// The same arguments.
fn copied_arguments(arguments: &Short<Argument, 4>) -> Short<Argument, 4>
    ensures { result ≡ arguments.now }
{
    let mut copy = Short::new();
    let all = arguments.as_slice();
    for argument in all {
        copy.push(*argument);
    }
    copy
}

/// The same request.
pub(crate) fn copied_request(request: &Request) -> Request
    ensures { result ≡ request.now }
{
    Request {
        service: request.service,
        arguments: copied_arguments(&request.arguments),
    }
}

/// The same words.
fn copied_words(alloc: Global, words: &BoxedWords) -> Result<BoxedWords, AllocError>
    ensures { IfOk result (λ copy. copy ≡ words.now) }
{
    let mut copy = Words::new();
    let all = words.as_slice();
    for word in all {
        copy.push(*word);
    }
    BoxedWords::new(alloc, copy)
}

/// The same order.
pub fn copied(alloc: Global, order: &Order) -> Result<Order, AllocError>
    ensures { IfOk result (λ copy. copy ≡ order.now) }
{
    let copy = match order {
        Order::Call(level, request) => Order::Call(*level, copied_request(request)),
        Order::Do(level, request) => Order::Do(*level, copied_request(request)),
        Order::Enter(line) => Order::Enter(*line),
        Order::Serve(line) => Order::Serve(*line),
        Order::Run(steps) => Order::Run(*steps),
        Order::Upto(stop) => Order::Upto(*stop),
        Order::Finish => Order::Finish,
        Order::Tick(ticks) => Order::Tick(*ticks),
        Order::Level(pin, level) => Order::Level(*pin, *level),
        Order::Analog(input, value) => Order::Analog(*input, *value),
        Order::Trigger(input) => Order::Trigger(*input),
        Order::Miso(unit, words) => Order::Miso(*unit, copied_words(alloc, words)?),
        Order::SpiFault(unit) => Order::SpiFault(*unit),
        Order::Detach => Order::Detach,
        Order::Fill(channel, words) => Order::Fill(*channel, copied_words(alloc, words)?),
        Order::Reset(reason) => Order::Reset(*reason),
        Order::Show(shown) => Order::Show(*shown),
    };
    Ok(copy)
}

/// Puts copies of directives behind others.
pub fn copy_behind(all: &mut Vec<Directive>, directives: &[Directive]) -> Result<(), AllocError>
    ensures { OnOk result (all.new.items ≡ all.old.items ++ directives.now) }
{
    let alloc = *all.allocator();
    for directive in directives {
        all.push(Directive {
            line: directive.line,
            order: copied(alloc, &directive.order)?,
        })?;
    }
    Ok(())
}

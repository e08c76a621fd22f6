use crate::explained::{explain, service_of};
use crate::found::Found;
use crate::objects::{Object, Objects, object_of};
use crate::split::{before_comment, words_of};
use bench_script::{ScriptFault, read_script};
use desk_findings::places::{Lines, Span};
use desk_tables::{Operand, ServiceRow};
use mcal_base::{Argument, Directive, Order, Request};
use std::alloc::{AllocError, Global};

/// The most directives of a script.
const MOST_DIRECTIVES: usize = 50_000;

/// Looks through the lines of a file from one on: each that the reader of scripts refuses is explained.
pub(crate) fn script_pass<C: Objects>(
    found: &mut Found,
    lines: &Lines<'_>,
    first: usize,
    config: Option<&C>,
) -> Result<(), AllocError> {
    let mut directives = 0usize;
    for number in first..lines.count().saturating_add(1) {
        let read = look_at_line(found, lines, number, config)?;
        directives = directives.saturating_add(read);
        if directives > MOST_DIRECTIVES {
            return too_many(found, lines, number);
        }
    }
    Ok(())
}

/// Looks at a line, and tells how many directives it has, one that is refused among them.
fn look_at_line<C: Objects>(
    found: &mut Found,
    lines: &Lines<'_>,
    number: usize,
    config: Option<&C>,
) -> Result<usize, AllocError> {
    let line = lines.line(number);
    if line.len() > 1_000_000 {
        return Ok(0);
    }
    match read_script(found.alloc, line) {
        Ok(read) => {
            for directive in &read {
                look_at(found, lines, number, directive, config)?;
            }
            Ok(read.len())
        }
        Err(ScriptFault::NoMemory) => Err(AllocError),
        Err(fault) => {
            explain(found, lines, number, fault)?;
            Ok(1)
        }
    }
}

/// Says that there are too many directives.
fn too_many(found: &mut Found, lines: &Lines<'_>, number: usize) -> Result<(), AllocError> {
    found.error(
        lines.span_of(number),
        "this is one directive too many",
        "a script has at most 50000",
    )
}

/// Whether the comment of a line says that what it does is meant.
fn is_meant(line: &[u8]) -> bool {
    let comment = line.get(before_comment(line).len()..).unwrap_or(&[]);
    for word in comment.split(|byte| !byte.is_ascii_alphabetic()) {
        if word == b"meant".as_slice() {
            return true;
        }
    }
    false
}

/// Looks at a directive that is right, for what may not be meant.
fn look_at<C: Objects>(
    found: &mut Found,
    lines: &Lines<'_>,
    number: usize,
    directive: &Directive,
    config: Option<&C>,
) -> Result<(), AllocError> {
    if is_meant(lines.line(number)) {
        return Ok(());
    }
    match (&directive.order, config) {
        (Order::Call(_, request) | Order::Do(_, request), Some(config)) => {
            look_at_request(found, lines, number, request, config)
        }
        _ => Ok(()),
    }
}

/// Looks at the numbers of a request for objects that aren't configured.
fn look_at_request<C: Objects>(
    found: &mut Found,
    lines: &Lines<'_>,
    number: usize,
    request: &Request,
    config: &C,
) -> Result<(), AllocError> {
    let Some(ServiceRow(service, places)) = service_of(request.service.text()) else {
        return Ok(());
    };
    for (place, argument) in places.iter().zip(request.arguments.as_slice()) {
        let (Operand::Number(label, _), Argument::Number(id)) = (place, argument) else {
            continue;
        };
        if let Some(object) = object_of(service, label) {
            if !config.has(object, *id) {
                not_configured(found, lines, number, object, *id)?;
            }
        }
    }
    Ok(())
}

/// Where the first argument of a call in a line stands.
fn first_argument(alloc: Global, lines: &Lines<'_>, number: usize) -> Result<Span, AllocError> {
    let words = words_of(alloc, lines.line(number), lines.start_of(number))?;
    match words.get(3) {
        Some(word) => Ok(word.span),
        None => Ok(lines.span_of(number)),
    }
}

/// Says that an object isn't configured.
fn not_configured(
    found: &mut Found,
    lines: &Lines<'_>,
    number: usize,
    object: Object,
    id: u32,
) -> Result<(), AllocError> {
    let span = first_argument(found.alloc, lines, number)?;
    let text = object.text();
    let error = object.error();
    found.warning(
        span,
        format_args!("{text} {id} isn't configured"),
        format_args!("the call answers {error}, where errors are detected"),
    )
}

ghost use Rattle.std.specs.Prelude.{◌≡◌, ◌++◌, IfOk, OnOk, codes, flat_map, string_bytes};
ghost use Rattle.sweep_report.specs.Page.{counted, listed};
ghost use Rattle.sweep_report.specs.Place.{call_asked};
ghost use Rattle.sweep_report.specs.Table as spec;

use bench_sweep::{line_text, reaction_on};
use mcal_base::Directive;
use std::alloc::{AllocError, Global};
use std::str;

/// Bytes that are a text, and else nothing.
#[tactic(auto, using(crate::proofs::Texts::is_text, crate::proofs::Texts::is_none))]
pub fn text_of(bytes: &[u8]) -> &str
    ensures { result.now ≡ spec.as_text bytes.now }
{
    match str::from_utf8(bytes) {
        Ok(text) => text,
        Err(_) => "",
    }
}

/// What a line of a script asks for.
pub(crate) fn asked_on(script: &[u8], line: u32) -> &str
    ensures { result.now ≡ spec.asked_on script.now line }
{
    text_of(line_text(script, line))
}

/// The order of a line: what follows a notice, where the line says what follows one.
pub(crate) fn order_text(script: &[u8], line: u32) -> &str
    ensures { result.now ≡ call_asked script.now line }
{
    let asked = line_text(script, line);
    match reaction_on(asked, line) {
        Some(reaction) => text_of(reaction.order),
        None => text_of(asked),
    }
}

/// Puts what directives ask for behind that of others.
fn put_others(text: &mut String, script: &[u8], directives: &[Directive]) -> Result<(), AllocError>
    ensures { OnOk result (string_bytes text.new ≡ string_bytes text.old ++ flat_map (λ e. codes "; " ++ spec.asked_on script.now e.line) directives.now) }
{
    for directive in directives {
        let asked = asked_on(script, directive.line);
        write!(text, "; {asked}")?;
    }
    Ok(())
}

/// What some directives ask for, one behind another.
pub(crate) fn listed(
    alloc: Global,
    script: &[u8],
    directives: &[Directive],
) -> Result<String, AllocError>
    ensures { IfOk result (λ text. string_bytes text ≡ listed script.now directives.now) }
{
    let [first, others @ ..] = directives else {
        return Ok(String::new(alloc));
    };
    let mut text = String::from_str(alloc, asked_on(script, first.line))?;
    put_others(&mut text, script, others)?;
    Ok(text)
}

/// A number of things.
#[tactic(auto, unfolding(crate::specs::Page::counted))]
pub(crate) fn counted(alloc: Global, number: usize, thing: &str) -> Result<String, AllocError>
    ensures { IfOk result (λ text. string_bytes text ≡ counted number thing.now) }
{
    if number == 1 {
        format!(in alloc; "1 {thing}")
    } else {
        format!(in alloc; "{number} {thing}s")
    }
}

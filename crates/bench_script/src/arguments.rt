ghost use Rattle.std.specs.Prelude.{◌≡◌, ◌≤◌, [], length, map};
ghost use Rattle.bench_script.specs.Arguments as spec;
ghost use Rattle.bench_script.specs.Steps.{put};

use crate::fault::LineFault;
use crate::numbers::{number_up_to, numeral};
use crate::spelled::named;
use crate::tables::{Kind, NameSet, names_of};
use mcal_base::{Argument, ArgumentName, Short};

/// An argument that is a number.
fn number(most: u32, word: &[u8]) -> Result<Argument, LineFault>
    ensures { result ≡ spec.number most word.now }
{
    Ok(Argument::Number(number_up_to(most, word)?))
}

/// An argument that is a name of a set.
fn name(set: NameSet, word: &[u8]) -> Result<Argument, LineFault>
    ensures { result ≡ spec.name set word.now }
{
    match named(names_of(set), word) {
        Some(name) => Ok(Argument::Name(name)),
        None => Err(LineFault::Word),
    }
}

/// An argument that is a result buffer.
fn buffer(word: &[u8]) -> Result<Argument, LineFault>
    ensures { result ≡ spec.buffer word.now }
{
    match numeral(word) {
        Some(n) if n <= 1 => Ok(Argument::Number(n as u32)),
        Some(_) => Err(LineFault::Number),
        None if word == b"null".as_slice() => Ok(Argument::Name(ArgumentName::Null)),
        None => Err(LineFault::Word),
    }
}

/// The argument that a word is.
fn argument(kind: Kind, word: &[u8]) -> Result<Argument, LineFault>
    ensures { result ≡ spec.argument kind word.now }
{
    match kind {
        Kind::Number(most) => number(most, word),
        Kind::Name(set) => name(set, word),
        Kind::Buffer => buffer(word),
    }
}

/// The arguments that words are, one for each kind, put into a place where there are none.
pub(crate) fn arguments(
    kinds: &[Kind],
    words: &[&[u8]],
    arguments: &mut Short<Argument, 4>,
) -> Result<(), LineFault>
    requires same { length words.now ≡ length kinds.now }
    requires few { length kinds.now ≤ 4 }
    requires none { arguments.old ≡ [] }
    ensures { put result arguments.new ≡ spec.arguments kinds.now (map (λ w. w.now) words.now) }
{
    for (place, word) in words.iter().enumerate() {
        arguments.push(argument(kinds[place], word)?);
    }
    Ok(())
}

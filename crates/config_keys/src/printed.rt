ghost use Rattle.std.specs.Prelude.{◌≡◌, Some};
ghost use Rattle.config_keys.specs.Printed as spec;

use crate::fault::{ConfigFault, Path};
use crate::key_name::KeyName;
use std::fmt;

/// A key in a path, after its point, if it is there.
#[derive(Drop)]
struct KeyPart(Option<KeyName>);

impl fmt::Display for KeyPart {
    ghost output = { λ p. Some (spec.key_part p.0) };

    fn fmt<W: fmt::Write>(&self, f: &mut fmt::Formatter<W>) -> fmt::Result {
        match self.0 {
            None => Ok(()),
            Some(key) => {
                let key = key.text();
                write!(f, ".{key}")
            }
        }
    }
}

/// A number in a path, after its point, if it is there.
#[derive(Drop)]
struct NumberPart(Option<u32>);

impl fmt::Display for NumberPart {
    ghost output = { λ p. Some (spec.number_part p.0) };

    fn fmt<W: fmt::Write>(&self, f: &mut fmt::Formatter<W>) -> fmt::Result {
        match self.0 {
            None => Ok(()),
            Some(number) => write!(f, ".{number}"),
        }
    }
}

/// The parts that are there, joined by points, as `Gpt.GptChannelConfiguration.0.GptChannelMode`.
impl fmt::Display for Path {
    ghost output = { λ p. Some (spec.path_text p) };

    fn fmt<W: fmt::Write>(&self, f: &mut fmt::Formatter<W>) -> fmt::Result {
        let module = self.module.text();
        let key = KeyPart(self.key);
        let element = NumberPart(self.element);
        let inner = KeyPart(self.inner);
        let item = NumberPart(self.item);
        write!(f, "{module}{key}{element}{inner}{item}")
    }
}

/// What a printed fault is put together from.
#[derive(Clone, Copy)]
enum Parts {
    /// The number alone.
    Alone(&'static str),
    /// The number and the path.
    Placed(u32, Path),
    /// The number, the path, and the id or the rule.
    PlacedWith(u32, Path, u32),
}

/// The parts of a fault.
fn parts_of(fault: ConfigFault) -> Parts
    ensures { spec.parts_text result ≡ spec.fault_text fault }
{
    match fault {
        ConfigFault::NotToml => Parts::Alone("1"),
        ConfigFault::Missing(at) => Parts::Placed(2, at),
        ConfigFault::WrongKind(at) => Parts::Placed(3, at),
        ConfigFault::OutOfRange(at) => Parts::Placed(4, at),
        ConfigFault::Repeated(at, id) => Parts::PlacedWith(5, at, id),
        ConfigFault::Unknown(at, id) => Parts::PlacedWith(6, at, id),
        ConfigFault::Combination(at, rule) => Parts::PlacedWith(7, at, rule),
        ConfigFault::NoMemory => Parts::Alone("8"),
    }
}

/// A fault as it is printed: its number, then its path, then its id or its rule, where it has one, with a space
/// between them, as `5 Gpt.GptChannelConfiguration.1.GptChannelId 0`.
#[derive(Clone, Copy)]
pub struct Printed(pub ConfigFault);

impl fmt::Display for Printed {
    ghost output = { λ p. Some (spec.fault_text p.0) };

    fn fmt<W: fmt::Write>(&self, f: &mut fmt::Formatter<W>) -> fmt::Result {
        match parts_of(self.0) {
            Parts::Alone(number) => f.write_str(number),
            Parts::Placed(number, at) => write!(f, "{number} {at}"),
            Parts::PlacedWith(number, at, more) => write!(f, "{number} {at} {more}"),
        }
    }
}

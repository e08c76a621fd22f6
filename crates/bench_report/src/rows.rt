ghost use Rattle.std.specs.Prelude.{◌≡◌, ◌++◌, OnOk, Some, string_bytes};
ghost use Rattle.bench_report.specs.Lines.{numbered, Shows};
ghost use Rattle.bench_report.specs.RowParts.{parts_text};
ghost use Rattle.bench_report.specs.Rows as spec;

use std::alloc::AllocError;
use std::fmt;

/// What a row of `show` is of.
#[derive(Clone, Copy)]
pub enum RowName {
    /// The level of a pin.
    Pin(u32),
    /// The words of a RAM section.
    Ram(u32),
    /// The words that a serial unit sent and received.
    Wire(u32),
    /// The stamps of a capture channel.
    Stamps(u32),
    /// A result buffer of a converter group.
    Results(u32, u32),
    /// The source array of a serial channel.
    Source(u32),
    /// The destination array of an external channel.
    Destination(u32),
    /// The words of an internal channel to send.
    Transmit(u32),
    /// The received words of an internal channel.
    Receive(u32),
}

/// What the name of a row is put together from.
#[derive(Clone, Copy)]
enum Parts {
    /// A word and a number.
    Numbered(&'static str, u32),
    /// A word and two numbers.
    Placed(&'static str, u32, u32),
    /// A word, a number and a word.
    Between(&'static str, u32, &'static str),
}

/// The parts of a row's name.
fn parts_of(name: RowName) -> Parts
    ensures { parts_text result ≡ spec.name_text name }
{
    match name {
        RowName::Pin(pin) => Parts::Numbered("pin ", pin),
        RowName::Ram(section) => Parts::Numbered("ram ", section),
        RowName::Wire(unit) => Parts::Numbered("wire ", unit),
        RowName::Stamps(channel) => Parts::Numbered("icu ", channel),
        RowName::Results(group, buffer) => Parts::Placed("adc ", group, buffer),
        RowName::Source(channel) => Parts::Between("spi ", channel, " src"),
        RowName::Destination(channel) => Parts::Between("spi ", channel, " dst"),
        RowName::Transmit(channel) => Parts::Between("spi ", channel, " tx"),
        RowName::Receive(channel) => Parts::Between("spi ", channel, " rx"),
    }
}

impl fmt::Display for RowName {
    ghost output = { λ n. Some (spec.name_text n) };

    fn fmt<W: fmt::Write>(&self, f: &mut fmt::Formatter<W>) -> fmt::Result {
        match parts_of(*self) {
            Parts::Numbered(word, number) => write!(f, "{word}{number}"),
            Parts::Placed(word, number, place) => write!(f, "{word}{number} {place}"),
            Parts::Between(word, number, last) => write!(f, "{word}{number}{last}"),
        }
    }
}

/// What stands in a row.
#[derive(Clone, Copy)]
pub enum Value {
    /// A value.
    One(u32),
    /// A word that was sent, and the word that came in for it.
    Pair(u32, u32),
}

/// A value with a space before it.
impl fmt::Display for Value {
    ghost output = { λ v. Some (spec.value_text v) };

    fn fmt<W: fmt::Write>(&self, f: &mut fmt::Formatter<W>) -> fmt::Result {
        match *self {
            Value::One(value) => write!(f, " {value}"),
            Value::Pair(sent, received) => write!(f, " {sent}/{received}"),
        }
    }
}

/// The values of a row.
#[derive(Clone, Copy)]
pub struct Values<'a>(pub &'a [Value]);

impl fmt::Display for Values<'_> {
    ghost output = { λ v. Some (spec.values_text v.0.now) };

    fn fmt<W: fmt::Write>(&self, f: &mut fmt::Formatter<W>) -> fmt::Result {
        for value in self.0 {
            write!(f, "{value}")?;
        }
        Ok(())
    }
}

/// Writes a row that a script line shows behind the other lines of its show.
pub fn write_row(
    text: &mut String,
    line: u32,
    name: RowName,
    values: &[Value],
) -> Result<(), AllocError>
    ensures { OnOk result (string_bytes text.new ≡ string_bytes text.old ++ numbered line (Shows (record { name = name; values = values.now }))) }
{
    let values = Values(values);
    write!(text, "{line} {name}:{values}\n")
}

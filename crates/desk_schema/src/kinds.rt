use crate::writing::{begin, end, put_names, put_number, put_text};
use desk_tables::{Kind, Need, Range};
use json::Pretty;
use std::alloc::{AllocError, Global};

/// Says that a value is a whole number of a range.
fn put_range(out: &mut Pretty, range: Range) -> Result<(), AllocError> {
    let Range(low, high) = range;
    put_number(out, "maximum", high)?;
    put_number(out, "minimum", low)?;
    put_text(out, "type", "integer")
}

/// Says that a value is one of these names.
fn put_choices(out: &mut Pretty, names: &[&str]) -> Result<(), AllocError> {
    put_names(out, "enum", names)?;
    put_text(out, "type", "string")
}

/// Says that a value is an array of so many items.
pub(crate) fn put_count(out: &mut Pretty, count: Range) -> Result<(), AllocError> {
    let Range(least, most) = count;
    put_number(out, "maxItems", most)?;
    put_number(out, "minItems", least)?;
    put_text(out, "type", "array")
}

/// Says what a value is that has no items.
fn put_single(out: &mut Pretty, kind: Kind) -> Result<(), AllocError> {
    match kind {
        Kind::Whole(range) => put_range(out, range),
        Kind::Name(names) => put_choices(out, names),
        Kind::Text => put_text(out, "type", "string"),
        _ => put_text(out, "type", "boolean"),
    }
}

/// Says that a value is an array of so many items of a kind.
fn put_items(out: &mut Pretty, count: Range, item: Kind) -> Result<(), AllocError> {
    begin(out, "items")?;
    put_single(out, item)?;
    end(out)?;
    put_count(out, count)
}

/// Says what a value of a kind is that is no array of tables.
pub(crate) fn put_kind(out: &mut Pretty, kind: Kind) -> Result<(), AllocError> {
    match kind {
        Kind::Wholes(count, range) => put_items(out, count, Kind::Whole(range)),
        Kind::Names(count, names) => put_items(out, count, Kind::Name(names)),
        _ => put_single(out, kind),
    }
}

/// When a key has to be there, in words.
pub(crate) fn need_text(alloc: Global, need: Need) -> Result<String, AllocError> {
    match need {
        Need::Id => String::from_str(alloc, "required; stands once"),
        Need::Required => String::from_str(alloc, "required"),
        Need::Optional => String::from_str(alloc, "optional"),
        Need::Default(value) => format!(in alloc; "default {value}"),
        Need::With(key, name) => {
            let key = key.text();
            format!(in alloc; "required with {key} = {name}")
        }
        Need::Only(key, name) => {
            let key = key.text();
            format!(in alloc; "required with {key} = {name}, else ignored")
        }
    }
}

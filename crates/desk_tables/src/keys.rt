use crate::all_tables::tables;
use config_keys::KeyName;
use mcal_base::ModuleName;

/// The least and the most.
#[derive(Clone, Copy)]
pub struct Range(pub u32, pub u32);

/// What the value of a key is.
#[derive(Clone, Copy)]
pub enum Kind {
    /// `true` or `false`.
    Truth,
    /// Any string.
    Text,
    /// A whole number.
    Whole(Range),
    /// One of these names.
    Name(&'static [&'static str]),
    /// An array of so many whole numbers.
    Wholes(Range, Range),
    /// An array of so many of these names.
    Names(Range, &'static [&'static str]),
    /// An array of at most so many tables.
    Tables(u32),
}

/// When a key has to be there.
#[derive(Clone, Copy)]
pub enum Need {
    /// Always: it is the id, which stands once in its array.
    Id,
    /// Always.
    Required,
    /// Never.
    Optional,
    /// Never: this stands for it.
    Default(&'static str),
    /// Where this other key has this name.
    With(KeyName, &'static str),
    /// Where this other key has this name, and else it is ignored.
    Only(KeyName, &'static str),
}

/// A key that may stand in a table, what its value is, and when it has to be there.
#[derive(Clone, Copy)]
pub struct KeyRow(pub KeyName, pub Kind, pub Need);

/// The keys of a module's table, or of the elements of one of its arrays.
#[derive(Clone, Copy)]
pub struct Table {
    /// The module.
    pub module: ModuleName,
    /// The array, where these are the keys of its elements.
    pub array: Option<KeyName>,
    /// The keys, in the order in which they are read.
    pub rows: &'static [KeyRow],
}

/// The spelling of an array's key; that of no key is empty.
fn spelling(array: Option<KeyName>) -> &'static str {
    match array {
        Some(key) => key.text(),
        None => "",
    }
}

/// The table of a module, or of the elements of the array with this key.
pub fn table_of(module: ModuleName, array: Option<KeyName>) -> Option<&'static Table> {
    tables().iter().find(|table| {
        table.module.text() == module.text() && spelling(table.array) == spelling(array)
    })
}

use crate::kinds::{need_text, put_count, put_kind};
use crate::order::next_row;
use crate::writing::{begin, end, put_names, put_text};
use desk_tables::{KeyRow, Kind, Need, Range, Table, table_of};
use json::{Pretty, Token};
use mcal_base::ModuleName;
use std::alloc::{AllocError, Global};

/// The modules in the order of their names.
static MODULES: [ModuleName; 9] = [
    ModuleName::Adc,
    ModuleName::Dio,
    ModuleName::Gpt,
    ModuleName::Icu,
    ModuleName::Mcu,
    ModuleName::Port,
    ModuleName::Pwm,
    ModuleName::Spi,
    ModuleName::Wdg,
];

/// Begins what is said of a key: when it has to be there.
fn describe(alloc: Global, out: &mut Pretty, row: KeyRow) -> Result<(), AllocError> {
    let KeyRow(key, _, need) = row;
    let text = need_text(alloc, need)?;
    begin(out, key.text())?;
    put_text(out, "description", text.as_str())
}

/// The keys that have to be there in an element.
fn needed_in(alloc: Global, rows: &[KeyRow]) -> Result<Vec<&'static str>, AllocError> {
    let mut keys = Vec::new(alloc);
    for KeyRow(key, _, need) in rows {
        if matches!(need, Need::Id | Need::Required) {
            keys.push(key.text())?;
        }
    }
    Ok(keys)
}

/// Says that a table has no other keys than those that follow.
fn begin_keys(out: &mut Pretty) -> Result<(), AllocError> {
    out.token(Token::Key("additionalProperties"))?;
    out.token(Token::Bool(false))?;
    begin(out, "properties")
}

/// Ends the keys of a table: these ones have to be there.
fn end_keys(out: &mut Pretty, needed: &[&str]) -> Result<(), AllocError> {
    end(out)?;
    put_names(out, "required", needed)?;
    put_text(out, "type", "object")
}

/// Writes what the value of a key of an element is.
fn put_row(alloc: Global, out: &mut Pretty, row: KeyRow) -> Result<(), AllocError> {
    describe(alloc, out, row)?;
    put_kind(out, row.1)?;
    end(out)
}

/// Writes the keys of an element.
fn put_keys(alloc: Global, out: &mut Pretty, rows: &[KeyRow]) -> Result<(), AllocError> {
    let mut name = "";
    for _ in rows {
        let Some(row) = next_row(rows, name) else {
            return Ok(());
        };
        put_row(alloc, out, row)?;
        name = row.0.text();
    }
    Ok(())
}

/// Writes what an element of an array of tables is.
fn put_element(alloc: Global, out: &mut Pretty, rows: &[KeyRow]) -> Result<(), AllocError> {
    begin(out, "items")?;
    begin_keys(out)?;
    put_keys(alloc, out, rows)?;
    end_keys(out, &needed_in(alloc, rows)?)?;
    end(out)
}

/// Writes what the value of a key of a module is.
fn put_module_row(
    alloc: Global,
    out: &mut Pretty,
    module: ModuleName,
    row: KeyRow,
) -> Result<(), AllocError> {
    let KeyRow(key, kind, _) = row;
    match (kind, table_of(module, Some(key))) {
        (Kind::Tables(most), Some(elements)) => {
            describe(alloc, out, row)?;
            put_element(alloc, out, elements.rows)?;
            put_count(out, Range(0, most))?;
            end(out)
        }
        _ => put_row(alloc, out, row),
    }
}

/// Writes the keys of a module.
fn put_module_keys(alloc: Global, out: &mut Pretty, table: &Table) -> Result<(), AllocError> {
    let mut name = "";
    for _ in table.rows {
        let Some(row) = next_row(table.rows, name) else {
            return Ok(());
        };
        put_module_row(alloc, out, table.module, row)?;
        name = row.0.text();
    }
    Ok(())
}

/// Writes what a module's table is.
fn put_module(alloc: Global, out: &mut Pretty, table: &Table) -> Result<(), AllocError> {
    begin(out, table.module.text())?;
    begin_keys(out)?;
    put_module_keys(alloc, out, table)?;
    end_keys(out, &[])?;
    end(out)
}

/// Writes what the tables of all modules are.
fn put_modules(alloc: Global, out: &mut Pretty) -> Result<(), AllocError> {
    for module in MODULES {
        if let Some(table) = table_of(module, None) {
            put_module(alloc, out, table)?;
        }
    }
    Ok(())
}

/// Writes the schema.
fn put_schema(alloc: Global, out: &mut Pretty) -> Result<(), AllocError> {
    out.token(Token::BeginObject)?;
    put_text(out, "$schema", "http://json-schema.org/draft-07/schema#")?;
    begin_keys(out)?;
    put_modules(alloc, out)?;
    end(out)?;
    put_text(out, "title", "The configuration of a bench file")?;
    put_text(out, "type", "object")?;
    end(out)
}

/// The JSON schema of a configuration, as text.
pub fn schema(alloc: Global) -> Result<String, AllocError> {
    let mut out = Pretty::new(alloc);
    put_schema(alloc, &mut out)?;
    let mut bytes = out.into_inner();
    bytes.push(b'\n')?;
    String::from_utf8_lossy(alloc, &bytes)
}

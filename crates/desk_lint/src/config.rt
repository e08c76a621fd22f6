use crate::found::{Found, key_at, value_at};
use crate::members::place_of_same;
use config_keys::KeyName;
use desk_findings::allowed;
use desk_findings::places::Places;
use desk_tables::{KeyRow, Kind, Need, Range, Table, table_of};
use mcal_base::ModuleName;
use std::alloc::AllocError;
use toml::Value;

/// The modules that a configuration may have.
const MODULES: [ModuleName; 9] = [
    ModuleName::Mcu,
    ModuleName::Port,
    ModuleName::Gpt,
    ModuleName::Pwm,
    ModuleName::Icu,
    ModuleName::Adc,
    ModuleName::Spi,
    ModuleName::Dio,
    ModuleName::Wdg,
];

/// The names of the modules.
const NAMES: [&str; 9] = [
    "Mcu", "Port", "Gpt", "Pwm", "Icu", "Adc", "Spi", "Dio", "Wdg",
];

/// A configuration that is looked through: where its keys stand, and what is found.
#[derive(Drop)]
pub(crate) struct ConfigPass<'a> {
    pub(crate) places: &'a Places,
    pub(crate) found: &'a mut Found,
}

/// Whether a row asks that its key is there, or else has it ignored, in this table.
#[derive(Clone, Copy)]
enum Standing {
    Needed,
    Free,
    Ignored,
}

/// Whether a key of a table has this name for its value.
fn has_name(values: &toml::Table, key: &str, name: &str) -> bool {
    match values.get(key) {
        Some(value) => value.as_str() == Some(name),
        None => false,
    }
}

/// How a row stands in a table.
fn standing_of(need: Need, values: &toml::Table) -> Standing {
    match need {
        Need::Id | Need::Required => Standing::Needed,
        Need::Optional | Need::Default(_) => Standing::Free,
        Need::With(key, name) if has_name(values, key.text(), name) => Standing::Needed,
        Need::With(..) => Standing::Free,
        Need::Only(key, name) if has_name(values, key.text(), name) => Standing::Needed,
        Need::Only(..) => Standing::Ignored,
    }
}

/// Whether a module's table may have a key.
fn is_key_of(module: ModuleName, key: &str) -> bool {
    match table_of(module, None) {
        Some(table) => has_key(table, key),
        None => false,
    }
}

/// Whether a row of a table is about a key.
fn has_key(table: &Table, key: &str) -> bool {
    for row in table.rows {
        if row.0.text() == key {
            return true;
        }
    }
    false
}

impl ConfigPass<'_> {
    /// Looks through the modules of a configuration.
    pub(crate) fn whole(&mut self, values: &toml::Table) -> Result<(), AllocError> {
        for (name, _) in values.iter() {
            if !NAMES.contains(&name.as_str()) {
                self.unknown_module(name.as_str())?;
            }
        }
        for module in MODULES {
            if let Some(value) = values.get(module.text()) {
                self.module(module, value)?;
            }
        }
        Ok(())
    }

    /// Says that a key is no module's, or that it belongs under one.
    fn unknown_module(&mut self, key: &str) -> Result<(), AllocError> {
        for module in MODULES {
            if is_key_of(module, key) {
                let module = module.text();
                return self.found.warning(
                    key_at(self.places, key),
                    format_args!("`{key}` is no module, and is not looked at"),
                    format_args!("it belongs under a line `[{module}]`"),
                );
            }
        }
        let help = allowed(self.found.alloc, key, &NAMES)?;
        self.found.warning(
            key_at(self.places, key),
            format_args!("`{key}` is no module, and is not looked at"),
            help,
        )
    }

    /// Looks through a module.
    fn module(&mut self, module: ModuleName, value: &Value) -> Result<(), AllocError> {
        match (value.as_table(), table_of(module, None)) {
            (Some(values), Some(table)) => self.table(table, values, module.text()),
            _ => self.wrong_kind(module.text(), "a table"),
        }
    }

    /// Says that a key is none of those that the table at a path may have.
    fn unknown_key(&mut self, path: &str, key: &str, choices: &[&str]) -> Result<(), AllocError> {
        let help = allowed(self.found.alloc, key, choices)?;
        let at = format!(in self.found.alloc; "{path}.{key}")?;
        self.found.warning(
            key_at(self.places, at.as_str()),
            format_args!("`{key}` is no key of `{path}`, and is not looked at"),
            help,
        )
    }

    /// Looks for keys of a table that it may not have.
    fn strange_keys(
        &mut self,
        table: &Table,
        values: &toml::Table,
        path: &str,
    ) -> Result<(), AllocError> {
        let mut keys = Vec::new(self.found.alloc);
        for KeyRow(key, _, _) in table.rows {
            keys.push(key.text())?;
        }
        for (name, _) in values.iter() {
            if !keys.contains(&name.as_str()) {
                self.unknown_key(path, name.as_str(), &keys)?;
            }
        }
        Ok(())
    }

    /// Looks through a module's table.
    fn table(&mut self, table: &Table, values: &toml::Table, path: &str) -> Result<(), AllocError> {
        self.strange_keys(table, values, path)?;
        for row in table.rows {
            let KeyRow(key, kind, need) = *row;
            match (values.get(key.text()), kind) {
                (None, _) => {}
                (Some(value), Kind::Tables(most)) => {
                    self.elements(table.module, key, most, value, path)?
                }
                (Some(value), _) => self.value_of(key, kind, value, path)?,
            }
            self.presence(key, need, values, path)?;
        }
        Ok(())
    }

    /// Looks through an element of an array of tables.
    fn element(
        &mut self,
        table: &Table,
        values: &toml::Table,
        path: &str,
    ) -> Result<(), AllocError> {
        self.strange_keys(table, values, path)?;
        for row in table.rows {
            let KeyRow(key, kind, need) = *row;
            if let Some(value) = values.get(key.text()) {
                if !matches!(standing_of(need, values), Standing::Ignored) {
                    self.value_of(key, kind, value, path)?;
                }
            }
            self.presence(key, need, values, path)?;
        }
        Ok(())
    }

    /// Looks at the value of a key that is no array of tables.
    fn value_of(
        &mut self,
        key: KeyName,
        kind: Kind,
        value: &Value,
        path: &str,
    ) -> Result<(), AllocError> {
        let name = key.text();
        let path = format!(in self.found.alloc; "{path}.{name}")?;
        self.value(kind, value, path.as_str())
    }

    /// Looks whether a key is there, where it has to be.
    fn presence(
        &mut self,
        key: KeyName,
        need: Need,
        values: &toml::Table,
        path: &str,
    ) -> Result<(), AllocError> {
        if values.get(key.text()).is_some() {
            return Ok(());
        }
        match standing_of(need, values) {
            Standing::Needed => self.missing(path, key.text(), need),
            Standing::Free | Standing::Ignored => Ok(()),
        }
    }

    /// Says that a key is missing.
    fn missing(&mut self, path: &str, name: &str, need: Need) -> Result<(), AllocError> {
        let span = key_at(self.places, path);
        let what = format_args!("`{path}` has no `{name}`");
        match need {
            Need::With(key, value) | Need::Only(key, value) => {
                let key = key.text();
                let help = format_args!("with `{key} = \"{value}\"` it has to be there");
                self.found.error(span, what, help)
            }
            _ => self.found.error(span, what, "it has to be there"),
        }
    }

    /// Looks at an array of tables.
    fn elements(
        &mut self,
        module: ModuleName,
        key: KeyName,
        most: u32,
        value: &Value,
        path: &str,
    ) -> Result<(), AllocError> {
        let name = key.text();
        let path = format!(in self.found.alloc; "{path}.{name}")?;
        let path = path.as_str();
        let (Some(items), Some(rows)) = (value.as_array(), table_of(module, Some(key))) else {
            return self.wrong_kind(path, "an array of tables, as `[ { .. }, { .. } ]`");
        };
        self.length(Range(0, most), items.len(), path)?;
        for (number, item) in items.iter().enumerate() {
            let path = format!(in self.found.alloc; "{path}.{number}")?;
            match item.as_table() {
                Some(values) => self.element(rows, values, path.as_str())?,
                None => self.wrong_kind(path.as_str(), "a table, as `{ KEY = VALUE, .. }`")?,
            }
        }
        self.ids(rows, items, path)
    }

    /// Looks for ids that stand twice.
    fn ids(&mut self, table: &Table, items: &[Value], path: &str) -> Result<(), AllocError> {
        for KeyRow(key, _, need) in table.rows {
            if !matches!(need, Need::Id) {
                continue;
            }
            for (number, item) in items.iter().enumerate().take(64) {
                let earlier = items.get(..number).unwrap_or(&[]);
                if let Some(twin) = place_of_same(earlier, item, *key) {
                    self.repeated(path, key.text(), twin, number)?;
                }
            }
        }
        Ok(())
    }

    /// Says that an id stands twice.
    fn repeated(
        &mut self,
        path: &str,
        key: &str,
        earlier: usize,
        number: usize,
    ) -> Result<(), AllocError> {
        let first = format!(in self.found.alloc; "{path}.{earlier}.{key}")?;
        let second = format!(in self.found.alloc; "{path}.{number}.{key}")?;
        self.found.error_of_two(
            value_at(self.places, second.as_str()),
            value_at(self.places, first.as_str()),
            format_args!("this `{key}` stands twice in `{path}`"),
        )
    }
}

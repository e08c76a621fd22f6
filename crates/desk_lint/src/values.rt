use crate::config::ConfigPass;
use crate::found::value_at;
use desk_findings::allowed;
use desk_tables::{Kind, Range};
use std::alloc::AllocError;
use toml::Value;

impl ConfigPass<'_> {
    /// Says that a value is of another kind.
    pub(crate) fn wrong_kind(&mut self, path: &str, wanted: &str) -> Result<(), AllocError> {
        self.found.error(
            value_at(self.places, path),
            format_args!("`{path}` has to be {wanted}"),
            "",
        )
    }

    /// Looks at a value that is no array of tables.
    pub(crate) fn value(
        &mut self,
        kind: Kind,
        value: &Value,
        path: &str,
    ) -> Result<(), AllocError> {
        match kind {
            Kind::Truth if value.is_bool() => Ok(()),
            Kind::Truth => self.wrong_kind(path, "`true` or `false`"),
            Kind::Text if value.is_str() => Ok(()),
            Kind::Text => self.wrong_kind(path, "a text in quotes"),
            Kind::Whole(range) => self.whole_number(range, value, path),
            Kind::Name(names) => self.name(names, value, path),
            Kind::Wholes(count, range) => self.items(count, Kind::Whole(range), value, path),
            Kind::Names(count, names) => self.items(count, Kind::Name(names), value, path),
            Kind::Tables(_) => Ok(()),
        }
    }

    /// Looks at a whole number.
    fn whole_number(&mut self, range: Range, value: &Value, path: &str) -> Result<(), AllocError> {
        let Range(low, high) = range;
        let span = value_at(self.places, path);
        let help = format_args!("a whole number, {low} to {high}");
        match value.as_integer() {
            None => self
                .found
                .error(span, format_args!("`{path}` is no whole number"), help),
            Some(number) if number < i64::from(low) || i64::from(high) < number => {
                self.found
                    .error(span, format_args!("`{path}` is {number}"), help)
            }
            Some(_) => Ok(()),
        }
    }

    /// Looks at a name.
    fn name(&mut self, names: &[&str], value: &Value, path: &str) -> Result<(), AllocError> {
        let Some(name) = value.as_str() else {
            let help = allowed(self.found.alloc, "", names)?;
            return self.found.error(
                value_at(self.places, path),
                format_args!("`{path}` is no name in quotes"),
                help,
            );
        };
        if names.contains(&name) {
            return Ok(());
        }
        let help = allowed(self.found.alloc, name, names)?;
        self.found.error(
            value_at(self.places, path),
            format_args!("`{path}` is `{name}`"),
            help,
        )
    }

    /// Says how many items an array may have, where it has another number.
    pub(crate) fn length(
        &mut self,
        count: Range,
        items: usize,
        path: &str,
    ) -> Result<(), AllocError> {
        let Range(least, most) = count;
        if least as usize <= items && items <= most as usize {
            return Ok(());
        }
        let span = value_at(self.places, path);
        let what = format_args!("the number of items of `{path}` is {items}");
        if least == most {
            let help = format_args!("{most} items have to be there");
            self.found.error(span, what, help)
        } else {
            let help = format_args!("{least} to {most} items");
            self.found.error(span, what, help)
        }
    }

    /// Looks at an array of numbers or names.
    fn items(
        &mut self,
        count: Range,
        kind: Kind,
        value: &Value,
        path: &str,
    ) -> Result<(), AllocError> {
        let Some(items) = value.as_array() else {
            return self.wrong_kind(path, "an array, as `[ .., .. ]`");
        };
        self.length(count, items.len(), path)?;
        for (number, item) in items.iter().enumerate() {
            let path = format!(in self.found.alloc; "{path}.{number}")?;
            match kind {
                Kind::Name(names) => self.name(names, item, path.as_str())?,
                Kind::Whole(range) => self.whole_number(range, item, path.as_str())?,
                _ => {}
            }
        }
        Ok(())
    }
}

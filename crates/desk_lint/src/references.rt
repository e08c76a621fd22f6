use crate::config::ConfigPass;
use crate::found::value_at;
use crate::members::{any_has, elements_at, member, number_at};
use config_keys::KeyName;
use mcal_base::ModuleName;
use std::alloc::AllocError;
use toml::Value;

/// A key in the elements of an array, whose number or numbers have to be ids of another array of the module.
#[derive(Clone, Copy)]
struct Reference {
    /// The module.
    module: ModuleName,
    /// The array with the key.
    array: KeyName,
    /// The key.
    key: KeyName,
    /// The array with the ids.
    other: KeyName,
    /// The key of an id.
    id: KeyName,
}

/// The references between the arrays of a module.
static REFERENCES: [Reference; 3] = [
    Reference {
        module: ModuleName::Adc,
        array: KeyName::AdcGroup,
        key: KeyName::Unit,
        other: KeyName::AdcHwUnit,
        id: KeyName::AdcHwUnitId,
    },
    Reference {
        module: ModuleName::Spi,
        array: KeyName::SpiJob,
        key: KeyName::SpiChannelList,
        other: KeyName::SpiChannel,
        id: KeyName::SpiChannelId,
    },
    Reference {
        module: ModuleName::Spi,
        array: KeyName::SpiSequence,
        key: KeyName::SpiJobAssignment,
        other: KeyName::SpiJob,
        id: KeyName::SpiJobId,
    },
];

/// Whether one of some pins is one of the eight pins of a port.
fn has_port(pins: &[Value], port: i64) -> bool {
    for pin in pins {
        if let Some(number) = number_at(pin, KeyName::PortPinId) {
            if number / 8 == port {
                return true;
            }
        }
    }
    false
}

impl ConfigPass<'_> {
    /// Tells of each number that refers to something, and to nothing that is there.
    pub(crate) fn references(&mut self, values: &toml::Table) -> Result<(), AllocError> {
        for reference in &REFERENCES {
            self.reference(*reference, values)?;
        }
        self.port_references(values)
    }

    /// Looks at one key of all elements.
    fn reference(&mut self, reference: Reference, values: &toml::Table) -> Result<(), AllocError> {
        let Reference {
            module,
            array,
            key,
            ..
        } = reference;
        let others = elements_at(values, module, reference.other);
        for (place, element) in elements_at(values, module, array).iter().enumerate() {
            let Some(value) = member(element, key) else {
                continue;
            };
            let path = self.path_of(module, array, place, key)?;
            let path = path.as_str();
            match value.as_array() {
                None => self.refer(value, path, others, reference.id)?,
                Some(items) => self.refer_all(items, path, others, reference.id)?,
            }
        }
        Ok(())
    }

    /// Looks at numbers that have to be ids of other elements.
    fn refer_all(
        &mut self,
        items: &[Value],
        path: &str,
        others: &[Value],
        key: KeyName,
    ) -> Result<(), AllocError> {
        for (number, item) in items.iter().enumerate() {
            let path = format!(in self.found.alloc; "{path}.{number}")?;
            self.refer(item, path.as_str(), others, key)?;
        }
        Ok(())
    }

    /// The path of a key in an element of an array.
    fn path_of(
        &self,
        module: ModuleName,
        array: KeyName,
        place: usize,
        key: KeyName,
    ) -> Result<String, AllocError> {
        let module = module.text();
        let array = array.text();
        let key = key.text();
        format!(in self.found.alloc; "{module}.{array}.{place}.{key}")
    }

    /// Looks at a number that has to be an id of other elements.
    fn refer(
        &mut self,
        value: &Value,
        path: &str,
        others: &[Value],
        key: KeyName,
    ) -> Result<(), AllocError> {
        match value.as_integer() {
            Some(id) if !any_has(others, key, id) => {
                self.refers_to_none(path, id, "no element has this id")
            }
            _ => Ok(()),
        }
    }

    /// Looks at the ports of groups of pins.
    fn port_references(&mut self, values: &toml::Table) -> Result<(), AllocError> {
        let module = ModuleName::Dio;
        let array = KeyName::DioChannelGroup;
        let pins = elements_at(values, ModuleName::Port, KeyName::PortPin);
        for (place, element) in elements_at(values, module, array).iter().enumerate() {
            let Some(port) = number_at(element, KeyName::Port) else {
                continue;
            };
            if !has_port(pins, port) {
                let path = self.path_of(module, array, place, KeyName::Port)?;
                self.refers_to_none(path.as_str(), port, "no pin of this port is in `PortPin`")?;
            }
        }
        Ok(())
    }

    /// Says that a number refers to nothing.
    fn refers_to_none(&mut self, path: &str, id: i64, help: &str) -> Result<(), AllocError> {
        self.found.error(
            value_at(self.places, path),
            format_args!("`{path}` refers to {id}"),
            help,
        )
    }
}

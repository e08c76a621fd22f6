use mcal_base::Config;
use std::alloc::{AllocError, Global};

/// A section of the RAM.
#[derive(Clone, Copy)]
pub(crate) struct Section {
    /// Its first word.
    pub(crate) first: u32,
    /// How many words it has.
    pub(crate) size: u32,
}

/// What shows ask of a configuration: which pins there are, and where the sections of the RAM lie. A board keeps this and not
/// the configuration itself, since each function that sees a board pays in its proof for the layout of all that is in it.
#[derive(Drop)]
pub(crate) struct Places {
    pins: Vec<u32>,
    sections: Vec<Section>,
}

impl Places {
    /// Those of a configuration.
    pub(crate) fn new(alloc: Global, config: &Config) -> Result<Places, AllocError> {
        let mut pins = Vec::new(alloc);
        for pin in config.port.pins.as_slice() {
            pins.push(pin.id)?;
        }
        let mut sections = Vec::new(alloc);
        for section in config.mcu.ram_sections.as_slice() {
            let (first, size) = (section.base_address, section.size);
            sections.push(Section { first, size })?;
        }
        Ok(Places { pins, sections })
    }

    /// Whether there is a pin of this number.
    pub(crate) fn has_pin(&self, number: u32) -> bool {
        for pin in self.pins.as_slice() {
            if *pin == number {
                return true;
            }
        }
        false
    }

    /// The sections of the RAM, in their order.
    pub(crate) fn sections(&self) -> &[Section] {
        self.sections.as_slice()
    }
}

ghost use Rattle.std.specs.Prelude.{◌≡◌, ◌<◌};
ghost use Rattle.module_machines.specs.mcu.Table as spec;

use mcal_base::{Config, McuClockSetting, McuModeSetting, McuRamSection};

/// How many clock settings, modes and RAM sections there may be.
const MOST: u32 = 8;

/// A configured RAM section.
#[derive(Clone, Copy)]
pub struct Section {
    /// `McuRamSectionBaseAddress`: its first word.
    pub base: u32,
    /// `McuRamSectionSize` in words.
    pub size: u32,
    /// `McuRamDefaultValue`.
    pub default_value: u32,
}

/// What the driver keeps of a configuration.
#[derive(Clone, Copy)]
pub struct McuTable {
    /// `McuDevErrorDetect`.
    pub detect: bool,
    /// The multipliers of the clock settings by number, where they are configured.
    pub multipliers: [Option<u32>; 8],
    /// Whether a mode is configured, by number.
    pub modes: [bool; 8],
    /// The RAM sections by number, where they are configured.
    pub sections: [Option<Section>; 8],
}

impl McuTable {
    /// The table of a configuration. It takes no memory.
    pub fn new(config: &Config) -> McuTable
        ensures { result ≡ spec.table_of config.now.mcu }
    {
        let settings = config.mcu.clock_settings.as_slice();
        let modes = config.mcu.modes.as_slice();
        let sections = config.mcu.ram_sections.as_slice();
        McuTable {
            detect: config.mcu.dev_error_detect,
            multipliers: [
                find_multiplier(settings, 0),
                find_multiplier(settings, 1),
                find_multiplier(settings, 2),
                find_multiplier(settings, 3),
                find_multiplier(settings, 4),
                find_multiplier(settings, 5),
                find_multiplier(settings, 6),
                find_multiplier(settings, 7),
            ],
            modes: [
                find_mode(modes, 0),
                find_mode(modes, 1),
                find_mode(modes, 2),
                find_mode(modes, 3),
                find_mode(modes, 4),
                find_mode(modes, 5),
                find_mode(modes, 6),
                find_mode(modes, 7),
            ],
            sections: [
                find_section(sections, 0),
                find_section(sections, 1),
                find_section(sections, 2),
                find_section(sections, 3),
                find_section(sections, 4),
                find_section(sections, 5),
                find_section(sections, 6),
                find_section(sections, 7),
            ],
        }
    }

    /// The multiplier of a clock setting, where it is configured.
    pub fn multiplier(&self, setting: u32) -> Option<u32>
        ensures { result ≡ spec.multiplier_of self.now setting }
    {
        if setting < MOST {
            self.multipliers[setting as usize]
        } else {
            None
        }
    }

    /// Whether a mode is configured.
    pub fn has_mode(&self, mode: u32) -> bool
        ensures { result ≡ spec.has_mode self.now mode }
    {
        mode < MOST && self.modes[mode as usize]
    }

    /// A RAM section, where it is configured.
    pub fn section(&self, number: u32) -> Option<Section>
        ensures { result ≡ spec.section_of self.now number }
    {
        if number < MOST {
            self.sections[number as usize]
        } else {
            None
        }
    }
}

/// The multiplier of the first clock setting with this number.
fn find_multiplier(settings: &[McuClockSetting], number: u32) -> Option<u32>
    ensures { result ≡ spec.multiplier_in settings.now number }
{
    for setting in settings {
        if setting.id == number {
            return Some(setting.multiplier);
        }
    }
    None
}

/// Whether a mode of this number is configured.
fn find_mode(modes: &[McuModeSetting], number: u32) -> bool
    ensures { result ≡ spec.has_mode_in modes.now number }
{
    for mode in modes {
        if mode.mode == number {
            return true;
        }
    }
    false
}

/// The section at a place.
fn find_section(sections: &[McuRamSection], number: usize) -> Option<Section>
    ensures { result ≡ spec.section_in sections.now number }
{
    match sections.get(number) {
        Some(section) => Some(taken(section)),
        None => None,
    }
}

fn taken(section: &McuRamSection) -> Section
    ensures { result ≡ spec.taken section.now }
{
    Section {
        base: section.base_address,
        size: section.size,
        default_value: section.default_value,
    }
}

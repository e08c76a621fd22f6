use crate::short::Short;

/// A clock setting.
#[derive(Debug, Default, Drop)]
pub struct McuClockSetting {
    /// `McuClockSettingId`, 0 to 7.
    pub id: u32,
    /// `Multiplier` of the PLL, 1 to 16.
    pub multiplier: u32,
}

/// A mode.
#[derive(Debug, Default, Drop)]
pub struct McuModeSetting {
    /// `McuMode`, 0 to 7.
    pub mode: u32,
}

/// A RAM section. Its number is its place in the array.
#[derive(Debug, Default, Drop)]
pub struct McuRamSection {
    /// `McuRamSectionBaseAddress`: its first word, 0 to 511.
    pub base_address: u32,
    /// `McuRamSectionSize` in words, 1 to 64.
    pub size: u32,
    /// `McuRamDefaultValue`, 0 to 255.
    pub default_value: u32,
}

/// The table `Mcu`.
#[derive(Debug, Default, Drop)]
pub struct McuConfig {
    /// `McuDevErrorDetect`.
    pub dev_error_detect: bool,
    /// `McuClockSettingConfig`.
    pub clock_settings: Short<McuClockSetting, 8>,
    /// `McuModeSettingConf`.
    pub modes: Short<McuModeSetting, 8>,
    /// `McuRamSectorSettingConf`.
    pub ram_sections: Short<McuRamSection, 8>,
}

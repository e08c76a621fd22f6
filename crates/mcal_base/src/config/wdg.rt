/// The modes of the watchdog.
#[derive(Clone, Copy, Debug, Default)]
pub enum WdgMode {
    /// `WDGIF_OFF_MODE`
    #[default]
    Off,
    /// `WDGIF_SLOW_MODE`
    Slow,
    /// `WDGIF_FAST_MODE`
    Fast,
}

/// The table `Wdg`.
#[derive(Debug, Default, Drop)]
pub struct WdgConfig {
    /// `WdgDevErrorDetect`.
    pub dev_error_detect: bool,
    /// `WdgDefaultMode`: the mode after `Wdg_Init`.
    pub default_mode: WdgMode,
    /// `WdgDisableAllowed`: whether `Wdg_SetMode` may set the off mode.
    pub disable_allowed: bool,
    /// `InitialTicks`: the timeout after `Wdg_Init`, in units of the mode, 1 to 65,535.
    pub initial_ticks: u32,
    /// `MaxTicks`: the largest timeout of `Wdg_SetTriggerCondition`, 1 to 65,535.
    pub max_ticks: u32,
}

ghost use Rattle.std.specs.Prelude.{◌≡◌};
ghost use Rattle.config_facts.specs.Valid.{IsValid};
ghost use Rattle.mcal_config.specs.Whole as spec;

use config_tables::both_at_one;
use mcal_base::{
    AdcConfig, AdcPriorityImplementation, Config, DioConfig, GptChannel, GptChannelMode, GptConfig,
    IcuConfig, McuConfig, PortConfig, PwmConfig, Short, SpiConfig, WdgConfig, WdgMode,
};

/// One timer channel, with the defaults.
fn one_timer() -> GptConfig
    ensures { result ≡ spec.one_timer }
{
    let mut channels = Short::new();
    channels.push(GptChannel {
        id: 0,
        mode: GptChannelMode::OneShot,
        tick_value_max: u32::MAX,
        enable_wakeup: false,
        notification: false,
        prescaler: 1,
        level: 1,
    });
    GptConfig {
        dev_error_detect: true,
        classification: 1,
        channels,
    }
}

/// No clock setting, mode or RAM section.
fn no_clock() -> McuConfig
    ensures { result ≡ spec.no_clock }
{
    McuConfig {
        dev_error_detect: true,
        clock_settings: Short::new(),
        modes: Short::new(),
        ram_sections: Short::new(),
    }
}

/// No converter unit and no group.
fn no_converter() -> AdcConfig
    ensures { result ≡ spec.no_converter }
{
    AdcConfig {
        dev_error_detect: true,
        classification: 1,
        priority_implementation: AdcPriorityImplementation::None,
        enable_queuing: false,
        units: Short::new(),
        groups: Short::new(),
    }
}

/// No serial channel, job or sequence.
fn no_serial() -> SpiConfig
    ensures { result ≡ spec.no_serial }
{
    SpiConfig {
        dev_error_detect: true,
        classification: 1,
        levels: both_at_one(),
        sync_units: Short::new(),
        channels: Short::new(),
        jobs: Short::new(),
        sequences: Short::new(),
    }
}

/// The watchdog with its defaults, off.
fn watchdog_off() -> WdgConfig
    ensures { result ≡ spec.watchdog_off }
{
    WdgConfig {
        dev_error_detect: true,
        default_mode: WdgMode::Off,
        disable_allowed: true,
        initial_ticks: 1000,
        max_ticks: 65_535,
    }
}

/// All modules of the board of a tree without keys.
#[tactic(auto, unfolding(crate::specs::Whole::default_board))]
fn all_modules() -> Config
    ensures { result ≡ spec.default_board }
{
    Config {
        mcu: no_clock(),
        port: PortConfig {
            dev_error_detect: true,
            pins: Short::new(),
        },
        gpt: one_timer(),
        pwm: PwmConfig {
            dev_error_detect: true,
            channels: Short::new(),
        },
        icu: IcuConfig {
            dev_error_detect: true,
            classification: 1,
            channels: Short::new(),
        },
        adc: no_converter(),
        spi: no_serial(),
        dio: DioConfig {
            dev_error_detect: true,
            groups: Short::new(),
        },
        wdg: watchdog_off(),
    }
}

/// The board of a tree without keys: one timer channel, and nothing else.
pub fn default_board() -> Config
    ensures value { result ≡ spec.default_board }
    ensures valid { IsValid result }
{
    all_modules()
}

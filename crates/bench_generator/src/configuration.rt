ghost use Rattle.std.specs.Prelude.{◌≡◌, ◌∷◌, []};
ghost use Rattle.config_facts.specs.Valid.{IsValid};
ghost use Rattle.bench_generator.specs.Board as spec;

use mcal_base::{
    AdcAccessMode, AdcConfig, AdcConversionMode, AdcGroup, AdcGroupReplacement, AdcHwUnit,
    AdcPriorityImplementation, AdcStreamBufferMode, AdcTriggerSource, Config, DioConfig,
    GptChannel, GptChannelMode, GptConfig, IcuConfig, McuConfig, PortConfig, PwmConfig, Short,
    SpiConfig, WdgConfig, WdgMode,
};

/// One timer: continuous, with a notification.
fn timers() -> GptConfig
    ensures { result ≡ spec.timers }
{
    let mut channels = Short::new();
    channels.push(GptChannel {
        id: 0,
        mode: GptChannelMode::Continuous,
        tick_value_max: u32::MAX,
        enable_wakeup: false,
        notification: true,
        prescaler: 1,
        level: 1,
    });
    GptConfig {
        dev_error_detect: true,
        classification: 1,
        channels,
    }
}

/// One group of one input: single access, one-shot, started by software, with a notification.
fn group() -> AdcGroup
    ensures { result ≡ spec.the_group }
{
    let mut definition = Short::new();
    definition.push(0);
    AdcGroup {
        id: 0,
        unit: 0,
        definition,
        access_mode: AdcAccessMode::Single,
        conversion_mode: AdcConversionMode::OneShot,
        priority: 0,
        replacement: AdcGroupReplacement::AbortRestart,
        trigger_source: AdcTriggerSource::Software,
        streaming_buffer_mode: AdcStreamBufferMode::Linear,
        streaming_num_samples: 1,
        notification: true,
        trigger_input: None,
        level: 1,
    }
}

/// One unit, and the group on it.
fn converters() -> AdcConfig
    ensures { result ≡ spec.converters }
{
    let mut units = Short::new();
    units.push(AdcHwUnit { id: 0, level: 1 });
    let mut groups = Short::new();
    groups.push(group());
    AdcConfig {
        dev_error_detect: true,
        classification: 1,
        priority_implementation: AdcPriorityImplementation::None,
        enable_queuing: false,
        units,
        groups,
    }
}

/// The levels of the lines of both serial units.
fn both_at_one() -> Short<u32, 2>
    ensures { result ≡ 1 ∷ 1 ∷ [] }
{
    let mut levels = Short::new();
    levels.push(1);
    levels.push(1);
    levels
}

/// No serial channel, job or sequence.
fn no_serial() -> SpiConfig
    ensures { result ≡ spec.no_serial }
{
    SpiConfig {
        dev_error_detect: true,
        classification: 1,
        levels: both_at_one(),
        sync_units: Short::new(),
        channels: Short::new(),
        jobs: Short::new(),
        sequences: Short::new(),
    }
}

/// No clock setting, mode or RAM section.
fn no_clock() -> McuConfig
    ensures { result ≡ spec.no_clock }
{
    McuConfig {
        dev_error_detect: true,
        clock_settings: Short::new(),
        modes: Short::new(),
        ram_sections: Short::new(),
    }
}

/// The watchdog with its defaults, off.
fn watchdog_off() -> WdgConfig
    ensures { result ≡ spec.watchdog_off }
{
    WdgConfig {
        dev_error_detect: true,
        default_mode: WdgMode::Off,
        disable_allowed: true,
        initial_ticks: 1000,
        max_ticks: 65_535,
    }
}

/// All modules of the board.
#[tactic(auto, unfolding(crate::specs::Board::board))]
fn all_modules() -> Config
    ensures { result ≡ spec.board }
{
    Config {
        mcu: no_clock(),
        port: PortConfig {
            dev_error_detect: true,
            pins: Short::new(),
        },
        gpt: timers(),
        pwm: PwmConfig {
            dev_error_detect: true,
            channels: Short::new(),
        },
        icu: IcuConfig {
            dev_error_detect: true,
            classification: 1,
            channels: Short::new(),
        },
        adc: converters(),
        spi: no_serial(),
        dio: DioConfig {
            dev_error_detect: true,
            groups: Short::new(),
        },
        wdg: watchdog_off(),
    }
}

/// The board that generated scripts run on: one timer, and one converter unit with one group.
pub fn board() -> Config
    ensures value { result ≡ spec.board }
    ensures valid { IsValid result }
{
    all_modules()
}

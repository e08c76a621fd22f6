ghost use Rattle.std.specs.Prelude.{◌≡◌};
ghost use Rattle.mcal_base.specs.Names.{service_text};
ghost use Rattle.bench_script.specs.Words.{named, all_services, FindsAll};

use crate::spelled::named;
use mcal_base::Service;

/// The services of Mcu whose names have so many letters.
fn mcu_services(letters: usize) -> &'static [Service]
    ensures { FindsAll result.now 77 letters }
{
    match letters {
        8 => &[Service::McuInit],
        11 => &[Service::McuSetMode],
        13 => &[Service::McuInitClock],
        16 => &[Service::McuGetPllStatus, Service::McuPerformReset],
        18 => &[Service::McuInitRamSection, Service::McuGetResetReason],
        22 => &[Service::McuDistributePllClock],
        _ => &[],
    }
}

/// The services of Port or Pwm whose names have so many letters.
fn port_or_pwm_services(letters: usize) -> &'static [Service]
    ensures { FindsAll result.now 80 letters }
{
    match letters {
        8 => &[Service::PwmInit],
        9 => &[Service::PortInit],
        10 => &[Service::PwmDeInit],
        15 => &[Service::PortSetPinMode],
        16 => &[Service::PwmSetDutyCycle],
        18 => &[Service::PwmGetOutputState],
        19 => &[Service::PwmSetOutputToIdle],
        20 => &[Service::PortSetPinDirection, Service::PwmSetPeriodAndDuty],
        22 => &[Service::PwmEnableNotification],
        23 => &[Service::PwmDisableNotification],
        25 => &[Service::PortRefreshPortDirection],
        _ => &[],
    }
}

/// The services of Gpt whose names have so many letters.
fn gpt_services(letters: usize) -> &'static [Service]
    ensures { FindsAll result.now 71 letters }
{
    match letters {
        8 => &[Service::GptInit],
        10 => &[Service::GptDeInit],
        11 => &[Service::GptSetMode],
        13 => &[Service::GptStopTimer],
        14 => &[Service::GptStartTimer],
        15 => &[Service::GptCheckWakeup],
        16 => &[Service::GptEnableWakeup],
        17 => &[Service::GptDisableWakeup],
        18 => &[Service::GptGetTimeElapsed],
        20 => &[Service::GptGetTimeRemaining],
        22 => &[Service::GptEnableNotification],
        23 => &[Service::GptDisableNotification],
        _ => &[],
    }
}

/// The services of Icu whose names have so many letters.
fn icu_services(letters: usize) -> &'static [Service]
    ensures { FindsAll result.now 73 letters }
{
    match letters {
        8 => &[Service::IcuInit],
        10 => &[Service::IcuDeInit],
        17 => &[Service::IcuGetInputState, Service::IcuStopTimestamp],
        18 => &[
            Service::IcuResetEdgeCount,
            Service::IcuGetEdgeNumbers,
            Service::IcuStartTimestamp,
            Service::IcuGetTimeElapsed,
        ],
        19 => &[Service::IcuEnableEdgeCount],
        20 => &[Service::IcuDisableEdgeCount],
        21 => &[Service::IcuGetTimestampIndex],
        22 => &[
            Service::IcuEnableNotification,
            Service::IcuGetDutyCycleValues,
        ],
        23 => &[
            Service::IcuDisableNotification,
            Service::IcuEnableEdgeDetection,
        ],
        24 => &[Service::IcuDisableEdgeDetection],
        25 => &[Service::IcuStopSignalMeasurement],
        26 => &[
            Service::IcuSetActivationCondition,
            Service::IcuStartSignalMeasurement,
        ],
        _ => &[],
    }
}

/// The services of Adc whose names have so many letters.
fn adc_services(letters: usize) -> &'static [Service]
    ensures { FindsAll result.now 65 letters }
{
    match letters {
        8 => &[Service::AdcInit],
        10 => &[Service::AdcDeInit],
        13 => &[Service::AdcReadGroup],
        18 => &[Service::AdcGetGroupStatus],
        21 => &[Service::AdcSetupResultBuffer],
        23 => &[Service::AdcStopGroupConversion],
        24 => &[
            Service::AdcStartGroupConversion,
            Service::AdcGetStreamLastPointer,
        ],
        25 => &[Service::AdcEnableHardwareTrigger],
        26 => &[Service::AdcDisableHardwareTrigger],
        27 => &[Service::AdcEnableGroupNotification],
        28 => &[Service::AdcDisableGroupNotification],
        _ => &[],
    }
}

/// The services of Spi whose names have so many letters.
fn spi_services(letters: usize) -> &'static [Service]
    ensures { FindsAll result.now 83 letters }
{
    match letters {
        8 => &[Service::SpiInit],
        10 => &[Service::SpiDeInit, Service::SpiReadIb, Service::SpiCancel],
        11 => &[Service::SpiWriteIb, Service::SpiSetupEb],
        13 => &[Service::SpiGetStatus],
        16 => &[
            Service::SpiGetJobResult,
            Service::SpiSetAsyncMode,
            Service::SpiSyncTransmit,
        ],
        17 => &[Service::SpiAsyncTransmit],
        19 => &[Service::SpiGetHwUnitStatus],
        21 => &[Service::SpiGetSequenceResult],
        25 => &[Service::SpiMainFunctionHandling],
        _ => &[],
    }
}

/// The services of Dio whose names have so many letters.
fn dio_services(letters: usize) -> &'static [Service]
    ensures { FindsAll result.now 68 letters }
{
    match letters {
        12 => &[Service::DioReadPort],
        13 => &[Service::DioWritePort],
        15 => &[Service::DioReadChannel, Service::DioFlipChannel],
        16 => &[Service::DioWriteChannel],
        20 => &[Service::DioReadChannelGroup],
        21 => &[Service::DioWriteChannelGroup],
        _ => &[],
    }
}

/// The services of Wdg whose names have so many letters.
fn wdg_services(letters: usize) -> &'static [Service]
    ensures { FindsAll result.now 87 letters }
{
    match letters {
        8 => &[Service::WdgInit],
        11 => &[Service::WdgSetMode],
        23 => &[Service::WdgSetTriggerCondition],
        _ => &[],
    }
}

/// The services that a word of so many letters may name, by its first letter.
fn services_under(letter: u8, letters: usize) -> &'static [Service]
    ensures { FindsAll result.now letter letters }
{
    match letter {
        b'M' => mcu_services(letters),
        b'P' => port_or_pwm_services(letters),
        b'G' => gpt_services(letters),
        b'I' => icu_services(letters),
        b'A' => adc_services(letters),
        b'S' => spi_services(letters),
        b'D' => dio_services(letters),
        b'W' => wdg_services(letters),
        _ => &[],
    }
}

/// The service that a word names.
pub fn service_named(word: &[u8]) -> Option<Service>
    ensures { result ≡ named service_text all_services word.now }
{
    match word {
        [] => None,
        [letter, ..] => named(services_under(*letter, word.len()), word),
    }
}

ghost use Rattle.std.specs.Prelude.{◌≡◌, ℕ, IfOk};
ghost use Rattle.adc_machine.specs.Table.{AreSmall};
ghost use Rattle.chip_model.specs.Wiring.{wiring_of, output_in};
ghost use Rattle.module_machines.specs.dio.Table as ports;
ghost use Rattle.module_machines.specs.mcu.Machine as clock;
ghost use Rattle.module_machines.specs.mcu.Table as sections;
ghost use Rattle.module_machines.specs.pwm.Table as pwm;
ghost use Rattle.run_model.specs.World.{world_start};
ghost use Rattle.audit_base.specs.Outside.{IsWorld};
ghost use Rattle.audit_base.specs.declared.outside.Outside as outside;
ghost use Rattle.audit_clock.specs.ClockStands.{StandsFor};
ghost use Rattle.audit_clock.specs.Sections.{AreShort};
ghost use Rattle.audit_machines.specs.Happens as spec;
ghost use Rattle.audit_machines.specs.System.{all_tables, first_states, tables_of};

use crate::hosted::Hosted;
use crate::machines::Machines;
use crate::pin_calls::Modules;
use crate::times::places_of;
use adc_machine::AdcTable;
use audit_base::{Both, Outside, Part};
use audit_captures::Captures;
use audit_clock::{Clock, Pins, Ports, Watchdog};
use audit_converters::Converters;
use audit_pulses::Pulses;
use audit_timers::Timers;
use mcal_base::{Config, PwmChannel};
use module_machines::dio::DioTable;
use module_machines::gpt::GptTable;
use module_machines::icu::IcuTable;
use module_machines::mcu::McuTable;
use module_machines::port::PortTable;
use module_machines::pwm::PwmTable;
use module_machines::wdg::WdgTable;
use std::alloc::{AllocError, Global};

/// The modules that have a state, in their order, with the serial one.
pub type StateParts<S> = Modules<Both<Clock, Watchdog>, Timers, Captures, Both<Converters, S>>;

/// The pin of a pulse channel, where it is configured and has one.
fn output(channels: &[PwmChannel], channel: u32) -> Option<u32>
    ensures { result ≡ output_in channels.now channel }
{
    for configured in channels {
        if configured.id == channel {
            return configured.pin;
        }
    }
    None
}

/// The pin at which each pulse channel's output is seen, where it is seen at one.
#[tactic(auto, unfolding(chip_model::specs::Wiring::wiring_of))]
fn outputs_of(config: &Config) -> [Option<u32>; 8]
    ensures { result ≡ (wiring_of config.now).outputs }
{
    let channels = config.pwm.channels.as_slice();
    [
        output(channels, 0),
        output(channels, 1),
        output(channels, 2),
        output(channels, 3),
        output(channels, 4),
        output(channels, 5),
        output(channels, 6),
        output(channels, 7),
    ]
}

/// The machine of clock, RAM and resets after power on.
fn clock_part(config: &Config) -> Clock
    requires { AreShort (sections.table_of config.now.mcu) }
    ensures is { StandsFor result clock.first_state }
    ensures driver { result.driver ≡ sections.table_of config.now.mcu }
{
    let table = McuTable::new(config);
    Clock::new(table)
}

/// The modules that have a state, after power on.
fn state_parts<S: Part + Drop>(
    alloc: Global,
    config: &Config,
    serial: S,
) -> Result<StateParts<S>, AllocError>
    requires small { AreSmall config.now.adc }
    requires short { AreShort (sections.table_of config.now.mcu) }
    ensures stands { (s : S.State) → S.stands serial s → IfOk result (λ m. ⟦<StateParts<S> as Part>⟧.stands m (first_states s)) }
    ensures fits { (o : outside.Outside) → S.fits serial o → IfOk result (λ m. ⟦<StateParts<S> as Part>⟧.fits m o) }
    ensures table { IfOk result (λ m. ⟦<StateParts<S> as Part>⟧.table m ≡ tables_of config.now (S.table serial)) }
{
    let converters = Converters::new(alloc, AdcTable::new(config))?;
    Ok(Both {
        first: Both {
            first: Both {
                first: clock_part(config),
                second: Watchdog::new(WdgTable::new(config)),
            },
            second: Both {
                first: Pins::new(PortTable::new(config)),
                second: Timers::new(GptTable::new(config)),
            },
        },
        second: Both {
            first: Both {
                first: Pulses::new(PwmTable::new(config)),
                second: Captures::new(IcuTable::new(config)),
            },
            second: Both {
                first: converters,
                second: serial,
            },
        },
    })
}

/// The machines of all modules after power on, with the serial one.
pub(crate) fn after_power_on<S: Part + Drop>(
    alloc: Global,
    config: &Config,
    serial: S,
) -> Result<Machines<Hosted<StateParts<S>>>, AllocError>
    requires small { AreSmall config.now.adc }
    requires short { AreShort (sections.table_of config.now.mcu) }
    requires ports { ports.FitsDio (ports.table_of config.now.port config.now.dio) }
    requires fits { (o : outside.Outside) → S.fits serial o }
    ensures stands { (s : S.State) → S.stands serial s → IfOk result (λ m. ⟦<Hosted<StateParts<S>> as Part>⟧.stands m.modules (first_states s)) }
    ensures world { IfOk result (λ m. (devices : ℕ) → IsWorld m.outside (world_start devices)) }
    ensures fits { IfOk result (λ m. ⟦<Hosted<StateParts<S>> as Part>⟧.fits m.modules m.outside) }
    ensures table { IfOk result (λ m. ⟦<Hosted<StateParts<S>> as Part>⟧.table m.modules ≡ all_tables config.now (S.table serial)) }
    ensures places { IfOk result (λ m. m.places ≡ spec.places_of (pwm.table_of config.now.pwm)) }
    ensures start { IfOk result (λ m. (m.outside.told ≡ 0) × (m.outside.osc ≡ 0)) }
{
    let host = state_parts(alloc, config, serial)?;
    let outside = Outside::new(alloc)?;
    Ok(Machines {
        modules: Hosted {
            host,
            ports: Ports::new(DioTable::new(config)),
            outputs: outputs_of(config),
        },
        outside,
        places: places_of(&PwmTable::new(config)),
    })
}

ghost use Rattle.std.specs.Prelude.{◌≡◌, ◌≤◌, IfOk, length};
ghost use Rattle.audit_machines.specs.Requests.{has_service};
ghost use Rattle.audit_machines.specs.System.{all_tables};
ghost use Rattle.chip_model.specs.Chip.{power_on};
ghost use Rattle.config_facts.specs.Valid.{IsValid};
ghost use Rattle.report_audit.specs.Judged.{ArePoweredOn, CanAudit, IsFresh, IsPassed};
ghost use Rattle.report_modules.specs.Judged.{IsAudited, IsVerdict};
ghost use Rattle.script_runner.specs.Scripts as spec;
ghost use Rattle.spi_machine.specs.Table.{table_of};

use audit_base::Part;
use audit_machines::{AllModules, Machines};
use audit_subject::Subject;
use chip_model::Bus;
use mcal_base::{Config, Directive, NoMemory};
use report_audit::{Bench, Whole, tables_are_within};
use report_text::reading::Verdict;
use script_runner::words_given;
use std::alloc::Global;

/// The bench of a script at power on, with so many serial devices.
fn bench(
    alloc: Global,
    config: &Config,
    script: &[Directive],
    devices: usize,
) -> Result<Bench<AllModules>, NoMemory>
    requires valid { IsValid config.now }
    requires few { length script.now ≤ 50000 }
    ensures modules { IfOk result (λ bench. ArePoweredOn ⟦<AllModules as Subject>⟧.setting ⟦<AllModules as Part>⟧.table ⟦<AllModules as Part>⟧.stands ⟦<AllModules as Part>⟧.fits
        ⟦<AllModules as Whole>⟧.within (all_tables config.now (table_of config.now.spi)) bench.parts bench.outside) }
    ensures chip { IfOk result (λ bench. bench.bus ≡ power_on config.now (spec.words_given script.now)) }
    ensures fresh { IfOk result (λ bench. IsFresh bench.bus (spec.words_given script.now)) }
    ensures devices { IfOk result (λ bench. bench.devices ≡ devices) }
{
    tables_are_within();
    let machines = Machines::new(alloc, config)?;
    let bus = Bus::new(alloc, config, words_given(script))?;
    Ok(Bench {
        parts: machines.modules,
        outside: machines.outside,
        bus,
        devices,
    })
}

/// Judges the bytes of a report of a bench of all modules with so many serial devices: how many lines it has, where it is the
/// traced report of a legal run of the script; else the number, from 1, of the line with which what is refused first begins.
pub fn audit(
    alloc: Global,
    config: &Config,
    script: &[Directive],
    devices: usize,
    report: &[u8],
) -> Result<Verdict, NoMemory>
    requires valid { IsValid config.now }
    requires script { CanAudit has_service script.now }
    requires directives { length script.now ≤ 50000 }
    requires few { length report.now ≤ 268435456 }
    ensures is { IfOk result (λ verdict. IsVerdict devices config.now script.now report.now verdict) }
    ensures sound { IfOk result (λ verdict. IsPassed verdict → IsAudited devices config.now script.now report.now) }
    ensures complete { IsAudited devices config.now script.now report.now → IfOk result IsPassed }
{
    let bench = bench(alloc, config, script, devices)?;
    report_audit::audit(alloc, bench, config, script, report)
}

ghost use Rattle.std.specs.Prelude.{◌≡◌, List};
ghost use Rattle.chip_model.specs.Chip.{Chip};
ghost use Rattle.mcal_base.specs.declared.config.whole.Config.{Config};
ghost use Rattle.mcal_base.specs.declared.directive.Directive.{Directive};
ghost use Rattle.mcal_drivers.specs.Setting as system;
ghost use Rattle.mcal_drivers.specs.Setting.{system_setting};
ghost use Rattle.run_model.specs.Entry.{Entry};
ghost use Rattle.script_runner.specs.Scripts.{IsRun};
ghost use Rattle.spi_machine.specs.Table.{table_of};
ghost use Rattle.report_modules.specs.machines.Calls.{any_call};
ghost use Rattle.report_modules.specs.machines.Same.{IsSame};
ghost use Rattle.report_modules.specs.machines.System.{system_member};
ghost use Rattle.audit_machines.specs.Requests.{call_of};
ghost use Rattle.audit_machines.specs.System.{all_tables};

use audit_base::Part;
use audit_machines::AllModules;
use audit_subject::Subject;

/// The machine that the checker's programs are is the drivers' machine of all modules, call by call and line by line; and what
/// is a run of the one is a run of the other, with the same calls of the same requests.
pub fn the_checkers_machine_is_the_drivers()
    ensures machine { (c : Config) → ⟦<AllModules as Part>⟧.member (all_tables c (table_of c.spi)) ≡ system_member c }
    ensures same { (c : Config) → IsSame any_call (system_member c) (system_setting c).machine (system_setting c).used }
    ensures ours { (c : Config) (chip : Chip) (script : List Directive) (journal : List Entry) → IsRun (system_setting c) chip system.call_of script journal →
        IsRun (⟦<AllModules as Subject>⟧.setting (all_tables c (table_of c.spi))) chip call_of script journal }
    ensures theirs { (c : Config) (chip : Chip) (script : List Directive) (journal : List Entry) →
        IsRun (⟦<AllModules as Subject>⟧.setting (all_tables c (table_of c.spi))) chip call_of script journal → IsRun (system_setting c) chip system.call_of script journal }
{}

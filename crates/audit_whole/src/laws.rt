ghost use Rattle.std.specs.Prelude.{◌≡◌, ◌<◌, ℕ, List, Option, true};
ghost use Rattle.config_facts.specs.Valid.{IsValid};
ghost use Rattle.module_machines.specs.declared.dio.table.DioTable.{DioTable};
ghost use Rattle.mcal_base.specs.declared.config.whole.Config.{Config};
ghost use Rattle.mcal_base.specs.declared.directive.Request.{Request};
ghost use Rattle.mcal_base.specs.declared.moves.Move.TheVariants.{Read};
ghost use Rattle.mcal_base.specs.declared.register.Reg.TheVariants.{SerialWait};
ghost use Rattle.run_model.specs.Frame.{Origin};
ghost use Rattle.run_model.specs.World.{World};
ghost use Rattle.spi_machine.specs.State.{SpiState};
ghost use Rattle.spi_machine.specs.Table.{table_of};
ghost use Rattle.spi_machine.specs.declared.table.SpiTable.{SpiTable};
ghost use Rattle.audit_machines.specs.Requests.{call_of};
ghost use Rattle.audit_machines.specs.System.{SystemState, Tables, tables_of};
ghost use Rattle.audit_whole.specs.Whole.{AnyCall, InLimits};

use audit_base::Part;
use audit_machines::AllModules;
use audit_subject::Subject;

/// A frame waits for a serial unit that is there.
pub fn waits_are_there()
    ensures { (t : Tables SpiTable) (d : DioTable) (outputs : List (Option ℕ)) (o : Origin AnyCall) (u : ℕ) →
        (⟦<AllModules as Subject>⟧.setting (t, d, outputs)).may o (Read (SerialWait u)) ≡ true → u < 2 }
{}

/// A line that a configured object uses, and one that is due, is one of the 32 of a chip.
pub fn lines_are_few()
    ensures used { (t : Tables SpiTable) (d : DioTable) (outputs : List (Option ℕ)) (l : ℕ) →
        (⟦<AllModules as Part>⟧.member (t, d, outputs)).lines l ≡ true → l < 32 }
    ensures due { (t : Tables SpiTable) (d : DioTable) (outputs : List (Option ℕ)) (w : World) (s : SystemState SpiState) (l : ℕ) →
        (⟦<AllModules as Part>⟧.member (t, d, outputs)).machine.due w s l ≡ true → l < 32 }
{}

/// A channel that has a source array is one of the 16 of a chip, within its limits.
pub fn channels_are_few()
    ensures { (t : Tables SpiTable) (d : DioTable) (outputs : List (Option ℕ)) (c : ℕ) →
        InLimits t → (⟦<AllModules as Subject>⟧.setting (t, d, outputs)).fills c ≡ true → c < 16 }
{}

/// The call that a request asks for is one of the service that it names.
pub fn calls_serve()
    ensures { (t : Tables SpiTable) (d : DioTable) (outputs : List (Option ℕ)) (r : Request) →
        (⟦<AllModules as Part>⟧.member (t, d, outputs)).machine.service_of (call_of r) ≡ r.service }
{}

/// What is kept of a configuration that was read is within the chip's limits.
pub fn tables_are_within()
    ensures { (c : Config) → IsValid c → InLimits (tables_of c (table_of c.spi)) }
{}

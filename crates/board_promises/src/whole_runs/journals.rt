//! The promises over legal journals.

ghost use Rattle.std.specs.Prelude.{List, Bool, ℕ};
ghost use Rattle.chip_model.specs.Chip.{Chip};
ghost use Rattle.run_model.specs.Legal.{IsLegal};
ghost use Rattle.run_model.specs.Moment.{Transition, start_moment};
ghost use Rattle.step_runner.specs.Union.{union_setting};
ghost use Rattle.step_runner.specs.declared.either.Either.{Either};
ghost use Rattle.adc_machine.specs.Bounds.{adc_setting};
ghost use Rattle.adc_machine.specs.Machine.{adc_machine};
ghost use Rattle.adc_machine.specs.declared.call.Call as converter;
ghost use Rattle.adc_machine.specs.declared.table.AdcTable.{AdcTable};
ghost use Rattle.spi_machine.specs.Bounds.{spi_setting};
ghost use Rattle.spi_machine.specs.declared.call.Call as serial;
ghost use Rattle.spi_machine.specs.declared.table.SpiTable.{SpiTable};
ghost use Rattle.board_promises.specs.whole_runs.Members.{first_place, second_place};
ghost use Rattle.board_promises.specs.whole_runs.Promises.{journal_events, part_events, GroupsKeep, SequencesKeep, FramesSay};

/// In every legal journal of the converter driver, with handlers, nested calls and resets between any two steps, its
/// events keep what is promised of whole rounds. A call that ends prints the answer that its act told, and a frame that
/// ends has given each notice that its events told exactly once, in their order.
pub fn converter_journals()
    ensures rounds { (d : AdcTable) (chip : Chip) (ds : List (Transition converter.Call)) → IsLegal (adc_setting d) (start_moment (adc_setting d) chip) ds → GroupsKeep d (journal_events (adc_setting d) chip ds) }
    ensures frames { (d : AdcTable) (chip : Chip) (ds : List (Transition converter.Call)) → IsLegal (adc_setting d) (start_moment (adc_setting d) chip) ds → FramesSay (adc_setting d) chip ds }
{}

/// The same of the serial driver: one end for each request, the standard's order, and what frames say.
pub fn serial_journals()
    ensures ends { (d : SpiTable) (chip : Chip) (ds : List (Transition serial.Call)) → IsLegal (spi_setting d) (start_moment (spi_setting d) chip) ds → SequencesKeep d (journal_events (spi_setting d) chip ds) }
    ensures frames { (d : SpiTable) (chip : Chip) (ds : List (Transition serial.Call)) → IsLegal (spi_setting d) (start_moment (spi_setting d) chip) ds → FramesSay (spi_setting d) chip ds }
{}

/// Where both drivers are one, each keeps its promises: the journal of a union has a run of each member in it.
pub fn journals_of_both()
    ensures { (ours : ℕ → Bool) (d : AdcTable) (k : SpiTable) (chip : Chip) (ds : List (Transition (Either converter.Call serial.Call)))
        → IsLegal (union_setting ours (adc_setting d) (spi_setting k)) (start_moment (union_setting ours (adc_setting d) (spi_setting k)) chip) ds
        → GroupsKeep d (part_events (union_setting ours (adc_setting d) (spi_setting k)) (first_place ours (adc_machine d)) chip ds)
        × SequencesKeep k (part_events (union_setting ours (adc_setting d) (spi_setting k)) (second_place ours (adc_machine d)) chip ds) }
{}

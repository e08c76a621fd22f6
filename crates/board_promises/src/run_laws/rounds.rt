//! Which rounds are served.

ghost use Rattle.std.specs.Prelude.{List};
ghost use Rattle.adc_machine.specs.Machine.{adc_machine};
ghost use Rattle.adc_machine.specs.Turns.{first_state};
ghost use Rattle.adc_machine.specs.declared.call.Call.{Call};
ghost use Rattle.adc_machine.specs.declared.table.AdcTable.{AdcTable};
ghost use Rattle.board_promises.specs.whole_runs.Runs.{Event, AreAllowed};
ghost use Rattle.board_promises.specs.run_laws.Rounds.{AreServedRight};

/// In every run a round of a group that isn't continuous is served for a request since which no other round of the group
/// was served: a request serves one round. And each round that is served was finished: 4 ticks for each of the inputs
/// that it had to convert have passed since its start.
pub fn rounds_that_are_served()
    ensures { (d : AdcTable) (past : List (Event Call)) → AreAllowed (adc_machine d) first_state past → AreServedRight d past }
{}

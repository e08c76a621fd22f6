//! Whole rounds of the converter groups.

ghost use Rattle.std.specs.Prelude.{List};
ghost use Rattle.adc_machine.specs.Machine.{adc_machine};
ghost use Rattle.adc_machine.specs.Turns.{first_state};
ghost use Rattle.adc_machine.specs.declared.call.Call.{Call};
ghost use Rattle.adc_machine.specs.declared.table.AdcTable.{AdcTable};
ghost use Rattle.board_promises.specs.whole_runs.GroupRuns.{seen_of};
ghost use Rattle.board_promises.specs.whole_runs.Rounds.{AreWhole};
ghost use Rattle.board_promises.specs.whole_runs.Runs.{Event, AreAllowed};

/// In every run an `E_OK` of `Adc_ReadGroup` hands out the newest served round of its group, all its values from one
/// round. A place of a group's buffers takes a value, and a group gets a newest round, only by the serving of a round
/// that was started for a request of that group, since which it was neither stopped nor its trigger disabled. Apart from
/// that only a reset changes a place, to 0, and only a start, the enabling of a trigger, `Adc_Init`, `Adc_DeInit` and a
/// reset leave a group without its newest round.
pub fn rounds_are_whole()
    ensures { (d : AdcTable) (past : List (Event Call)) → AreAllowed (adc_machine d) first_state past → AreWhole d (seen_of d past) }
{}

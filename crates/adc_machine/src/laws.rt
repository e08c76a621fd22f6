//! Laws of the machine of the converter groups.

ghost use Rattle.std.specs.Prelude.{◌≡◌, ◌≢◌, ◌+◌, ◌-◌, ◌<◌, ◌≤◌, ◌++◌, ◌∷◌, [], ℕ, false, true, List, Option, Some, None, IsSome, length};
ghost use Rattle.mcal_base.specs.declared.directive.Reason.{Reason};
ghost use Rattle.mcal_base.specs.declared.moves.Unit as units;
ghost use Rattle.run_model.specs.Machine.{Happening, Acts, Serves, Aborts, Restarts, Outcome, ErrorLeaves, outcome, tells_nothing};
ghost use Rattle.run_model.specs.World.{World};
ghost use Rattle.adc_machine.specs.Groups.{Round, Completed, StreamCompleted, is_finished, is_continuous, is_full, place_in, values_of, ended_values, samples_of};
ghost use Rattle.adc_machine.specs.Laws.{HasValues, HasEnded, IsNext, IsStored, StoresNothing, MakesNoRequest, IsNumbered, HasRequested, IsNoReset, IsAborted, IsStopped, IsRead, IsCleared, IsAtRest, Step, state_after};
ghost use Rattle.adc_machine.specs.Machine.{acts, happens, ready, is_unit_line, is_trigger_line};
ghost use Rattle.adc_machine.specs.Table.{group_of};
ghost use Rattle.adc_machine.specs.Triggers.{listener, with_mark};
ghost use Rattle.adc_machine.specs.Turns.{AdcState, first_state, group_at, round_at, number_of, next_group, waits_for, has_turn};
ghost use Rattle.adc_machine.specs.declared.call.Call.{Call};
ghost use Rattle.adc_machine.specs.declared.call.Call.TheVariants as calls;
ghost use Rattle.adc_machine.specs.declared.call.GroupCall.{GroupCall};
ghost use Rattle.adc_machine.specs.declared.call.GroupCall.TheVariants.{StartGroupConversion, StopGroupConversion, ReadGroup, DisableHardwareTrigger, GetStreamLastPointer};
ghost use Rattle.adc_machine.specs.declared.call.ResultBuffer.{ResultBuffer};
ghost use Rattle.adc_machine.specs.declared.table.AdcTable.{AdcTable};
ghost use Rattle.adc_machine.specs.declared.table.Group.{Group};

/// An act that finds an error leaves the state and gives no notice. An act is always allowed.
pub fn acts_are_allowed()
    ensures error { (d : AdcTable) (s : AdcState) (call : Call) → ErrorLeaves s (acts d s call) }
    ensures allowed { (d : AdcTable) (w : World) (s : AdcState) (call : Call) (times : ℕ → ℕ) → IsSome (happens d w s (Acts call times)) }
{}

/// A reset is always allowed and gives the first state. No line is ready while the module is uninitialised.
pub fn resets_and_lines()
    ensures reset { (d : AdcTable) (w : World) (s : AdcState) (reason : Reason) → happens d w s (Restarts reason) ≡ Some (outcome first_state tells_nothing) }
    ensures off { (d : AdcTable) (w : World) (s : AdcState) (line : ℕ) → s.initialised ≡ false → ready d w s line ≡ false }
{}

/// A round's values are those that it began with and the levels of its further inputs, each 4 ticks after the one before.
pub fn values_of_rounds()
    ensures whole { (w : World) (k : Option Group) (r : Round) → HasValues w k r (values_of w k r) }
    ensures ended { (w : World) (k : Option Group) (r : Round) → HasEnded w k r (ended_values w k r) }
{}

/// A finished round is never aborted.
pub fn finished_rounds_stay()
    ensures { (d : AdcTable) (w : World) (s : AdcState) (unit : units.Unit) (u : ℕ) (r : Round) → number_of unit ≡ Some u → round_at s u ≡ Some r
        → is_finished w (group_of d r.group) r ≡ true → happens d w s (Aborts unit) ≡ None }
{}

/// The next request of a unit has the highest priority among those that wait, and among equals the least number.
pub fn next_requests()
    ensures next { (d : AdcTable) (s : AdcState) (u g : ℕ) → next_group d s u ≡ Some g → IsNext d s u g }
    ensures none { (d : AdcTable) (s : AdcState) (u g : ℕ) → next_group d s u ≡ None → waits_for d s u g ≡ false }
{}

/// A serving of a unit's line puts exactly the round's values at its places, and changes no other place; they are the
/// newest round of the group. A place changes only by such a serving or a reset, so that a stop leaves what is stored.
pub fn places_that_change()
    ensures serving { (d : AdcTable) (w : World) (s : AdcState) (line received : ℕ) (r : Round) (b : ResultBuffer) (out : Outcome AdcState) → is_unit_line line ≡ true
        → round_at s (line - 24) ≡ Some r → (group_at s r.group).chosen ≡ Some b → 0 < samples_of (group_of d r.group) → happens d w s (Serves line received) ≡ Some out
        → IsStored (group_of d r.group) (length (group_at s r.group).rounds) r.group b (values_of w (group_of d r.group) r) s.results out.state.results }
    ensures newest { (d : AdcTable) (w : World) (s : AdcState) (line received : ℕ) (r : Round) (out : Outcome AdcState) → is_unit_line line ≡ true → round_at s (line - 24) ≡ Some r
        → r.group < 16 → happens d w s (Serves line received) ≡ Some out → (group_at out.state r.group).rounds ≡ (group_at s r.group).rounds ++ values_of w (group_of d r.group) r ∷ [] }
    ensures others { (d : AdcTable) (w : World) (s : AdcState) (h : Happening Call) (out : Outcome AdcState) → happens d w s h ≡ Some out → StoresNothing h → out.state.results ≡ s.results }
{}

/// A request gets a number greater by one than all before, by a start without an error or by the serving of a
/// trigger's line whose group has no turn. Where the group has one, that serving drops the mark only. Nothing else makes
/// a request.
pub fn requests_get_greater_numbers()
    ensures start { (d : AdcTable) (w : World) (s : AdcState) (g : ℕ) (times : ℕ → ℕ) (out : Outcome AdcState) → g < 16 → happens d w s (Acts (calls.Group g StartGroupConversion) times) ≡ Some out
        → out.told.error ≡ None → HasRequested s out.state g }
    ensures trigger { (d : AdcTable) (w : World) (s : AdcState) (line received g : ℕ) (out : Outcome AdcState) → g < 16 → is_trigger_line line ≡ true → listener d s (line - 28) ≡ Some g
        → has_turn s g ≡ false → happens d w s (Serves line received) ≡ Some out → HasRequested s out.state g }
    ensures mark { (d : AdcTable) (w : World) (s : AdcState) (line received g : ℕ) (out : Outcome AdcState) → is_trigger_line line ≡ true → listener d s (line - 28) ≡ Some g
        → has_turn s g ≡ true → happens d w s (Serves line received) ≡ Some out → out.state ≡ with_mark s (line - 28) false }
    ensures first { IsNumbered first_state }
    ensures known { (d : AdcTable) (w : World) (s : AdcState) (h : Happening Call) (out : Outcome AdcState) → IsNumbered s → happens d w s h ≡ Some out → IsNumbered out.state }
    ensures kept { (d : AdcTable) (w : World) (s : AdcState) (h : Happening Call) (out : Outcome AdcState) → happens d w s h ≡ Some out → MakesNoRequest h → out.state.requests ≡ s.requests }
    ensures grows { (d : AdcTable) (w : World) (s : AdcState) (h : Happening Call) (out : Outcome AdcState) → happens d w s h ≡ Some out → IsNoReset h → s.requests ≤ out.state.requests }
{}

/// An aborted round under suspend and resume keeps exactly the values that had ended.
pub fn aborted_rounds_keep_values()
    ensures { (d : AdcTable) (w : World) (s : AdcState) (unit : units.Unit) (u : ℕ) (r : Round) (out : Outcome AdcState) → number_of unit ≡ Some u → round_at s u ≡ Some r → r.group < 16
        → happens d w s (Aborts unit) ≡ Some out → IsAborted d w u r out.state }
{}

/// Whatever happened since power on, while the module is uninitialised no request waits, no trigger is enabled, no
/// unit has a round, and no mark stands.
pub fn uninitialised_modules_rest()
    ensures { (d : AdcTable) (steps : List Step) → (state_after d first_state steps).initialised ≡ false → IsAtRest (state_after d first_state steps) }
{}

/// A round that goes to the last place of its stream completes the stream, and one after that leaves it completed. After
/// any other one the group is completed. A continuous group whose stream isn't full waits again with its number.
pub fn groups_after_a_round()
    ensures last { (d : AdcTable) (w : World) (s : AdcState) (line received : ℕ) (r : Round) (out : Outcome AdcState) → is_unit_line line ≡ true → round_at s (line - 24) ≡ Some r → r.group < 16 → happens d w s (Serves line received) ≡ Some out
        → place_in (group_of d r.group) (length (group_at s r.group).rounds) + 1 ≡ samples_of (group_of d r.group) → (group_at out.state r.group).status ≡ StreamCompleted }
    ensures again { (d : AdcTable) (w : World) (s : AdcState) (line received : ℕ) (r : Round) (out : Outcome AdcState) → is_unit_line line ≡ true → round_at s (line - 24) ≡ Some r → r.group < 16 → happens d w s (Serves line received) ≡ Some out
        → (group_at s r.group).status ≡ StreamCompleted → (group_at out.state r.group).status ≡ StreamCompleted }
    ensures other { (d : AdcTable) (w : World) (s : AdcState) (line received : ℕ) (r : Round) (out : Outcome AdcState) → is_unit_line line ≡ true → round_at s (line - 24) ≡ Some r → r.group < 16 → happens d w s (Serves line received) ≡ Some out
        → place_in (group_of d r.group) (length (group_at s r.group).rounds) + 1 ≢ samples_of (group_of d r.group) → (group_at s r.group).status ≢ StreamCompleted → (group_at out.state r.group).status ≡ Completed }
    ensures number { (d : AdcTable) (w : World) (s : AdcState) (line received : ℕ) (r : Round) (out : Outcome AdcState) → is_unit_line line ≡ true → round_at s (line - 24) ≡ Some r → r.group < 16 → happens d w s (Serves line received) ≡ Some out
        → is_continuous (group_of d r.group) ≡ true → is_full (group_of d r.group) (length (group_at s r.group).rounds + 1) ≡ false → (group_at out.state r.group).waiting ≡ Some (record { number = r.request.number; kept = [] }) }
{}

/// A stop and the disabling of a trigger leave the group idle, with nothing under way.
pub fn stops_leave_nothing_under_way()
    ensures stop { (d : AdcTable) (s : AdcState) (g : ℕ) → g < 16 → (acts d s (calls.Group g StopGroupConversion)).told.error ≡ None → IsStopped d g s (acts d s (calls.Group g StopGroupConversion)).state }
    ensures disable { (d : AdcTable) (s : AdcState) (g : ℕ) → g < 16 → (acts d s (calls.Group g DisableHardwareTrigger)).told.error ≡ None → IsStopped d g s (acts d s (calls.Group g DisableHardwareTrigger)).state }
{}

/// A read and the question for the pointer change the status in the same way.
pub fn reads_change_the_status()
    ensures read { (d : AdcTable) (s : AdcState) (g : ℕ) → g < 16 → (acts d s (calls.Group g ReadGroup)).told.error ≡ None → IsRead d g s (acts d s (calls.Group g ReadGroup)).state }
    ensures pointer { (d : AdcTable) (s : AdcState) (g : ℕ) → g < 16 → (acts d s (calls.Group g GetStreamLastPointer)).told.error ≡ None → IsRead d g s (acts d s (calls.Group g GetStreamLastPointer)).state }
{}

/// `Adc_Init` leaves every group untouched, and `Adc_DeInit` keeps nothing of it but the chosen buffer. Stored results stay.
pub fn groups_are_cleared()
    ensures init { (d : AdcTable) (s : AdcState) → (acts d s calls.Init).told.error ≡ None → IsCleared false s (acts d s calls.Init).state }
    ensures begun { (d : AdcTable) (s : AdcState) → (acts d s calls.Init).told.error ≡ None → (acts d s calls.Init).state.initialised ≡ true }
    ensures deinit { (d : AdcTable) (s : AdcState) → (acts d s calls.DeInit).told.error ≡ None → IsCleared true s (acts d s calls.DeInit).state }
    ensures ended { (d : AdcTable) (s : AdcState) → (acts d s calls.DeInit).told.error ≡ None → (acts d s calls.DeInit).state.initialised ≡ false }
{}

/// A call about a group leaves every other group as it is, and so the round that a unit has of it.
pub fn calls_leave_other_groups()
    ensures groups { (d : AdcTable) (s : AdcState) (g other : ℕ) (call : GroupCall) → other < 16 → other ≢ g → group_at (acts d s (calls.Group g call)).state other ≡ group_at s other }
    ensures rounds { (d : AdcTable) (s : AdcState) (g u : ℕ) (call : GroupCall) (r : Round) → u < 2 → r.group ≢ g → round_at s u ≡ Some r → round_at (acts d s (calls.Group g call)).state u ≡ Some r }
{}

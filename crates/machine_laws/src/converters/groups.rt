//! Converter groups: their notices, the answer for the pointer, full streams, triggers, what is busy, and aborts.

ghost use Rattle.std.specs.Prelude.{◌≡◌, ◌≢◌, ◌↔◌, ◌⊎◌, ◌+◌, ◌-◌, ◌%◌, ◌<◌, ◌≤◌, ◌∷◌, [], min, ℕ, Bool, true, false, cond, length, List, Some, None, IsSome};
ghost use Rattle.std.specs.List.{list_all};
ghost use Rattle.mcal_base.specs.declared.directive.Order.{Order};
ghost use Rattle.mcal_base.specs.declared.directive.Order.TheVariants.{Trigger};
ghost use Rattle.mcal_base.specs.declared.error_name.ErrorName.TheVariants.{AdcBusy};
ghost use Rattle.mcal_base.specs.declared.moves.Unit as units;
ghost use Rattle.run_model.specs.Machine.{Happening, Serves, Aborts, Moves, Outcome, numbers};
ghost use Rattle.run_model.specs.World.{World};
ghost use Rattle.adc_machine.specs.Checks.{zero_null};
ghost use Rattle.adc_machine.specs.Groups.{Round, Busy, is_finished, is_linear_stream, samples_of, trigger_input};
ghost use Rattle.adc_machine.specs.Laws.{Step, state_after};
ghost use Rattle.adc_machine.specs.Machine.{acts, happens, is_unit_line};
ghost use Rattle.adc_machine.specs.Table.{group_of};
ghost use Rattle.adc_machine.specs.Triggers.{listens, mark_at};
ghost use Rattle.adc_machine.specs.Turns.{AdcState, group_at, round_at, number_of};
ghost use Rattle.adc_machine.specs.declared.call.Call.{Call};
ghost use Rattle.adc_machine.specs.declared.call.Call.TheVariants.{Init, DeInit, Group};
ghost use Rattle.adc_machine.specs.declared.call.GroupCall.{GroupCall};
ghost use Rattle.adc_machine.specs.declared.call.GroupCall.TheVariants.{StartGroupConversion, StopGroupConversion, EnableHardwareTrigger, DisableHardwareTrigger, Notification, GetStreamLastPointer};
ghost use Rattle.adc_machine.specs.declared.call.ResultBuffer.{ResultBuffer};
ghost use Rattle.adc_machine.specs.declared.table.AdcTable.{AdcTable};
ghost use Rattle.adc_machine.specs.declared.table.Group as configured;
ghost use Rattle.machine_laws.specs.converters.GroupRuns.{leaves_notification, leaves_stream, rounds_served, one_notice, ServesNoUnit, IsUnderWay, IsTaken, IsOutranked};

/// The serving of a group's round gives its notice exactly where its notification was switched on last, and it is off
/// after a stop and after `Adc_Init`. Nothing else gives a notice.
pub fn notices_of_rounds()
    ensures switched { (d : AdcTable) (w : World) (s : AdcState) (g line received : ℕ) (on : Bool) (r : Round) (out : Outcome AdcState) (run : List Step)
        → (acts d s (Group g (Notification on))).told.error ≡ None → g < 16 → list_all (λ (x : Step). leaves_notification g x.happening) run ≡ true
        → let end = state_after d (acts d s (Group g (Notification on))).state run in
        is_unit_line line ≡ true → round_at end (line - 24) ≡ Some r → r.group ≡ g → happens d w end (Serves line received) ≡ Some out
        → out.told.notices ≡ cond on (one_notice g) [] }
    ensures stopped { (d : AdcTable) (w : World) (s : AdcState) (g line received : ℕ) (r : Round) (out : Outcome AdcState) (run : List Step)
        → (acts d s (Group g StopGroupConversion)).told.error ≡ None → g < 16 → list_all (λ (x : Step). leaves_notification g x.happening) run ≡ true
        → let end = state_after d (acts d s (Group g StopGroupConversion)).state run in
        is_unit_line line ≡ true → round_at end (line - 24) ≡ Some r → r.group ≡ g → happens d w end (Serves line received) ≡ Some out
        → out.told.notices ≡ [] }
    ensures disabled { (d : AdcTable) (w : World) (s : AdcState) (g line received : ℕ) (r : Round) (out : Outcome AdcState) (run : List Step)
        → (acts d s (Group g DisableHardwareTrigger)).told.error ≡ None → g < 16 → list_all (λ (x : Step). leaves_notification g x.happening) run ≡ true
        → let end = state_after d (acts d s (Group g DisableHardwareTrigger)).state run in
        is_unit_line line ≡ true → round_at end (line - 24) ≡ Some r → r.group ≡ g → happens d w end (Serves line received) ≡ Some out
        → out.told.notices ≡ [] }
    ensures initial { (d : AdcTable) (w : World) (s : AdcState) (g line received : ℕ) (r : Round) (out : Outcome AdcState) (run : List Step)
        → (acts d s Init).told.error ≡ None → g < 16 → list_all (λ (x : Step). leaves_notification g x.happening) run ≡ true
        → let end = state_after d (acts d s Init).state run in
        is_unit_line line ≡ true → round_at end (line - 24) ≡ Some r → r.group ≡ g → happens d w end (Serves line received) ≡ Some out
        → out.told.notices ≡ [] }
    ensures others { (d : AdcTable) (w : World) (s : AdcState) (h : Happening Call) (out : Outcome AdcState)
        → happens d w s h ≡ Some out → ServesNoUnit h → out.told.notices ≡ [] }
{}

/// The answer for the pointer of a group that isn't busy is how many of the rounds that were served since its start the
/// buffer holds, and the place of the newest one. Of a busy group it is `0 null`.
pub fn pointers_by_rounds()
    ensures started { (d : AdcTable) (s : AdcState) (g : ℕ) (run : List Step)
        → (acts d s (Group g StartGroupConversion)).told.error ≡ None → g < 16 → list_all (λ (x : Step). leaves_stream g x.happening) run ≡ true
        → let first = (acts d s (Group g StartGroupConversion)).state in
        let end = state_after d first run in
        let n = rounds_served d first g run in
        (acts d end (Group g GetStreamLastPointer)).told.error ≡ None → (group_at end g).status ≢ Busy
        → (acts d end (Group g GetStreamLastPointer)).told.answer ≡ numbers (min n (samples_of (group_of d g)) ∷ (n - 1) % samples_of (group_of d g) ∷ []) }
    ensures enabled { (d : AdcTable) (s : AdcState) (g : ℕ) (run : List Step)
        → (acts d s (Group g EnableHardwareTrigger)).told.error ≡ None → g < 16 → list_all (λ (x : Step). leaves_stream g x.happening) run ≡ true
        → let first = (acts d s (Group g EnableHardwareTrigger)).state in
        let end = state_after d first run in
        let n = rounds_served d first g run in
        (acts d end (Group g GetStreamLastPointer)).told.error ≡ None → (group_at end g).status ≢ Busy
        → (acts d end (Group g GetStreamLastPointer)).told.answer ≡ numbers (min n (samples_of (group_of d g)) ∷ (n - 1) % samples_of (group_of d g) ∷ []) }
    ensures busy { (d : AdcTable) (s : AdcState) (g : ℕ)
        → (group_at s g).status ≡ Busy → (acts d s (Group g GetStreamLastPointer)).told.answer ≡ zero_null }
{}

/// A linear stream that is full with a round makes no further request, its trigger is off, and its input has no mark.
pub fn full_streams_rest()
    ensures trigger { (d : AdcTable) (w : World) (s : AdcState) (line received : ℕ) (r : Round) (out : Outcome AdcState)
        → happens d w s (Serves line received) ≡ Some out → is_unit_line line ≡ true → round_at s (line - 24) ≡ Some r → r.group < 16
        → is_linear_stream (group_of d r.group) ≡ true → samples_of (group_of d r.group) ≤ length (group_at s r.group).rounds + 1
        → (group_at out.state r.group).trigger ≡ false }
    ensures waiting { (d : AdcTable) (w : World) (s : AdcState) (line received : ℕ) (r : Round) (out : Outcome AdcState)
        → happens d w s (Serves line received) ≡ Some out → is_unit_line line ≡ true → round_at s (line - 24) ≡ Some r → r.group < 16
        → is_linear_stream (group_of d r.group) ≡ true → samples_of (group_of d r.group) ≤ length (group_at s r.group).rounds + 1
        → (group_at out.state r.group).waiting ≡ (group_at s r.group).waiting }
    ensures mark { (d : AdcTable) (w : World) (s : AdcState) (line received input : ℕ) (r : Round) (out : Outcome AdcState)
        → happens d w s (Serves line received) ≡ Some out → is_unit_line line ≡ true → round_at s (line - 24) ≡ Some r
        → is_linear_stream (group_of d r.group) ≡ true → samples_of (group_of d r.group) ≤ length (group_at s r.group).rounds + 1
        → trigger_input (group_of d r.group) ≡ Some input → mark_at out.state input ≡ false }
{}

/// A pulse leaves a mark on its input where a group with that input has its trigger enabled, and else changes nothing. No
/// other move of the hardware changes anything.
pub fn marks_of_pulses()
    ensures marks { (d : AdcTable) (w : World) (s : AdcState) (input g : ℕ) (out : Outcome AdcState)
        → happens d w s (Moves (Trigger input)) ≡ Some out → input < 4 → g < 16 → listens d s input g ≡ true
        → mark_at out.state input ≡ true }
    ensures ignored { (d : AdcTable) (w : World) (s : AdcState) (input : ℕ) (out : Outcome AdcState)
        → happens d w s (Moves (Trigger input)) ≡ Some out → ((g : ℕ) → listens d s input g ≡ false)
        → out.state ≡ s }
    ensures others { (d : AdcTable) (w : World) (s : AdcState) (order : Order) (out : Outcome AdcState)
        → happens d w s (Moves order) ≡ Some out → ((input : ℕ) → order ≢ Trigger input)
        → out.state ≡ s }
{}

/// A group that may be started otherwise is found busy exactly where it is under way, or where its unit takes one group
/// at a time and has one under way. `Adc_DeInit` finds the module busy exactly where a group is under way.
pub fn busy_while_under_way()
    ensures started { (d : AdcTable) (s : AdcState) (g : ℕ) (k : configured.Group) (b : ResultBuffer)
        → s.initialised ≡ true → group_of d g ≡ Some k → k.trigger ≡ None → (group_at s g).chosen ≡ Some b
        → ((acts d s (Group g StartGroupConversion)).told.error ≡ Some AdcBusy) ↔ (IsUnderWay s g ⊎ IsTaken d s k.unit) }
    ensures enabled { (d : AdcTable) (s : AdcState) (g input : ℕ) (k : configured.Group) (b : ResultBuffer)
        → s.initialised ≡ true → group_of d g ≡ Some k → k.trigger ≡ Some input → (group_at s g).chosen ≡ Some b
        → ((acts d s (Group g EnableHardwareTrigger)).told.error ≡ Some AdcBusy) ↔ (IsUnderWay s g ⊎ IsTaken d s k.unit) }
    ensures deinitialised { (d : AdcTable) (s : AdcState) (g : ℕ)
        → s.initialised ≡ true → g < 16 → IsUnderWay s g → (acts d s DeInit).told.error ≡ Some AdcBusy }
{}

/// A round is aborted only where a request for the same unit waits whose priority is strictly higher; where the round
/// isn't finished, such a request may abort it. Where priorities don't count none is aborted.
pub fn aborts_by_higher_priority_alone()
    ensures outranked { (d : AdcTable) (w : World) (s : AdcState) (unit : units.Unit) (u : ℕ) (r : Round) (out : Outcome AdcState)
        → happens d w s (Aborts unit) ≡ Some out → number_of unit ≡ Some u → round_at s u ≡ Some r → IsOutranked d s u r.group }
    ensures allowed { (d : AdcTable) (w : World) (s : AdcState) (unit : units.Unit) (u : ℕ) (r : Round)
        → number_of unit ≡ Some u → round_at s u ≡ Some r → is_finished w (group_of d r.group) r ≡ false → IsOutranked d s u r.group
        → IsSome (happens d w s (Aborts unit)) }
    ensures equal { (d : AdcTable) (w : World) (s : AdcState) (unit : units.Unit)
        → d.priorities ≡ false → happens d w s (Aborts unit) ≡ None }
{}

//! Rounds of the converter block: their inputs, how many have ended, an abort, and results of inputs that never end.

ghost use Rattle.std.specs.Prelude.{◌≡◌, ◌+◌, ◌*◌, ◌/◌, ◌%◌, ◌^◌, ◌<◌, ◌≤◌, ℕ, List, length};
ghost use Rattle.std.specs.List.{AllByRecursion};
ghost use Rattle.mcal_base.specs.declared.register.Reg.TheVariants.{ConverterList, ConverterGo, ConverterState, ConverterResult, ConverterDone, ConverterAbort};
ghost use Rattle.chip_blocks.specs.converter.Rounds.{input_of};
ghost use Rattle.chip_blocks.specs.converter.Converters.{Converters, unit_at, read_of, after_read, after_write};
ghost use Rattle.chip_blocks.specs.converter.Accesses.{Access, after_all, LeavesRound, LeavesResults, round_at, HasUnit};
ghost use Rattle.machine_laws.specs.converters.Histories.{LeavesList};

/// The inputs of a round are those that the list registers named as it began, four in a register, the lowest byte first,
/// whatever is written there since.
pub fn inputs_as_listed()
    ensures { (b : Converters) (u place value count n : ℕ) (before history : List Access)
        → HasUnit b u → place < length (unit_at b u).list → n < 4 → 1 ≤ count → count ≤ 32
        → AllByRecursion (LeavesList u place) before → AllByRecursion (LeavesRound u) history
        → let there = after_all (after_write b (ConverterList u place) value) before in
        read_of there (ConverterState u) ≡ 0
        → input_of (round_at (after_all (after_write there (ConverterGo u) count) history) u) (4 * place + n)
        ≡ value / 2 ^ (8 * n) % 256 }
{}

/// While a round goes on, `DONE` counts an input more each 4 ticks, up to all of them, and the state is running until
/// then and finished from then on.
pub fn rounds_by_times()
    ensures done { (b : Converters) (u count n : ℕ) (history : List Access)
        → HasUnit b u → read_of b (ConverterState u) ≡ 0 → 1 ≤ count → count ≤ 32 → AllByRecursion (LeavesRound u) history
        → let end = after_all (after_write b (ConverterGo u) count) history in
        n < count → b.time + 4 * n ≤ end.time → end.time < b.time + 4 * (n + 1)
        → read_of end (ConverterDone u) ≡ n }
    ensures all { (b : Converters) (u count : ℕ) (history : List Access)
        → HasUnit b u → read_of b (ConverterState u) ≡ 0 → 1 ≤ count → count ≤ 32 → AllByRecursion (LeavesRound u) history
        → let end = after_all (after_write b (ConverterGo u) count) history in
        b.time + 4 * count ≤ end.time
        → read_of end (ConverterDone u) ≡ count }
    ensures runs { (b : Converters) (u count : ℕ) (history : List Access)
        → HasUnit b u → read_of b (ConverterState u) ≡ 0 → 1 ≤ count → count ≤ 32 → AllByRecursion (LeavesRound u) history
        → let end = after_all (after_write b (ConverterGo u) count) history in
        end.time < b.time + 4 * count
        → read_of end (ConverterState u) ≡ 1 }
    ensures finished { (b : Converters) (u count : ℕ) (history : List Access)
        → HasUnit b u → read_of b (ConverterState u) ≡ 0 → 1 ≤ count → count ≤ 32 → AllByRecursion (LeavesRound u) history
        → let end = after_all (after_write b (ConverterGo u) count) history in
        b.time + 4 * count ≤ end.time
        → read_of end (ConverterState u) ≡ 2 }
{}

/// A read of `ABORT` gives 1 exactly where the unit runs. The unit is idle from then on, until its next start, and `DONE`
/// stays what it was.
pub fn aborts_stop_a_round()
    ensures one { (b : Converters) (u : ℕ)
        → read_of b (ConverterState u) ≡ 1 → read_of b (ConverterAbort u) ≡ 1 }
    ensures idle { (b : Converters) (u : ℕ)
        → read_of b (ConverterState u) ≡ 0 → read_of b (ConverterAbort u) ≡ 0 }
    ensures finished { (b : Converters) (u : ℕ)
        → read_of b (ConverterState u) ≡ 2 → read_of b (ConverterAbort u) ≡ 0 }
    ensures stops { (b : Converters) (u : ℕ) (history : List Access)
        → HasUnit b u → read_of b (ConverterState u) ≡ 1 → AllByRecursion (LeavesResults u) history
        → read_of (after_all (after_read b (ConverterAbort u)) history) (ConverterState u) ≡ 0 }
    ensures done { (b : Converters) (u : ℕ) (history : List Access)
        → HasUnit b u → read_of b (ConverterState u) ≡ 1 → AllByRecursion (LeavesResults u) history
        → read_of (after_all (after_read b (ConverterAbort u)) history) (ConverterDone u) ≡ read_of b (ConverterDone u) }
{}

/// The result of an input that a round doesn't have, and of one that hadn't ended as the round was aborted, stays what an
/// earlier round left, until the unit's next round.
pub fn results_of_inputs_that_never_end()
    ensures past { (b : Converters) (u i count : ℕ) (history : List Access)
        → HasUnit b u → read_of b (ConverterState u) ≡ 0 → 1 ≤ count → count ≤ 32 → count ≤ i → i < 32
        → AllByRecursion (LeavesResults u) history
        → read_of (after_all (after_write b (ConverterGo u) count) history) (ConverterResult u i) ≡ read_of b (ConverterResult u i) }
    ensures aborted { (b : Converters) (u i count : ℕ) (before history : List Access)
        → HasUnit b u → read_of b (ConverterState u) ≡ 0 → 1 ≤ count → count ≤ 32 → i < 32
        → AllByRecursion (LeavesResults u) before → AllByRecursion (LeavesResults u) history
        → let there = after_all (after_write b (ConverterGo u) count) before in
        there.time < b.time + 4 * (i + 1) → read_of there (ConverterState u) ≡ 1
        → read_of (after_all (after_read there (ConverterAbort u)) history) (ConverterResult u i) ≡ read_of b (ConverterResult u i) }
{}

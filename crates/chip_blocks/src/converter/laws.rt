//! What the block's accesses come to, over every history.

ghost use Rattle.std.specs.Prelude.{◌≡◌, ℕ, ◌+◌, ◌*◌, ◌<◌, ◌≤◌, true, false, List};
ghost use Rattle.std.specs.List.{AllByRecursion};
ghost use Rattle.mcal_base.specs.Bits.{has_bit};
ghost use Rattle.mcal_base.specs.declared.register.Reg.TheVariants.{ConverterGo, ConverterAbort, ConverterResult};
ghost use Rattle.chip_blocks.specs.converter.Rounds.{input_of, is_idle, is_finished, is_running};
ghost use Rattle.chip_blocks.specs.converter.Converters.{Converters, level_at, flags_of, read_of, after_read, after_write, after_pulse, ticked};
ghost use Rattle.chip_blocks.specs.converter.Accesses.{Access, after_all, LeavesFinished, LeavesRound, LeavesResults, round_at, ends_at, HasUnit, Converts};

/// The result of an input is the level that the input had before the tick in which it ended. It stays, whatever
/// is set, read or written since, an abort and an acknowledgement included, until the unit's next round.
pub fn result_when_ended()
    ensures { (b : Converters) (u i n : ℕ) (before history : List Access)
        → Converts b u i → AllByRecursion (LeavesRound u) before → AllByRecursion (LeavesResults u) history
        → let there = after_all b before in
        let round = round_at b u in
        there.time < ends_at round i → ends_at round i ≤ there.time + n
        → read_of (after_all (ticked there n) history) (ConverterResult u i)
        ≡ level_at there.levels (input_of round i) }
{}

/// Until an input of a round has ended, its result reads what stood there when the round began, which an earlier
/// round left.
pub fn result_until_ended()
    ensures { (b : Converters) (u i count : ℕ) (history : List Access)
        → HasUnit b u → is_idle (round_at b u) ≡ true → 1 ≤ count → count ≤ 32 → i < 32
        → AllByRecursion (LeavesResults u) history
        → let end = after_all (after_write b (ConverterGo u) count) history in
        end.time < b.time + 4 * (i + 1)
        → read_of end (ConverterResult u i) ≡ read_of b (ConverterResult u i) }
{}

/// A finished round stays finished until it is acknowledged: no time, no start, no abort and no event takes it
/// away.
pub fn finished_until_acknowledged()
    ensures { (b : Converters) (u : ℕ) (history : List Access)
        → HasUnit b u → is_finished (round_at b u) b.time ≡ true → AllByRecursion (LeavesFinished u) history
        → is_finished (round_at (after_all b history) u) (after_all b history).time ≡ true }
{}

/// A start of a unit that isn't idle, and an abort of one that doesn't run, change nothing.
pub fn what_does_nothing()
    ensures start { (b : Converters) (u count : ℕ) → is_idle (round_at b u) ≡ false
        → after_write b (ConverterGo u) count ≡ b }
    ensures abort { (b : Converters) (u : ℕ) → is_running (round_at b u) b.time ≡ false
        → after_read b (ConverterAbort u) ≡ b }
{}

/// The flag of a unit's line is that of a finished round, and the flag of a trigger input's line that of its
/// pulse.
pub fn flag_of_a_line()
    ensures first { (b : Converters) → has_bit (flags_of b) 24 ≡ is_finished (round_at b 0) b.time }
    ensures second { (b : Converters) → has_bit (flags_of b) 25 ≡ is_finished (round_at b 1) b.time }
    ensures pulse { (b : Converters) (k : ℕ) → has_bit (flags_of b) (28 + k) ≡ has_bit b.pulses k }
{}

/// A pulse sets its flag where it finds the gate on, and changes nothing where it finds it off.
pub fn pulse_at_a_gate()
    ensures on { (b : Converters) (k : ℕ) → k < 4 → has_bit b.gates k ≡ true
        → has_bit (after_pulse b k).pulses k ≡ true }
    ensures off { (b : Converters) (k : ℕ) → has_bit b.gates k ≡ false → after_pulse b k ≡ b }
{}

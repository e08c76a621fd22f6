//! The trigger inputs of the converter block.

ghost use Rattle.std.specs.Prelude.{◌≡◌, ◌↔◌, ◌<◌, ◌^◌, ℕ, true, false, List};
ghost use Rattle.std.specs.List.{AllByRecursion};
ghost use Rattle.mcal_base.specs.Bits.{has_bit};
ghost use Rattle.mcal_base.specs.declared.register.Reg.TheVariants.{TriggerSet, TriggerClear, TriggerFlags};
ghost use Rattle.chip_blocks.specs.converter.Converters.{Converters, read_of, after_write};
ghost use Rattle.chip_blocks.specs.converter.Accesses.{Access, after_all};
ghost use Rattle.machine_laws.specs.converters.Histories.{LeavesGate, LeavesPulse, PulseIn};

/// After a flag was cleared it stands exactly where a pulse came on its input since and found the gate on, once or several
/// times.
pub fn flags_by_pulses()
    ensures { (b : Converters) (k bits : ℕ) (history : List Access)
        → k < 4 → bits < 2 ^ 32 → has_bit bits k ≡ true → AllByRecursion (LeavesPulse k) history
        → let cleared = after_write b TriggerFlags bits in
        (has_bit (read_of (after_all cleared history) TriggerFlags) k ≡ true) ↔ PulseIn cleared k history }
{}

/// A gate is on after it was switched on, and off after it was switched off, whatever else is done.
pub fn gates_as_switched()
    ensures on { (b : Converters) (k bits : ℕ) (history : List Access)
        → k < 32 → has_bit bits k ≡ true → AllByRecursion (LeavesGate k) history
        → has_bit (after_all (after_write b TriggerSet bits) history).gates k ≡ true }
    ensures off { (b : Converters) (k bits : ℕ) (history : List Access)
        → k < 32 → bits < 2 ^ 32 → has_bit bits k ≡ true → AllByRecursion (LeavesGate k) history
        → has_bit (after_all (after_write b TriggerClear bits) history).gates k ≡ false }
{}

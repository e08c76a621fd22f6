//! What the accesses of the serial, clock and pin blocks and of the RAM words come to, over every history.

ghost use Rattle.std.specs.Prelude.{◌≡◌, ◌≢◌, ℕ, ◌+◌, ◌/◌, ◌%◌, ◌^◌, ◌<◌, ◌≤◌, true, false, not, nat_le, Option, None, List, length};
ghost use Rattle.std.specs.List.{AllByRecursion};
ghost use Rattle.mcal_base.specs.Bits.{has_bit};
ghost use Rattle.mcal_base.specs.declared.register.Reg.{Reg};
ghost use Rattle.mcal_base.specs.declared.register.Reg.TheVariants.{SerialReceived, ClockPll, ClockRate, PinOutSet, PinOutClear, PortPut, Ram};
ghost use Rattle.chip_blocks.specs.units.Serials as serials;
ghost use Rattle.chip_blocks.specs.units.SerialAccesses as serial;
ghost use Rattle.chip_blocks.specs.units.Clock as clock;
ghost use Rattle.chip_blocks.specs.units.ClockAccesses as clocks;
ghost use Rattle.chip_blocks.specs.units.Pins as pins;
ghost use Rattle.chip_blocks.specs.units.Ram as ram;
ghost use Rattle.chip_blocks.specs.units.WriteHistories.{PinAccess, pins_after, ram_after, LeavesLatch, LeavesWord};

/// `S<u>.RX` gives the last word that ended without failing, masked by the width that stood when it began: a
/// word that came in whole is there 8 ticks later, and one that was refused, that had a fault or that hasn't
/// ended leaves what stood there. Writes of a width and acknowledgements don't change it.
pub fn received_last()
    ensures whole { (b : serials.Serials) (u incoming : ℕ) (history : List serial.Access)
        → serial.HasUnit b u → incoming ≢ 65536 → AllByRecursion (serial.LeavesWord u) history
        → let end = serial.after_all (serials.after_word b u incoming) history in
        b.time + 8 ≤ end.time
        → serials.read_of end (SerialReceived u) ≡ serials.masked (serials.unit_at b u).width incoming }
    ensures refused { (b : serials.Serials) (u : ℕ) (history : List serial.Access)
        → serial.HasUnit b u → AllByRecursion (serial.LeavesWord u) history
        → serials.read_of (serial.after_all (serials.after_word b u 65536) history) (SerialReceived u)
        ≡ serials.read_of b (SerialReceived u) }
    ensures not_yet { (b : serials.Serials) (u incoming : ℕ) (history : List serial.Access)
        → serial.HasUnit b u → AllByRecursion (serial.LeavesWord u) history
        → let end = serial.after_all (serials.after_word b u incoming) history in
        end.time < b.time + 8
        → serials.read_of end (SerialReceived u) ≡ serials.read_of b (SerialReceived u) }
    ensures fault { (b : serials.Serials) (u incoming : ℕ) (before history : List serial.Access)
        → serial.HasUnit b u → AllByRecursion (serial.LeavesWord u) before
        → AllByRecursion (serial.LeavesWord u) history
        → let there = serial.after_all (serials.after_word b u incoming) before in
        there.time < b.time + 8
        → serials.read_of (serial.after_all (serials.after_fault there u) history) (SerialReceived u)
        ≡ serials.read_of b (SerialReceived u) }
{}

/// A word is done from 8 ticks after its beginning on and not before, whether it failed or not, until it is
/// acknowledged or another one begins.
pub fn done_since_word()
    ensures { (b : serials.Serials) (u incoming : ℕ) (history : List serial.Access)
        → serial.HasUnit b u → AllByRecursion (serial.LeavesDone u) history
        → let end = serial.after_all (serials.after_word b u incoming) history in
        serials.is_done (serials.unit_at end u) end.time ≡ nat_le (b.time + 8) end.time }
{}

/// The flag of a serial unit's line is that its word is done.
pub fn flag_of_a_line()
    ensures first { (b : serials.Serials) → has_bit (serials.flags_of b) 26 ≡ serials.is_done (serials.unit_at b 0) b.time }
    ensures second { (b : serials.Serials) → has_bit (serials.flags_of b) 27 ≡ serials.is_done (serials.unit_at b 1) b.time }
{}

/// A PLL is locked from 100 ticks of the oscillator after its start on and not before, whatever is read or
/// written since, a multiplier excepted.
pub fn locked_since_start()
    ensures { (c : clock.Clock) (value : ℕ) (history : List clocks.Access)
        → value ≢ 0 → AllByRecursion clocks.LeavesPll history
        → let end = clocks.after_all (clock.after_write c ClockPll value) history in
        clock.is_locked end ≡ nat_le (c.osc + 100) end.osc }
{}

/// From the start of a PLL on the rate is 1, until 1 is written to `M.RATE`: then it is the multiplier written
/// last. Without a multiplier a write of 1 changes nothing.
pub fn rate_since_start()
    ensures start { (c : clock.Clock) (value : ℕ) (history : List clocks.Access)
        → value ≢ 0 → AllByRecursion clocks.LeavesRate history
        → (clocks.after_all (clock.after_write c ClockPll value) history).rate ≡ 1 }
    ensures taken { (c : clock.Clock) (value : ℕ) (before history : List clocks.Access)
        → value ≢ 0 → AllByRecursion clocks.LeavesPll before → AllByRecursion clocks.LeavesRate history
        → let there = clocks.after_all (clock.after_write c ClockPll value) before in
        (clocks.after_all (clock.after_write there ClockRate 1) history).rate ≡ value }
    ensures without { (c : clock.Clock) → c.pll ≡ None → clock.after_write c ClockRate 1 ≡ c }
{}

/// A latch is what the last access that names its pin made it, whatever comes since with a zero in the pin's
/// bit, to another half, port or pin, or to other registers: a one in `D.OUTSET` sets it and a one in `D.OUTCLR`
/// clears it; where the pin is out, a word put to its port with a one in the mask makes it its bit of the word, and
/// a flip makes it the other level.
pub fn latch_written_last()
    ensures set { (b : pins.Pins) (p bits : ℕ) (history : List PinAccess)
        → p < 64 → length b.latches ≡ 2 → has_bit bits (p % 32) ≡ true → AllByRecursion (LeavesLatch p) history
        → pins.latch (pins_after (pins.after_write b (PinOutSet (p / 32)) bits) history) p ≡ true }
    ensures clear { (b : pins.Pins) (p bits : ℕ) (history : List PinAccess)
        → p < 64 → length b.latches ≡ 2 → bits < 2 ^ 32 → has_bit bits (p % 32) ≡ true
        → AllByRecursion (LeavesLatch p) history
        → pins.latch (pins_after (pins.after_write b (PinOutClear (p / 32)) bits) history) p ≡ false }
    ensures put { (b : pins.Pins) (p word : ℕ) (history : List PinAccess)
        → p < 64 → length b.latches ≡ 2 → pins.is_out b p ≡ true → has_bit word (8 + p % 8) ≡ true
        → AllByRecursion (LeavesLatch p) history
        → pins.latch (pins_after (pins.after_write b (PortPut (p / 8)) word) history) p ≡ has_bit word (p % 8) }
    ensures flip { (b : pins.Pins) (p : ℕ) (history : List PinAccess)
        → p < 64 → length b.latches ≡ 2 → pins.is_out b p ≡ true → AllByRecursion (LeavesLatch p) history
        → pins.latch (pins_after (pins.flip b p) history) p ≡ not (pins.latch b p) }
{}

/// The latch of a pin that is in stays, whatever is put to a port and whichever pin is inverted.
pub fn latch_of_a_pin_that_is_in()
    ensures put { (b : pins.Pins) (p q word : ℕ) → pins.is_out b p ≡ false
        → pins.latch (pins.after_write b (PortPut q) word) p ≡ pins.latch b p }
    ensures flip { (b : pins.Pins) (p q : ℕ) → pins.is_out b p ≡ false → pins.latch (pins.flip b q) p ≡ pins.latch b p }
{}

/// A RAM word reads what was written there last.
pub fn ram_written_last()
    ensures { (words : List ℕ) (k value : ℕ) (history : List (Reg × ℕ))
        → k < 512 → length words ≡ 512 → AllByRecursion (LeavesWord k) history
        → ram.read_of (ram_after (ram.after_write words (Ram k) value) history) (Ram k) ≡ value }
{}

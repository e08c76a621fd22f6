//! What the chip's happenings come to, over every history.

ghost use Rattle.std.specs.Prelude.{◌≡◌, ◌≢◌, ◌<◌, ◌≤◌, ◌+◌, ◌-◌, ◌*◌, ◌++◌, ◌&&◌, ℕ, not, true, false, Bool, Option, Some, None, List, [], ◌∷◌, length, slice_index, slice_index_or};
ghost use Rattle.std.specs.List.{AllByRecursion};
ghost use Rattle.mcal_base.specs.Bits.{has_bit, bit_of};
ghost use Rattle.mcal_base.specs.Layout.{WithinLimits, length_of};
ghost use Rattle.mcal_base.specs.declared.TheConstants.{WORDS};
ghost use Rattle.mcal_base.specs.declared.config.whole.Config.{Config};
ghost use Rattle.mcal_base.specs.declared.directive.Order.{Order};
ghost use Rattle.mcal_base.specs.declared.directive.Order.TheVariants.{Level};
ghost use Rattle.mcal_base.specs.declared.directive.Reason.{Reason};
ghost use Rattle.mcal_base.specs.declared.layout.Array.TheVariants.{Source};
ghost use Rattle.mcal_base.specs.declared.moves.Move.{Move};
ghost use Rattle.mcal_base.specs.declared.moves.Move.TheVariants.{Read, Write, Store, Mask, Unmask};
ghost use Rattle.mcal_base.specs.declared.register.Reg.TheVariants.{PortLevels, PinFlip, Ram};
ghost use Rattle.chip_blocks.specs.timers.Timers as timers;
ghost use Rattle.chip_blocks.specs.pulses.Pulses as pulses;
ghost use Rattle.chip_blocks.specs.captures.Captures as captures;
ghost use Rattle.chip_blocks.specs.converter.Converters as converters;
ghost use Rattle.chip_blocks.specs.converter.Rounds as rounds;
ghost use Rattle.chip_blocks.specs.units.Serials as serials;
ghost use Rattle.chip_blocks.specs.units.Pins as pins;
ghost use Rattle.chip_model.specs.Chip.{Chip, power_on, value_of, chip_after, happened, now_of, reset_chip, levelled, outside_at, word_of, is_masked, is_pending, incoming_at, source_length, channel_from, pin_of};
ghost use Rattle.chip_model.specs.Histories.{Happening, chip_step, chip_after_all, chip_of, HasAll, IsAtOneTime, FillsThere, sets_rate, LeavesWord, LeavesRam, LeavesMask, LeavesLevel, given_to, taken_from, detaches_in};

/// The chip after a history and one happening more is what that happening leaves. So a bus whose value is the
/// chip of a history has, after a call, the chip of that history with the call's happening added; a rack has the
/// devices that hang on its units.
pub fn one_happening_more()
    ensures { (config : Config) (room devices : ℕ) (history : List Happening) (x : Happening)
        → chip_of config room devices (history ++ x ∷ []) ≡ chip_step (chip_of config room devices history) x }
{}

/// A chip that a history leaves has all its words, pins and units, and all its blocks are at one time.
pub fn chip_is_whole()
    ensures all { (config : Config) (room devices : ℕ) (history : List Happening)
        → WithinLimits config → AllByRecursion FillsThere history → HasAll (chip_of config room devices history) }
    ensures time { (config : Config) (room devices : ℕ) (history : List Happening) → IsAtOneTime (chip_of config room devices history) }
{}

/// A driver word reads what was stored there last, and 0 after a reset.
pub fn word_since_store()
    ensures stored { (c : Chip) (k value received : ℕ) (history : List Happening)
        → HasAll c → k < WORDS → AllByRecursion (LeavesWord k) history
        → word_of (chip_after_all (chip_after c (Store k value) received) history) k ≡ value }
    ensures reset { (c : Chip) (reason : Reason) (k : ℕ) (history : List Happening)
        → AllByRecursion (LeavesWord k) history → word_of (chip_after_all (reset_chip c reason) history) k ≡ 0 }
{}

/// A RAM word reads what was written there last, and 0 after a reset.
pub fn ram_since_write()
    ensures written { (c : Chip) (k value received : ℕ) (history : List Happening)
        → HasAll c → k < 512 → AllByRecursion (LeavesRam k) history
        → slice_index (chip_after_all (chip_after c (Write (Ram k) value) received) history).ram k ≡ value }
    ensures reset { (c : Chip) (reason : Reason) (k : ℕ) (history : List Happening)
        → AllByRecursion (LeavesRam k) history → slice_index (chip_after_all (reset_chip c reason) history).ram k ≡ 0 }
{}

/// The mask is what the last move that closed or opened it left, and open after a reset.
pub fn mask_since_move()
    ensures closed { (c : Chip) (received : ℕ) (history : List Happening)
        → AllByRecursion LeavesMask history → is_masked (chip_after_all (chip_after c Mask received) history) ≡ true }
    ensures opened { (c : Chip) (received : ℕ) (history : List Happening)
        → AllByRecursion LeavesMask history → is_masked (chip_after_all (chip_after c Unmask received) history) ≡ false }
    ensures reset { (c : Chip) (reason : Reason) (history : List Happening)
        → AllByRecursion LeavesMask history → is_masked (chip_after_all (reset_chip c reason) history) ≡ false }
{}

/// A move leaves the times. It leaves the rate too where it writes neither the multiplier nor the rate, and so does
/// every hardware event.
pub fn clock_since_move()
    ensures osc { (c : Chip) (made : Move) (received : ℕ) → (chip_after c made received).clock.osc ≡ c.clock.osc }
    ensures now { (c : Chip) (made : Move) (received : ℕ) → now_of (chip_after c made received) ≡ now_of c }
    ensures rate { (c : Chip) (made : Move) (received : ℕ) → sets_rate made ≡ false → (chip_after c made received).clock.rate ≡ c.clock.rate }
    ensures event { (c : Chip) (order : Order) → (happened c order).clock.rate ≡ c.clock.rate }
{}

/// A line is pending while its enable bit is set and the flag of its block stands: an expiry, a chosen change of an
/// output, an edge that waits, a finished round, a word that is done, or a pulse.
pub fn pending_lines()
    ensures timer { (c : Chip) (line : ℕ) → line < 8
        → is_pending c line ≡ (timers.is_flagged (timers.timer_at c.timers line) c.timers.time && has_bit c.control.enabled line) }
    ensures pulse { (c : Chip) (line : ℕ) → 8 ≤ line → line < 16
        → is_pending c line ≡ (pulses.is_due c.pulses (line - 8) && has_bit c.control.enabled line) }
    ensures capture { (c : Chip) (line : ℕ) → 16 ≤ line → line < 24
        → is_pending c line ≡ (captures.is_waiting (captures.capture_at c.captures (line - 16)) && has_bit c.control.enabled line) }
    ensures converter { (c : Chip) (line : ℕ) → 24 ≤ line → line < 26
        → is_pending c line ≡ (rounds.is_finished (converters.unit_at c.converters (line - 24)).round c.converters.time && has_bit c.control.enabled line) }
    ensures serial { (c : Chip) (line : ℕ) → 26 ≤ line → line < 28
        → is_pending c line ≡ (serials.is_done (serials.unit_at c.serials (line - 26)) c.serials.time && has_bit c.control.enabled line) }
    ensures trigger { (c : Chip) (line : ℕ) → 28 ≤ line
        → is_pending c line ≡ (has_bit c.converters.pulses (line - 28) && has_bit c.control.enabled line) }
{}

/// A pin that is in has its outside level. One that is out has the output of the pulse channel that names it, in the
/// mode of the pulse outputs alone; else its latch.
pub fn level_of_a_pin()
    ensures outside { (c : Chip) (p : ℕ) → pins.is_out c.pins p ≡ false → pin_of c p ≡ outside_at c p }
    ensures pulse { (c : Chip) (p channel : ℕ) → pins.is_out c.pins p ≡ true → pins.is_pulse (pins.mode c.pins p) ≡ true
        → channel_from 0 c.wiring.outputs p ≡ Some channel → pin_of c p ≡ pulses.level_at c.pulses channel }
    ensures unnamed { (c : Chip) (p : ℕ) → pins.is_out c.pins p ≡ true
        → channel_from 0 c.wiring.outputs p ≡ None → pin_of c p ≡ pins.latch c.pins p }
    ensures other_mode { (c : Chip) (p : ℕ) → pins.is_out c.pins p ≡ true → pins.is_pulse (pins.mode c.pins p) ≡ false
        → pin_of c p ≡ pins.latch c.pins p }
{}

/// A read of `Q<q>.IN` has the level of each of the port's pins in its bit. A read of `F<p>.FLIP` gives the level that
/// the pin has after it, and inverts the latch of that pin alone, if it is out.
pub fn levels_of_ports()
    ensures port { (c : Chip) (q k : ℕ) → k < 8 → has_bit (value_of c (Read (PortLevels q))) k ≡ pin_of c (8 * q + k) }
    ensures value { (c : Chip) (p received : ℕ)
        → value_of c (Read (PinFlip p)) ≡ bit_of (pin_of (chip_after c (Read (PinFlip p)) received) p) }
    ensures flips { (c : Chip) (p received : ℕ) → p < 64 → length c.pins.latches ≡ 2 → pins.is_out c.pins p ≡ true
        → pins.latch (chip_after c (Read (PinFlip p)) received).pins p ≡ not (pins.latch c.pins p) }
    ensures others { (c : Chip) (p q received : ℕ) → q ≢ p
        → pins.latch (chip_after c (Read (PinFlip q)) received).pins p ≡ pins.latch c.pins p }
    ensures inside { (c : Chip) (p received : ℕ) → pins.is_out c.pins p ≡ false
        → pins.latch (chip_after c (Read (PinFlip p)) received).pins p ≡ pins.latch c.pins p }
{}

/// The outside level of a pin is that of its last event. No move and no reset changes it.
pub fn level_since_event()
    ensures { (c : Chip) (p : ℕ) (v : Bool) (history : List Happening)
        → HasAll c → p < 64 → AllByRecursion (LeavesLevel p) history
        → outside_at (chip_after_all (levelled c p v) history) p ≡ v }
{}

/// A level that changes is an edge for the captures, and one that stands is nothing at all.
pub fn edge_of_a_level()
    ensures changes { (c : Chip) (p : ℕ) (v : Bool) → outside_at c p ≡ not v → (levelled c p v).captures ≡ captures.after_edge c.captures p v }
    ensures stands { (c : Chip) (p : ℕ) (v : Bool) → outside_at c p ≡ v → levelled c p v ≡ c }
{}

/// The words that waited on a serial unit and those that a history gives to it are those that came in and those that
/// still wait: each comes in once, in the order in which they were given. A reset drops none.
pub fn words_that_come_in()
    ensures { (c : Chip) (u : ℕ) (history : List Happening) → HasAll c → u < 2
        → (incoming_at c u).waiting ++ given_to u history ≡ taken_from u c history ++ (incoming_at (chip_after_all c history) u).waiting }
{}

/// The source array of a serial channel has the places that the layout gives it, at most 64.
pub fn source_arrays()
    ensures places { (config : Config) (room devices channel : ℕ) (history : List Happening) → channel < 16
        → source_length (chip_of config room devices history) channel ≡ length_of config (Source channel) }
    ensures most { (config : Config) (room devices channel : ℕ) (history : List Happening) → WithinLimits config → channel < 16
        → source_length (chip_of config room devices history) channel ≤ 64 }
{}

/// A history leaves as many devices as there were, less one for each detach while there is one. So there is a device at
/// each place below that number.
pub fn devices_left()
    ensures { (c : Chip) (history : List Happening) → (chip_after_all c history).devices ≡ c.devices - detaches_in history }
{}

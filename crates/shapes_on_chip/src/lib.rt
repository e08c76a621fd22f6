//! Orders and banks in the driver words of a chip: what the steps of their routines leave, for drivers to cite.
#![tactic(auto)]

ghost use Rattle.std.specs.Prelude.{◌≡◌, ◌<◌, ℕ, suc, true, Bool, Some, List, length, slice_index};
ghost use Rattle.mcal_base.specs.declared.moves.Move.TheVariants.{Load, Store};
ghost use Rattle.chip_model.specs.Chip.{Chip, word_of, value_of, chip_after};
ghost use Rattle.chip_model.specs.Histories.{Happening, chip_step};
ghost use Rattle.word_shapes.specs.Banks.{Banks, Putting, Taking, filling};
ghost use Rattle.word_shapes.specs.Order.{Entry};
ghost use Rattle.word_shapes.specs.Playing.{Memory, Play, Ends};
ghost use Rattle.word_shapes.specs.PriorityQueue as ranked;
ghost use Rattle.word_shapes.specs.TripleBuffer as trio;
ghost use Rattle.word_shapes.specs.declared.priority_queue.PriorityQueue.{PriorityQueue};
ghost use Rattle.word_shapes.specs.declared.triple_buffer.TripleBuffer.{TripleBuffer};
ghost use Rattle.shapes_on_chip.specs.OnChip.{HasWords, AreThere, LooksAt, Leaves, StepsTo};

use mcal_base::Routine;

/// A routine that ends within some moves over the chip's words makes its next step on the chip with no event, whatever
/// word comes in, and then it has ended with what it was to leave, or ends within one move less over the words that the
/// step left.
pub fn routine_step<R: Routine>()
    ensures { (own : ℕ → Bool) (n : ℕ) (r : R) (chip : Chip) (received : ℕ) (done : Memory → List ℕ → Bool)
        → HasWords chip → AreThere own → LooksAt own done
        → let play : Play R = record { move_of = R.move_of; left = R.left; gave = R.gave } in
        Ends play own (suc n) r (word_of chip) (λ m words. done m words ≡ true)
        → StepsTo play own n r chip received (λ m words. done m words ≡ true) }
{}

/// What leaves an order's words as they are leaves the order: a store elsewhere, any other move, and hardware.
pub fn order_elsewhere()
    ensures { (at : PriorityQueue) (chip : Chip) (x : Happening) (xs : List Entry) → Leaves (ranked.own_of at) x
        → ranked.Holds at (word_of chip) xs → ranked.Holds at (word_of (chip_step chip x)) xs }
{}

/// A frame that fills the bank of the open put stores the next value, and one that reads loads the words of the newest
/// list, or of the list that was newest at its pin. What leaves the banks' words as they are leaves all.
pub fn bank_steps()
    ensures fill { (t : TripleBuffer) (chip : Chip) (s : Banks) (p : Putting) (value received : ℕ) → trio.Fits t → HasWords chip
        → s.put ≡ Some p → length p.filled < t.len → trio.Stands t (word_of chip) s
        → trio.Stands t (word_of (chip_after chip (Store (trio.word_at t p.bank (length p.filled)) value) received)) (filling value p s) }
    ensures newest { (t : TripleBuffer) (chip : Chip) (s : Banks) (index : ℕ) → index < t.len → trio.Stands t (word_of chip) s
        → value_of chip (Load (trio.word_at t s.bank index)) ≡ slice_index s.newest index }
    ensures kept { (t : TripleBuffer) (chip : Chip) (s : Banks) (x : Taking) (index : ℕ) → index < t.len → s.take ≡ Some x
        → trio.Stands t (word_of chip) s → value_of chip (Load (trio.word_at t x.bank index)) ≡ slice_index x.kept index }
    ensures elsewhere { (t : TripleBuffer) (chip : Chip) (x : Happening) (s : Banks) → Leaves (trio.own_of t) x
        → trio.Stands t (word_of chip) s → trio.Stands t (word_of (chip_step chip x)) s }
{}

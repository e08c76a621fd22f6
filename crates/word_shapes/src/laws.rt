//! What follows from the routines' contracts, in terms of lists alone.

ghost use Rattle.std.specs.Prelude.{◌≡◌, ◌<◌, ◌≤◌, ◌+◌, ℕ, false, Some, None, List, [], ◌∷◌, ◌++◌, length, take, slice_index};
ghost use Rattle.std.specs.List.{range_with_len};
ghost use Rattle.word_shapes.specs.Playing.{Memory, stored};
ghost use Rattle.word_shapes.specs.Order.{Entry, AllBelow, none, choice, AllWaiting, IsChoice};
ghost use Rattle.word_shapes.specs.Banks.{Banks, Taking, abandoning};
ghost use Rattle.word_shapes.specs.Interleaving.{Action, Pins, Told, told_first, told_all, AllMay, AllStay, AllLeaveOut, Live, live_first, live_after, live_all, Matches, indexes, read_all};
ghost use Rattle.word_shapes.specs.PriorityQueue as ranked;
ghost use Rattle.word_shapes.specs.Room.{Lowers, add_room, again_room, front_room, next_room, drop_room, put_room, take_room};
ghost use Rattle.word_shapes.specs.TripleBuffer as trio;
ghost use Rattle.word_shapes.specs.declared.add.Add.{Add};
ghost use Rattle.word_shapes.specs.declared.again.Again.{Again};
ghost use Rattle.word_shapes.specs.declared.choosing.Front.{Front};
ghost use Rattle.word_shapes.specs.declared.choosing.Next.{Next};
ghost use Rattle.word_shapes.specs.declared.dropped.Dropped.{Dropped};
ghost use Rattle.word_shapes.specs.declared.put.Put.{Put};
ghost use Rattle.word_shapes.specs.declared.priority_queue.PriorityQueue.{PriorityQueue};
ghost use Rattle.word_shapes.specs.declared.take.Take.{Take};
ghost use Rattle.word_shapes.specs.declared.triple_buffer.TripleBuffer.{TripleBuffer};

/// A choice gives 16 exactly where no entry waits; else it gives the waiting entry that ranks higher than those that
/// wait before it and no lower than those that wait after it, and there is one such entry.
pub fn best_choice()
    ensures nothing { (ranks : List ℕ) (xs : List Entry) → AllBelow xs → choice ranks xs ≡ none → AllWaiting (λ x. ⊥) xs }
    ensures waits { (ranks : List ℕ) (xs : List Entry) → AllWaiting (λ x. ⊥) xs → choice ranks xs ≡ none }
    ensures best { (ranks : List ℕ) (xs : List Entry) → AllBelow xs → choice ranks xs < none → IsChoice ranks xs (choice ranks xs) }
    ensures only { (ranks : List ℕ) (xs : List Entry) (n : ℕ) → n < none → IsChoice ranks xs n → choice ranks xs ≡ n }
{}

/// A cleared third word stands for the empty order. Each entry is below 16, so an order has at most 16 entries. A store
/// elsewhere leaves the order as it was.
pub fn order_at_rest()
    ensures empty { (r : PriorityQueue) (m : Memory) → m (r.at + 2) ≡ 0 → ranked.Holds r m [] }
    ensures below { (r : PriorityQueue) (m : Memory) (xs : List Entry) → ranked.Holds r m xs → AllBelow xs }
    ensures most { (r : PriorityQueue) (m : Memory) (xs : List Entry) → ranked.Holds r m xs → length xs ≤ 16 }
    ensures elsewhere { (r : PriorityQueue) (m : Memory) (k v : ℕ) (xs : List Entry) → ranked.own_of r k ≡ false → ranked.Holds r m xs → ranked.Holds r (stored m k v) xs }
{}

/// A control word that names a bank and no pin stands for that bank, whatever its words are. A store elsewhere leaves
/// all as it was, and a put that is left without a commit puts nothing.
pub fn banks_at_rest()
    ensures rests { (t : TripleBuffer) (m : Memory) → m t.control < 3
        → trio.Stands t m (record { bank = m t.control; newest = trio.listed m (trio.word_at t (m t.control) 0) t.len; put = None; take = None }) }
    ensures elsewhere { (t : TripleBuffer) (m : Memory) (k v : ℕ) (s : Banks) → trio.own_of t k ≡ false → trio.Stands t m s → trio.Stands t (stored m k v) s }
    ensures abandoned { (t : TripleBuffer) (m : Memory) (s : Banks) → trio.Stands t m s → trio.Stands t m (abandoning s) }
{}

/// The newest bank's words are the list that was committed last, and the pinned bank's words are the list that was
/// newest at the pin.
pub fn bank_words()
    ensures newest { (t : TripleBuffer) (m : Memory) (s : Banks) (i : ℕ) → trio.Stands t m s → i < t.len → m (trio.word_at t s.bank i) ≡ slice_index s.newest i }
    ensures kept { (t : TripleBuffer) (m : Memory) (s : Banks) (x : Taking) (i : ℕ) → trio.Stands t m s → s.take ≡ Some x → i < t.len → m (trio.word_at t x.bank i) ≡ slice_index x.kept i }
{}

/// Whatever parts of puts and takes come one after the other, with stores elsewhere between them, the words stand for
/// what the lists tell: the list committed last, what the open put has filled in, and the list pinned by the open take.
pub fn puts_and_takes()
    ensures { (t : TripleBuffer) (m : Memory) (bank : ℕ) (xs : List ℕ) (deeds : List Action) → trio.Fits t
        → trio.Stands t m (record { bank = bank; newest = xs; put = None; take = None })
        → AllMay t (told_first xs) deeds
        → Matches t (live_all t (live_first m) deeds) (told_all (told_first xs) deeds) }
{}

/// What a take has read since its pin, from the first index on, is the front of the list that was newest at the pin,
/// whatever came before the pin and whatever puts come between the reads. So a take that reads all words gives that
/// list, whole.
pub fn whole_take()
    ensures pinned { (t : TripleBuffer) (m : Memory) (bank : ℕ) (xs : List ℕ) (before since : List Action) (n : ℕ) → trio.Fits t
        → trio.Stands t m (record { bank = bank; newest = xs; put = None; take = None })
        → AllMay t (told_first xs) (before ++ Pins ∷ since) → AllStay since
        → indexes since ≡ range_with_len 0 n → n ≤ t.len
        → read_all t (live_after t (live_all t (live_first m) before) Pins) since ≡ take n (told_all (told_first xs) before).newest }
    ensures open_take { (t : TripleBuffer) (live : Live) (told : Told) (deeds : List Action) (kept : List ℕ) (n : ℕ) → trio.Fits t
        → Matches t live told → told.kept ≡ Some kept → AllMay t told deeds → AllStay deeds
        → indexes deeds ≡ range_with_len 0 n → n ≤ length kept
        → read_all t live deeds ≡ take n kept }
{}

/// A put that isn't committed puts nothing: the newest list stays as it was.
pub fn uncommitted_puts()
    ensures { (told : Told) (deeds : List Action) → AllLeaveOut deeds → (told_all told deeds).newest ≡ told.newest }
{}

/// Each step of a routine leaves it fewer moves, or was its last one, whatever it loads.
pub fn moves_left()
    ensures add { (r : Add) (value : ℕ) → Lowers ranked.adding add_room r value }
    ensures again { (r : Again) (value : ℕ) → Lowers ranked.waiting_again again_room r value }
    ensures front { (r : Front) (value : ℕ) → Lowers ranked.choosing_front front_room r value }
    ensures next { (r : Next) (value : ℕ) → Lowers ranked.choosing_next next_room r value }
    ensures drop { (r : Dropped) (value : ℕ) → Lowers ranked.dropping drop_room r value }
    ensures put { (r : Put) (value : ℕ) → Lowers trio.putting put_room r value }
    ensures take { (r : Take) (value : ℕ) → Lowers trio.taking take_room r value }
{}

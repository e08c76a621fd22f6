//! What the block's accesses and edges come to, over every history.

ghost use Rattle.std.specs.Prelude.{◌≡◌, ℕ, ◌/◌, ◌%◌, ◌^◌, ◌++◌, nat_lt, true, List, [], take, drop, length};
ghost use Rattle.std.specs.List.{AllByRecursion};
ghost use Rattle.mcal_base.specs.declared.register.Reg.TheVariants.{CaptureZero, CaptureFlush, CaptureCountLow, CaptureTimeLow};
ghost use Rattle.chip_blocks.specs.captures.Captures.{Captures, capture_at, oldest_time, after_read, after_write};
ghost use Rattle.chip_blocks.specs.captures.Accesses.{Access, after_all, HasChannel, LeavesQueue, LeavesCount, LeavesLatch, LeavesWaiting, brought, counted, kept, popped};

/// Until one is dropped, the queue holds the first four chosen edges since it was emptied, each with its time
/// modulo 2^32 and its direction and none after a gap, and an edge is lost exactly where more came.
pub fn queue_since_flush()
    ensures queue { (b : Captures) (c value : ℕ) (history : List Access)
        → HasChannel b c → AllByRecursion (LeavesQueue c) history
        → let emptied = after_write b (CaptureFlush c) value in
        (capture_at (after_all emptied history) c).queue ≡ take 4 (brought c emptied history) }
    ensures lost { (b : Captures) (c value : ℕ) (history : List Access)
        → HasChannel b c → AllByRecursion (LeavesQueue c) history
        → let emptied = after_write b (CaptureFlush c) value in
        (capture_at (after_all emptied history) c).lost ≡ nat_lt 4 (length (brought c emptied history)) }
{}

/// Until all are dropped, the edges that were kept leave the queue in the order in which they came: it is what
/// waited and what was kept since, without as many of the oldest as were dropped.
pub fn queue_over_pops()
    ensures { (b : Captures) (c : ℕ) (history : List Access)
        → HasChannel b c → AllByRecursion (LeavesWaiting c) history
        → (capture_at (after_all b history) c).queue ≡ drop (popped c b history) ((capture_at b c).queue ++ kept c b history) }
{}

/// Once an edge was lost, the next one kept is marked, whatever is dropped one by one in between.
pub fn gap_after_loss()
    ensures { (b : Captures) (c : ℕ) (history : List Access)
        → HasChannel b c → (capture_at b c).lost ≡ true → AllByRecursion (LeavesWaiting c) history → kept c b history ≡ []
        → (capture_at (after_all b history) c).lost ≡ true }
{}

/// The count is the number of chosen edges that came to be counted since it was zeroed, modulo 2^32.
pub fn count_since_zero()
    ensures { (b : Captures) (c value : ℕ) (history : List Access)
        → HasChannel b c → AllByRecursion (LeavesCount c) history
        → let emptied = after_write b (CaptureZero c) value in
        (capture_at (after_all emptied history) c).count ≡ counted c emptied history % 2 ^ 32 }
{}

/// The latch keeps the high half of what was read last by its low half, a count or the time of an oldest edge,
/// which is 0 where none waited, until another low half is read.
pub fn latch_since_read()
    ensures count { (b : Captures) (c : ℕ) (history : List Access)
        → AllByRecursion LeavesLatch history
        → (after_all (after_read b (CaptureCountLow c)) history).latch ≡ (capture_at b c).count / 65536 }
    ensures time { (b : Captures) (c : ℕ) (history : List Access)
        → AllByRecursion LeavesLatch history
        → (after_all (after_read b (CaptureTimeLow c)) history).latch ≡ oldest_time (capture_at b c).queue / 65536 }
{}

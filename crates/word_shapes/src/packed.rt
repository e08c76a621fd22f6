ghost use Rattle.std.specs.Prelude.{◌≡◌, ℕ, ◌+◌, ◌-◌, ◌*◌, ◌/◌, ◌%◌, ◌^◌, ◌<◌, ◌≤◌, bit_or, length, slice_index};
ghost use Rattle.mcal_base.specs.Bits.{has_bit, without as bits_without};
ghost use Rattle.word_shapes.specs.Order as spec_order;
ghost use Rattle.word_shapes.specs.Packing.{places, order_of, entries, count_in, marks_in};
ghost use Rattle.word_shapes.specs.Packing as spec;

/// The numbers of the three words of an order.
#[derive(Clone, Copy)]
pub struct Places {
    /// The first eight places.
    pub low: u32,
    /// The other eight places.
    pub high: u32,
    /// The number of entries and the waiting marks.
    pub tally: u32,
}

/// What stands in the three words of an order. Where at most eight entries are there, the word of the other places isn't
/// looked at, and is 0 here.
#[derive(Clone, Copy)]
pub struct Packed {
    /// The first eight places, four bits each.
    pub low: u32,
    /// The other eight places.
    pub high: u32,
    /// The number of entries, and 32 times the waiting marks.
    pub tally: u32,
}

/// What a choice gives where no entry waits.
pub const NONE: u32 = 16;

/// How many values a word has.
pub const SPAN: u64 = 1 << 32;

/// The number of entries.
pub fn count(tally: u32) -> u32
    ensures { result ≡ count_in tally }
{
    tally % 32
}

/// The waiting marks.
pub fn marks(tally: u32) -> u32
    ensures { result ≡ marks_in tally }
{
    tally / 32
}

/// The bit of an entry.
fn bit(entry: u32) -> u32
    requires { entry < 16 }
    ensures is { result ≡ 2 ^ entry }
    ensures within { result < 2 ^ 27 }
{
    1 << entry
}

/// Whether an entry is marked.
fn marked(marks: u32, entry: u32) -> bool
    requires { entry < 16 }
    ensures { result ≡ has_bit marks entry }
{
    (marks >> entry) % 2 == 1
}

/// The third word with one more entry, which waits.
pub fn tally_added(tally: u32, entry: u32) -> u32
    requires { entry < 16 }
    ensures { result ≡ spec.tally_added tally entry }
{
    (count(tally) + 1) % 32 + 32 * (marks(tally) | bit(entry))
}

/// The third word with an entry that waits.
pub fn tally_marked(tally: u32, entry: u32) -> u32
    requires { entry < 16 }
    ensures { result ≡ spec.tally_marked tally entry }
{
    count(tally) + 32 * (marks(tally) | bit(entry))
}

/// The third word with an entry that doesn't wait.
pub fn tally_cleared(tally: u32, entry: u32) -> u32
    requires { entry < 16 }
    ensures { result ≡ spec.tally_cleared tally entry }
{
    count(tally) + 32 * (marks(tally) & !bit(entry))
}

/// The third word with one entry less.
pub fn tally_less(tally: u32) -> u32
    ensures { result ≡ spec.tally_less tally }
{
    tally.saturating_sub(1)
}

/// A word of eight places with an entry in a place, and nothing after it.
pub fn appended(word: u32, place: u32, entry: u32) -> u32
    requires place { place < 8 }
    requires entry { entry < 16 }
    ensures { result ≡ spec.appended word place entry }
{
    let unit = 16u32.pow(place);
    word % unit + entry * unit
}

impl Packed {
    /// The places of both words as one number.
    pub fn order(&self) -> u64
        ensures { result ≡ order_of self.now.low self.now.high }
    {
        u64::from(self.low) + SPAN * u64::from(self.high)
    }

    /// The waiting entry of highest rank, among equal ranks the first; 16 where none waits.
    pub fn choice(&self, ranks: &[u32; 16]) -> u32
        ensures is { result ≡ spec_order.choice ranks.now (entries (marks_in self.now.tally) (places (order_of self.now.low self.now.high) (count_in self.now.tally))) }
        ensures within { result ≤ 16 }
    {
        choice(self.order(), marks(self.tally), count(self.tally), ranks)
    }

    /// The order without an entry.
    pub fn without(&self, entry: u32) -> u64
        ensures { result ≡ spec.taken_out (order_of self.now.low self.now.high) (count_in self.now.tally) entry }
    {
        taken_out(self.order(), count(self.tally), entry)
    }
}

/// The waiting entry of highest rank among the first places, among equal ranks the first; 16 where none waits.
fn choice(order: u64, marks: u32, count: u32, ranks: &[u32; 16]) -> u32
    ensures is { result ≡ spec_order.choice ranks.now (entries marks (places order count)) }
    ensures within { result ≤ 16 }
{
    if count == 0 {
        return NONE;
    }
    let best = choice(order / 16, marks, count - 1, ranks);
    let entry = (order % 16) as u32;
    if !marked(marks, entry) {
        return best;
    }
    if best < NONE && ranks[entry as usize] < ranks[best as usize] {
        best
    } else {
        entry
    }
}

/// An order with an entry taken out of its first places.
fn taken_out(order: u64, count: u32, entry: u32) -> u64
    ensures is { result ≡ spec.taken_out order count entry }
    ensures within { result ≤ order }
{
    if count == 0 {
        return order;
    }
    let rest = order / 16;
    if order % 16 == u64::from(entry) {
        rest
    } else {
        16 * taken_out(rest, count - 1, entry) + order % 16
    }
}

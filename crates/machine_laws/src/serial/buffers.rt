//! What internal and external channels send and what may be read of them.

ghost use Rattle.std.specs.Prelude.{◌≡◌, ◌<◌, ℕ, true, false, length, slice_get, List, Some, None};
ghost use Rattle.std.specs.List.{list_all};
ghost use Rattle.mcal_base.specs.declared.answer.Head.TheVariants.{Name};
ghost use Rattle.mcal_base.specs.declared.answer_name.AnswerName.TheVariants.{EOk};
ghost use Rattle.run_model.specs.Machine.{Acts, Outcome};
ghost use Rattle.run_model.specs.World.{World};
ghost use Rattle.word_shapes.specs.declared.jobs.channel.Channel as configured;
ghost use Rattle.spi_machine.specs.Channels.{ChannelState, SetUp};
ghost use Rattle.spi_machine.specs.Machine.{spi_machine};
ghost use Rattle.spi_machine.specs.Numbered.{word_at};
ghost use Rattle.spi_machine.specs.Runs.{Occurrence, after_all};
ghost use Rattle.spi_machine.specs.State.{SpiState, channel_at, internal_word};
ghost use Rattle.spi_machine.specs.Table.{channel_of};
ghost use Rattle.spi_machine.specs.Transfers.{ToChannel, Nowhere, channel_words, goes_to, masked};
ghost use Rattle.spi_machine.specs.declared.call.Call.{Call};
ghost use Rattle.spi_machine.specs.declared.call.Call.TheVariants.{Channel, Init};
ghost use Rattle.spi_machine.specs.declared.call.ChannelCall.TheVariants.{WriteIb, ReadIb, SetupEb};
ghost use Rattle.spi_machine.specs.declared.call.Pointer.{Pointer};
ghost use Rattle.spi_machine.specs.declared.table.SpiTable.{SpiTable};
ghost use Rattle.machine_laws.specs.serial.Buffers.{source_word, leaves_written, leaves_set_up};

/// `Spi_WriteIB` writes each word of the channel, unmasked, from its source array as it then stands, or default data
/// where there is no source, and `Spi_Init` writes default data. So they stand, whatever is sent, until the next write of
/// the channel or initialisation, or a reset.
pub fn words_as_written()
    ensures written { (d : SpiTable) (w : World) (s : SpiState) (c place : ℕ) (k : configured.Channel) (source : Pointer) (times : ℕ → ℕ) (out : Outcome SpiState) (history : List Occurrence)
        → (spi_machine d).happens w s (Acts (Channel c (WriteIb source)) times) ≡ Some out → out.told.error ≡ None → channel_of d c ≡ Some k
        → list_all (λ (x : Occurrence). leaves_written c x.what) history ≡ true → place < k.length
        → internal_word (after_all d out.state history) c false place ≡ source_word source k (channel_at s c) place }
    ensures count { (d : SpiTable) (w : World) (s : SpiState) (c : ℕ) (k : configured.Channel) (source : Pointer) (times : ℕ → ℕ) (out : Outcome SpiState) (history : List Occurrence)
        → (spi_machine d).happens w s (Acts (Channel c (WriteIb source)) times) ≡ Some out → out.told.error ≡ None → channel_of d c ≡ Some k
        → list_all (λ (x : Occurrence). leaves_written c x.what) history ≡ true
        → length (channel_at (after_all d out.state history) c).written ≡ k.length }
    ensures initial { (d : SpiTable) (w : World) (s : SpiState) (c place : ℕ) (k : configured.Channel) (times : ℕ → ℕ) (out : Outcome SpiState) (history : List Occurrence)
        → (spi_machine d).happens w s (Acts Init times) ≡ Some out → out.told.error ≡ None → channel_of d c ≡ Some k → k.internal ≡ true → c < 16
        → list_all (λ (x : Occurrence). leaves_written c x.what) history ≡ true → place < k.length
        → internal_word (after_all d out.state history) c false place ≡ k.default_data }
{}

/// Of an internal channel a job sends each word that was written, masked to the channel's width, and what comes in goes
/// to the same place of the channel.
pub fn words_of_an_internal_channel()
    ensures words { (c n : ℕ) (k : configured.Channel) (x : ChannelState) → k.internal ≡ true → n < length x.written
        → slice_get (channel_words c (Some k) x) n
        ≡ Some (record { channel = c; place = n; width = k.width; sent = masked k.width (word_at x.written n); goes = ToChannel }) }
    ensures count { (c : ℕ) (k : configured.Channel) (x : ChannelState) → k.internal ≡ true
        → length (channel_words c (Some k) x) ≡ length x.written }
{}

/// Of an external channel a job sends as many words as it was set up with, each of its source, masked to the channel's
/// width, and what comes in goes to its destination, if there is one. Where it was never set up it sends default data, as
/// much as fits, and what comes in goes nowhere.
pub fn words_of_an_external_channel()
    ensures words { (c n : ℕ) (k : configured.Channel) (x : ChannelState) (by : SetUp) → k.internal ≡ false → x.set_up ≡ Some by → n < by.words
        → slice_get (channel_words c (Some k) x) n
        ≡ Some (record { channel = c; place = n; width = k.width; sent = masked k.width (source_word by.source k x n); goes = goes_to by.destination }) }
    ensures count { (c : ℕ) (k : configured.Channel) (x : ChannelState) (by : SetUp) → k.internal ≡ false → x.set_up ≡ Some by
        → length (channel_words c (Some k) x) ≡ by.words }
    ensures none { (c n : ℕ) (k : configured.Channel) (x : ChannelState) → k.internal ≡ false → x.set_up ≡ None → n < k.length
        → slice_get (channel_words c (Some k) x) n
        ≡ Some (record { channel = c; place = n; width = k.width; sent = masked k.width k.default_data; goes = Nowhere }) }
    ensures most { (c : ℕ) (k : configured.Channel) (x : ChannelState) → k.internal ≡ false → x.set_up ≡ None
        → length (channel_words c (Some k) x) ≡ k.length }
{}

/// A set-up of an external channel counts from then on, until the next one of the channel, an initialisation or a reset.
pub fn set_up_counts()
    ensures { (d : SpiTable) (w : World) (s : SpiState) (c words : ℕ) (source destination : Pointer) (times : ℕ → ℕ) (out : Outcome SpiState) (history : List Occurrence)
        → (spi_machine d).happens w s (Acts (Channel c (SetupEb source destination words)) times) ≡ Some out → out.told.error ≡ None
        → list_all (λ (x : Occurrence). leaves_set_up c x.what) history ≡ true
        → (channel_at (after_all d out.state history) c).set_up ≡ Some (record { source = source; destination = destination; words = words }) }
{}

/// `Spi_ReadIB` answers `E_OK` with as many words as the channel has, each the one that may be read at its place, and
/// changes nothing.
pub fn reads_what_was_received()
    ensures name { (d : SpiTable) (w : World) (s : SpiState) (c : ℕ) (times : ℕ → ℕ) (out : Outcome SpiState)
        → (spi_machine d).happens w s (Acts (Channel c ReadIb) times) ≡ Some out → out.told.error ≡ None
        → out.told.answer.head ≡ Name EOk }
    ensures words { (d : SpiTable) (w : World) (s : SpiState) (c place : ℕ) (k : configured.Channel) (times : ℕ → ℕ) (out : Outcome SpiState)
        → (spi_machine d).happens w s (Acts (Channel c ReadIb) times) ≡ Some out → out.told.error ≡ None → channel_of d c ≡ Some k → place < k.length
        → word_at out.told.answer.words place ≡ internal_word s c true place }
    ensures count { (d : SpiTable) (w : World) (s : SpiState) (c : ℕ) (k : configured.Channel) (times : ℕ → ℕ) (out : Outcome SpiState)
        → (spi_machine d).happens w s (Acts (Channel c ReadIb) times) ≡ Some out → out.told.error ≡ None → channel_of d c ≡ Some k
        → length out.told.answer.words ≡ k.length }
    ensures leaves { (d : SpiTable) (w : World) (s : SpiState) (c : ℕ) (times : ℕ → ℕ) (out : Outcome SpiState)
        → (spi_machine d).happens w s (Acts (Channel c ReadIb) times) ≡ Some out → out.state ≡ s }
{}

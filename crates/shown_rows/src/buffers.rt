ghost use Rattle.std.specs.Prelude.{◌≡◌, ◌<◌, ◌++◌, OnOk, Some, string_bytes};
ghost use Rattle.mcal_base.specs.Layout.{length_of};
ghost use Rattle.mcal_base.specs.declared.layout.Array.TheVariants.{Source};
ghost use Rattle.bench_report.specs.Shown.{rows_text};
ghost use Rattle.mcal_drivers.specs.Setting.{SystemState};
ghost use Rattle.mcal_drivers.specs.Shows.{results_at, serial_channel, size_at};
ghost use Rattle.run_model.specs.World.{World};
ghost use Rattle.shown_rows.specs.Shows as spec;

use crate::shown::{ShownBoard, Words};
use crate::words::write_words;
use bench_report::RowName;
use mcal_base::Array;
use std::alloc::{AllocError, Global};
use word_shapes::jobs::Channel;

/// Writes the row of a capture channel's stamps, where it was started since the last reset.
#[tactic(auto, using(crate::proofs::Rows::no_rows))]
pub(crate) fn write_capture<R: ShownBoard>(
    alloc: Global,
    text: &mut String,
    run: &R,
    line: u32,
    channel: u32,
) -> Result<(), AllocError>
    requires there { channel < 8 }
    ensures { (w : World) (s : SystemState) → R.shows run.now w s →
        OnOk result (string_bytes text.new ≡ string_bytes text.old ++ rows_text line (spec.stamps_row s channel (size_at s channel))) }
{
    let Some(size) = run.stamps(channel) else {
        return Ok(());
    };
    let name = RowName::Stamps(channel);
    let words = Words::User(Array::Stamps(channel));
    write_words(alloc, text, run, line, name, words, size)
}

/// Writes the row of the buffer that was last chosen for a converter group, where there is one.
#[tactic(auto, using(crate::proofs::Rows::no_rows))]
pub(crate) fn write_group<R: ShownBoard>(
    alloc: Global,
    text: &mut String,
    run: &R,
    line: u32,
    group: u32,
) -> Result<(), AllocError>
    ensures { (w : World) (s : SystemState) → R.shows run.now w s →
        OnOk result (string_bytes text.new ≡ string_bytes text.old ++ rows_text line (spec.results_row s group (results_at (R.configured run.now) s group))) }
{
    let Some((buffer, size)) = run.results(group) else {
        return Ok(());
    };
    let name = RowName::Results(group, buffer);
    let words = Words::User(Array::Round(group, buffer));
    write_words(alloc, text, run, line, name, words, size)
}

/// Writes the rows of a configured serial channel: the user's source array, and of an internal channel what it sends and
/// what may be read of it, of an external one the user's destination array.
#[tactic(auto, using(crate::proofs::Rows::rows_joined))]
fn write_channel<R: ShownBoard>(
    alloc: Global,
    text: &mut String,
    run: &R,
    line: u32,
    number: u32,
    channel: Channel,
) -> Result<(), AllocError>
    requires known { serial_channel (R.configured run.now) number ≡ Some channel }
    requires words { channel.length ≡ length_of (R.configured run.now) (Source number) }
    ensures { (w : World) (s : SystemState) → R.shows run.now w s → OnOk result (string_bytes text.new ≡ string_bytes text.old ++ rows_text line (spec.channel_rows s number (Some channel))) }
{
    let size = u32::from(channel.length);
    let name = RowName::Source(number);
    let words = Words::User(Array::Source(number));
    write_words(alloc, text, run, line, name, words, size)?;
    if channel.internal {
        let name = RowName::Transmit(number);
        write_words(alloc, text, run, line, name, Words::Sent(number), size)?;
        let name = RowName::Receive(number);
        write_words(alloc, text, run, line, name, Words::Received(number), size)
    } else {
        let name = RowName::Destination(number);
        let words = Words::User(Array::Destination(number));
        write_words(alloc, text, run, line, name, words, size)
    }
}

/// Writes the rows of a serial channel, where it is configured.
#[tactic(auto, using(crate::proofs::Rows::no_rows))]
pub(crate) fn write_serial<R: ShownBoard>(
    alloc: Global,
    text: &mut String,
    run: &R,
    line: u32,
    number: u32,
) -> Result<(), AllocError>
    ensures { (w : World) (s : SystemState) → R.shows run.now w s →
        OnOk result (string_bytes text.new ≡ string_bytes text.old ++ rows_text line (spec.channel_rows s number (serial_channel (R.configured run.now) number))) }
{
    match run.serial_channel(number) {
        Some(channel) => write_channel(alloc, text, run, line, number, channel),
        None => Ok(()),
    }
}

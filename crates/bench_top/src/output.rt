ghost use Rattle.std.specs.Prelude.{◌≡◌, OnOk, OnErr};
ghost use Rattle.std.specs.Io.KnownBytes.{Appends};
ghost use Rattle.mcal_base.specs.Causes.{Rose};
ghost use Rattle.bench_top.specs.Calls.{stream_of};
ghost use Rattle.bench_top.specs.Outcomes.{WritesFront};

use mcal_base::{Failed, Sink};

/// Writes all the bytes; each write is handed all that is left.
pub fn write_all<K: Sink>(out: &mut K, bytes: &[u8]) -> Result<(), Failed>
    ensures all { OnOk result (Appends (K.taken out.old) (K.taken out.new) bytes.now) }
    ensures still { OnOk result (K.faults out.new ≡ K.faults out.old) }
    ensures prefix { OnErr result (WritesFront (stream_of K.taken K.faults out.old out.new) bytes.now) }
    ensures fault { OnErr result (Rose (K.faults out.old) (K.faults out.new)) }
{
    let mut done = 0;
    while done < bytes.len() {
        done += out.write(&bytes[done..])?;
    }
    Ok(())
}

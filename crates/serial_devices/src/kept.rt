ghost use Rattle.std.specs.Prelude.{◌≡◌, true, false, Ok, IfOk, IsErr};
ghost use Rattle.mcal_base.specs.Faults.{write_fails};
ghost use Rattle.serial_devices.specs.Kept.{device_line, kept_new, answer_of, after_exchange};
ghost use Rattle.serial_devices.specs.Lines.{Exchanged};

use crate::device::SerialDevice;
use mcal_base::{Failed, ListSink, NoMemory, Sink};
use std::alloc::Global;
use std::marker::Model;

/// A device in memory. It keeps the pairs of its exchanges, and fails at the calls that it was told.
#[derive(Drop)]
pub struct ListDevice {
    echo: bool,
    before: u16,
    pairs: Vec<(u16, u16)>,
    /// It counts the calls, and takes a byte for each pair.
    calls: ListSink,
}

impl Model for ListDevice {
    ghost use Rattle.std.specs.Prelude.{◌≡◌, ◌≤◌, length, vec_len, vec_capacity};
    ghost use Rattle.serial_devices.specs.Kept.{Keeping};

    ghost Value = { Keeping };

    ghost view = { λ d. record { echo = d.echo; before = d.before; pairs = d.pairs.items; calls = d.calls } };

    ghost invariant = { λ d. (vec_len d.pairs ≡ length d.calls.taken) × (d.calls.room ≤ vec_capacity d.pairs) × (d.calls.most ≡ 1) };
}

impl ListDevice {
    /// One that answers each word's complement, or with `echo` the word that was sent before, 0 at first. It has room for so
    /// many pairs; the calls with these numbers, from 1, fail, and so do those that find it full.
    pub fn new(
        alloc: Global,
        echo: bool,
        room: usize,
        failing: Vec<u64>,
    ) -> Result<ListDevice, NoMemory>
        ensures { IfOk result (λ d. d ≡ kept_new echo room failing.items) }
    {
        let calls = ListSink::new(alloc, 1, room, failing)?;
        let Ok(pairs) = Vec::with_capacity(alloc, room) else {
            return Err(NoMemory);
        };
        Ok(ListDevice {
            echo,
            before: 0,
            pairs,
            calls,
        })
    }

    /// The pairs of its exchanges, each a word that was sent and the one that came back.
    pub fn pairs(&self) -> &[(u16, u16)]
        ensures { result.now ≡ self.now.pairs }
    {
        &self.pairs
    }
}

impl SerialDevice for ListDevice {
    ghost line = { device_line };

    fn exchange(&mut self, out: u16) -> Result<u16, Failed>
        ensures exchanged { Exchanged (device_line self.old) (device_line self.new) out result }
        ensures fault { write_fails self.old.calls ≡ true → IsErr result }
        ensures gives { write_fails self.old.calls ≡ false → result ≡ Ok (answer_of self.old out) }
        ensures after { self.new ≡ after_exchange self.old out }
    {
        let _taken = self.calls.write(&[0])?;
        let answer = if self.echo { self.before } else { !out };
        self.before = out;
        self.pairs.push_reserved((out, answer));
        Ok(answer)
    }
}

ghost use Rattle.std.specs.Prelude.{◌≡◌, Ok, None};
ghost use Rattle.serial_devices.specs.Kept.{answer_by};

use crate::device::SerialDevice;
use mcal_base::Failed;
use std::marker::Model;

/// A device that keeps nothing and never fails.
#[derive(Drop)]
pub struct PlainDevice {
    echo: bool,
    before: u16,
}

impl Model for PlainDevice {
    ghost use Rattle.serial_devices.specs.Kept.{Answering};

    ghost Value = { Answering };

    ghost view = { λ d. record { echo = d.echo; before = d.before } };
}

impl PlainDevice {
    /// One that answers each word's complement, or with `echo` the word that was sent before, 0 at first.
    pub fn new(echo: bool) -> PlainDevice
        ensures { result ≡ record { echo = echo; before = 0 } }
    {
        PlainDevice { echo, before: 0 }
    }
}

impl SerialDevice for PlainDevice {
    ghost line = { λ d. record { faults = 0; pairs = None } };

    fn exchange(&mut self, out: u16) -> Result<u16, Failed>
        ensures gives { result ≡ Ok (answer_by self.old.echo self.old.before out) }
        ensures after { self.new ≡ record self.old { before = out } }
    {
        let before = self.before;
        self.before = out;
        Ok(if self.echo { before } else { !out })
    }
}

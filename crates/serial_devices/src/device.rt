ghost use Rattle.serial_devices.specs.Lines.{Line, Exchanged};

use mcal_base::Failed;

/// What hangs on the serial bus.
pub trait SerialDevice: Drop {
    /// Its count of faults and, where it keeps them, its exchanges.
    ghost line: { Self → Line };

    /// Sends a word, and answers the one that comes back.
    fn exchange(&mut self, out: u16) -> Result<u16, Failed>
        ensures { Exchanged (line self.old) (line self.new) out result };
}

ghost use Rattle.std.specs.Prelude.{ℕ, List, ◌≡◌, ◌<◌, ◌≤◌, Option, IfOk, length};
ghost use Rattle.std.specs.Io.KnownBytes.{ReadConsumes, WriteAppends};
ghost use Rattle.mcal_base.specs.Causes.{HasCause};

/// A read, a write or an exchange met a fault.
#[derive(Clone, Copy)]
pub struct Failed;

/// Memory was not found.
#[derive(Clone, Copy)]
pub struct NoMemory;

/// Where bytes come from.
pub trait Source {
    /// The bytes that are left, where the object tells them.
    ghost left: { Self → Option (List ℕ) };
    /// How many faults there were.
    ghost faults: { Self → ℕ };

    /// Puts bytes at the front of the buffer, none only at the end of input or where it has no room.
    fn read(&mut self, buf: &mut [u8]) -> Result<usize, Failed>
        ensures bound { IfOk result (λ n. n ≤ length buf.new) }
        ensures bytes { ReadConsumes (left self.old) (left self.new) result buf.new }
        ensures cause { HasCause (faults self.old) (faults self.new) result };
}

/// Where bytes go to.
pub trait Sink {
    /// The bytes that were taken, where the object tells them.
    ghost taken: { Self → Option (List ℕ) };
    /// How many faults there were.
    ghost faults: { Self → ℕ };

    /// Takes bytes from the front of the piece, at least one if there is one.
    fn write(&mut self, piece: &[u8]) -> Result<usize, Failed>
        ensures bound { IfOk result (λ n. n ≤ length piece.now) }
        ensures some { IfOk result (λ n. 0 < length piece.now → 0 < n) }
        ensures bytes { WriteAppends (taken self.old) (taken self.new) result piece.now }
        ensures cause { HasCause (faults self.old) (faults self.new) result };
}

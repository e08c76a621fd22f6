ghost use Rattle.std.specs.Prelude.{◌≡◌, ℕ, true, false};
ghost use Rattle.mcal_base.specs.Bits.{has_bit};
ghost use Rattle.irq_control.specs.Control.{control_fresh, enabling, disabling, masking, is_pending_line};

use std::marker::Model;

/// The enable bits of the 32 lines, written by `IE.SET` and `IE.CLR`, and the interrupt mask.
#[derive(Clone, Copy)]
pub struct Irq {
    enabled: u32,
    is_masked: bool,
}

impl Model for Irq {
    ghost use Rattle.irq_control.specs.Control.{Control};

    ghost Value = { Control };

    ghost view = { λ i. record { enabled = i.enabled; masked = i.is_masked } };

    ghost inverse = { λ c. record { enabled = c.enabled; is_masked = c.masked } };
}

impl Irq {
    /// No line enabled, and the mask open: as after a reset.
    pub fn new() -> Irq
        ensures { result ≡ control_fresh }
    {
        Irq {
            enabled: 0,
            is_masked: false,
        }
    }

    /// A write to `IE.SET`: enables the lines whose bits are ones.
    pub fn set(&mut self, bits: u32)
        ensures { self.new ≡ enabling self.old bits }
    {
        self.enabled |= bits;
    }

    /// A write to `IE.CLR`: disables the lines whose bits are ones.
    pub fn clear(&mut self, bits: u32)
        ensures { self.new ≡ disabling self.old bits }
    {
        self.enabled &= !bits;
    }

    /// Whether the line's enable bit is set.
    pub fn enabled(&self, line: u32) -> bool
        ensures { result ≡ has_bit self.now.enabled line }
    {
        has(self.enabled, line)
    }

    /// The lines whose enable bits are set, the first one in bit 0.
    pub fn enabled_lines(&self) -> u32
        ensures { result ≡ self.now.enabled }
    {
        self.enabled
    }

    /// Whether the flag of the line and its enable bit are set.
    pub fn pending(&self, line: u32, flags: u32) -> bool
        ensures { result ≡ is_pending_line self.now line flags }
    {
        has(flags, line) && has(self.enabled, line)
    }

    /// Closes the mask.
    pub fn mask(&mut self)
        ensures { self.new ≡ masking self.old true }
    {
        self.is_masked = true;
    }

    /// Opens the mask.
    pub fn unmask(&mut self)
        ensures { self.new ≡ masking self.old false }
    {
        self.is_masked = false;
    }

    /// Whether the mask is closed.
    pub fn masked(&self) -> bool
        ensures { result ≡ self.now.masked }
    {
        self.is_masked
    }
}

/// Whether a bit is set. A bit that the type doesn't have isn't.
fn has(bits: u32, place: u32) -> bool
    ensures { result ≡ has_bit bits place }
{
    if place < 32 {
        (bits >> place) % 2 == 1
    } else {
        false
    }
}

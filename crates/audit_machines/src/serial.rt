ghost use Rattle.std.specs.Prelude.{◌≡◌, ◌<◌, length, slice_index_or};
ghost use Rattle.spi_machine.specs.State as spec;
ghost use Rattle.audit_machines.specs.Shows.{job_at};
ghost use Rattle.audit_serial.specs.Stands.{state_of};

use crate::hosted::Hosted;
use crate::machines::Machines;
use crate::pin_calls::Modules;
use audit_base::{Both, Part};
use audit_serial::Serials;
use mcal_base::Unit;

impl<C: Part, T: Part, K: Part, A: Part> Machines<Hosted<Modules<C, T, K, Both<A, Serials>>>> {
    /// Whether the serial module is initialised and in polling mode.
    pub fn polling(&self) -> bool
        ensures { result ≡ spec.is_polling (state_of self.now.modules.host.second.second.second).mode }
    {
        self.modules.host.second.second.second.is_polling()
    }

    /// Whether a pending sequence, or one that a unit carries out for a call, uses a serial channel.
    pub fn in_use(&self, channel: u32) -> bool
        ensures { let units = self.now.modules.host.second.second.second in result ≡ spec.uses units.configured.table (state_of units) channel }
    {
        self.modules.host.second.second.second.in_use(channel)
    }

    /// The job that a serial unit runs, or carries out for a call.
    pub fn job(&self, unit: Unit) -> Option<u32>
        ensures { let units = self.now.modules.host.second.second.second in result ≡ job_at units.configured.table (state_of units) unit }
    {
        match unit {
            Unit::Spi0 => self.modules.host.second.second.second.job(0),
            Unit::Spi1 => self.modules.host.second.second.second.job(1),
            Unit::Adc0 | Unit::Adc1 => None,
        }
    }

    /// A word of an internal serial channel by its place: of those that may be read, or of those that are sent.
    pub fn internal(&self, channel: u32, received: bool, index: u32) -> u32
        ensures { result ≡ spec.internal_word (state_of self.now.modules.host.second.second.second) channel received index }
    {
        self.modules
            .host
            .second
            .second
            .second
            .internal(channel, received, index)
    }

    /// How many words were begun on a serial unit, 0 or 1, since the last reset.
    pub fn wire_len(&self, unit: u32) -> usize
        ensures { result ≡ length (spec.wire_at (state_of self.now.modules.host.second.second.second) unit) }
    {
        self.modules.host.second.second.second.wire_len(unit)
    }

    /// A word that was begun on a serial unit since the last reset, and its incoming word.
    pub fn wire(&self, unit: u32, index: usize) -> (u32, u32)
        requires { index < length (spec.wire_at (state_of self.now.modules.host.second.second.second) unit) }
        ensures { result ≡ slice_index_or (spec.wire_at (state_of self.now.modules.host.second.second.second) unit) index (0, 0) }
    {
        match self.modules.host.second.second.second.wire(unit, index) {
            Some(word) => word,
            None => (0, 0),
        }
    }
}

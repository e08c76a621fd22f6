ghost use Rattle.std.specs.Prelude.{◌≡◌, ◌<◌};
ghost use Rattle.std.specs.Option.{option_map};
ghost use Rattle.adc_machine.specs.Machine.{chosen_buffer};
ghost use Rattle.adc_machine.specs.Turns.{AdcState};
ghost use Rattle.adc_machine.specs.Words as words;
ghost use Rattle.module_machines.specs.icu.Machine.{IcuState};
ghost use Rattle.module_machines.specs.icu.Shown.{size_of};
ghost use Rattle.mcal_base.specs.Layout.{Exists, room_of};
ghost use Rattle.module_machines.specs.mcu.Machine.{McuState, ram_at};
ghost use Rattle.run_model.specs.World.{World};
ghost use Rattle.audit_base.specs.Outside.{IsWorld};
ghost use Rattle.audit_captures.specs.Stands as captures;
ghost use Rattle.audit_clock.specs.ClockStands as clock;
ghost use Rattle.audit_converters.specs.Stands as converters;
ghost use Rattle.audit_machines.specs.Shows as spec;
ghost use Rattle.audit_serial.specs.Stands.{state_of};

use crate::hosted::{HasPins, Hosted};
use crate::machines::Machines;
use crate::pin_calls::Modules;
use adc_machine::ResultBuffer;
use audit_base::{Both, Part};
use audit_captures::Captures;
use audit_clock::Clock;
use audit_converters::Converters;
use audit_serial::Serials;
use mcal_base::Array;

impl<H: HasPins> Machines<Hosted<H>> {
    /// The level of a pin, of 64.
    pub fn pin(&self, pin: u32) -> bool
        requires { pin < 64 }
        ensures { (w : World) (s : H.State) → IsWorld self.now.outside w → H.stands self.now.modules.host s → result ≡ (H.pins (H.table self.now.modules.host) self.now.modules.outputs).level w s pin }
    {
        self.modules
            .host
            .pin(&self.outside, &self.modules.outputs, pin)
    }
}

impl<W: Part, T: Part, K: Part, R: Part> Machines<Hosted<Modules<Both<Clock, W>, T, K, R>>> {
    /// A RAM word, of 512.
    pub fn ram(&self, number: u32) -> u32
        requires { number < 512 }
        ensures { (s : McuState) → clock.StandsFor self.now.modules.host.first.first.first s → result ≡ ram_at s number }
    {
        self.modules.host.first.first.first.ram(number)
    }
}

impl<C: Part, T: Part, R: Part> Machines<Hosted<Modules<C, T, Captures, R>>> {
    /// How many stamps of a capture channel, of eight, are shown: the size of its last start, none without one since the last
    /// reset.
    pub fn stamps(&self, channel: u32) -> Option<u32>
        requires { channel < 8 }
        ensures { (s : IcuState) → captures.StandsFor self.now.modules.host.second.first.second s → result ≡ size_of s channel }
    {
        self.modules.host.second.first.second.size(channel)
    }
}

/// The number of a buffer.
fn buffer_number(buffer: ResultBuffer) -> u32
    ensures { result ≡ words.buffer_number buffer }
{
    match buffer {
        ResultBuffer::Zero => 0,
        ResultBuffer::One => 1,
    }
}

impl<C: Part, T: Part, K: Part, S: Part> Machines<Hosted<Modules<C, T, K, Both<Converters, S>>>> {
    /// The buffer of a converter group that is shown: the one that was set up last.
    pub fn chosen(&self, group: u32) -> Option<u32>
        ensures { (s : AdcState) → converters.StandsFor self.now.modules.host.second.second.first s → result ≡ option_map words.buffer_number (chosen_buffer s group) }
    {
        match self.modules.host.second.second.first.chosen(group) {
            Some(buffer) => Some(buffer_number(buffer)),
            None => None,
        }
    }
}

/// The buffer of a number.
fn buffer_of(number: u32) -> ResultBuffer
    ensures { result ≡ spec.buffer_of number }
{
    if number == 0 {
        ResultBuffer::Zero
    } else {
        ResultBuffer::One
    }
}

impl<C: Part, T: Part> Machines<Hosted<Modules<C, T, Captures, Both<Converters, Serials>>>> {
    /// A place of an array of the users.
    pub fn user(&self, array: Array, index: u32) -> u32
        requires there { Exists array }
        requires place { index < room_of array }
        ensures { (c : IcuState) (a : AdcState) → captures.StandsFor self.now.modules.host.second.first.second c → converters.StandsFor self.now.modules.host.second.second.first a →
            result ≡ spec.user_at c a (state_of self.now.modules.host.second.second.second) array index }
    {
        match array {
            Array::Round(group, buffer) => {
                let converters = &self.modules.host.second.second.first;
                converters.result(group, buffer_of(buffer), index)
            }
            Array::Stamps(channel) => self.modules.host.second.first.second.stamp(channel, index),
            Array::Source(channel) => self
                .modules
                .host
                .second
                .second
                .second
                .source(channel, index),
            Array::Destination(channel) => {
                let units = &self.modules.host.second.second.second;
                units.destination(channel, index)
            }
        }
    }
}

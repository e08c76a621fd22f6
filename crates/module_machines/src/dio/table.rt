ghost use Rattle.std.specs.Prelude.{◌≡◌, ◌<◌};
ghost use Rattle.mcal_base.specs.Bits.{has_bit};
ghost use Rattle.module_machines.specs.dio.Table as spec;

use crate::dio::call::Call;
use mcal_base::{Config, DioChannelGroup, PortPin};

/// How many pins there are, and how many a port has.
const PINS: u32 = 64;

const PORT_PINS: u32 = 8;

/// Some pins of a port. Port q has the pins 8q to 8q + 7, the first one in bit 0 of its values.
#[derive(Clone, Copy)]
pub struct PortPins {
    /// The port, 0 to 7.
    pub port: u8,
    /// A one for each of the pins.
    pub mask: u8,
    /// The place in the port of the lowest of them, 0 to 7: the first bit of a value that is read or written.
    pub offset: u8,
}

/// What the driver keeps of a configuration.
#[derive(Clone, Copy)]
pub struct DioTable {
    /// `DioDevErrorDetect`.
    pub detect: bool,
    /// A one for each configured pin of each port, the port's first one in bit 0.
    pub ports: [u8; 8],
    /// The channel groups by number, where they are configured.
    pub groups: [Option<PortPins>; 8],
}

impl DioTable {
    /// The table of a configuration. It takes no memory.
    pub fn new(config: &Config) -> DioTable
        ensures { result ≡ spec.table_of config.now.port config.now.dio }
    {
        let pins = config.port.pins.as_slice();
        let groups = config.dio.groups.as_slice();
        DioTable {
            detect: config.dio.dev_error_detect,
            ports: [
                ones(pins, 0) as u8,
                ones(pins, 1) as u8,
                ones(pins, 2) as u8,
                ones(pins, 3) as u8,
                ones(pins, 4) as u8,
                ones(pins, 5) as u8,
                ones(pins, 6) as u8,
                ones(pins, 7) as u8,
            ],
            groups: [
                find(groups, 0),
                find(groups, 1),
                find(groups, 2),
                find(groups, 3),
                find(groups, 4),
                find(groups, 5),
                find(groups, 6),
                find(groups, 7),
            ],
        }
    }

    /// The pins that a call is about, none where its channel, port or group isn't configured.
    pub fn pins_of(&self, call: Call) -> Option<PortPins>
        ensures { result ≡ spec.pins_of self.now call }
    {
        match call {
            Call::ReadChannel(pin) | Call::WriteChannel(pin, _) | Call::FlipChannel(pin) => {
                self.channel(pin)
            }
            Call::ReadPort(port) | Call::WritePort(port, _) => self.port(port),
            Call::ReadChannelGroup(group) | Call::WriteChannelGroup(group, _) => self.group(group),
        }
    }

    /// A channel, which is a configured pin.
    fn channel(&self, pin: u32) -> Option<PortPins>
        ensures { result ≡ spec.channel_of self.now pin }
    {
        if self.has_pin(pin) {
            Some(PortPins {
                port: (pin / PORT_PINS) as u8,
                mask: 1 << (pin % PORT_PINS),
                offset: (pin % PORT_PINS) as u8,
            })
        } else {
            None
        }
    }

    /// The configured pins of a port, where there is one.
    fn port(&self, port: u32) -> Option<PortPins>
        ensures { result ≡ spec.port_of self.now port }
    {
        if port < PINS / PORT_PINS {
            some_pins(port, self.ports[port as usize])
        } else {
            None
        }
    }

    /// The configured pins of the group of a number, where that is configured.
    fn group(&self, number: u32) -> Option<PortPins>
        ensures { result ≡ spec.group_of self.now number }
    {
        if number < 8 {
            self.those_configured(self.groups[number as usize])
        } else {
            None
        }
    }

    /// The configured ones of some pins.
    fn those_configured(&self, pins: Option<PortPins>) -> Option<PortPins>
        ensures { result ≡ spec.those_configured self.now pins }
    {
        match pins {
            Some(pins) => Some(PortPins {
                port: pins.port,
                mask: pins.mask & self.configured(pins.port),
                offset: pins.offset,
            }),
            None => None,
        }
    }

    /// A one for each configured pin of a port.
    fn configured(&self, port: u8) -> u8
        ensures { result ≡ spec.configured self.now port }
    {
        if port < 8 {
            self.ports[port as usize]
        } else {
            0
        }
    }

    /// Whether a pin is configured.
    fn has_pin(&self, pin: u32) -> bool
        ensures { result ≡ spec.has_pin self.now pin }
    {
        pin < PINS && is_one(self.ports[(pin / PORT_PINS) as usize], pin % PORT_PINS)
    }
}

/// The pins of a port, where there is one.
fn some_pins(port: u32, mask: u8) -> Option<PortPins>
    requires { port < 8 }
    ensures { result ≡ spec.some_pins port mask }
{
    if mask == 0 {
        None
    } else {
        Some(PortPins {
            port: port as u8,
            mask,
            offset: 0,
        })
    }
}

/// Whether a bit is set.
fn is_one(bits: u8, place: u32) -> bool
    requires { place < 8 }
    ensures { result ≡ has_bit bits place }
{
    ((bits as u32) >> place) % 2 == 1
}

/// A one for each pin of a port that is configured.
fn ones(pins: &[PortPin], port: u32) -> u32
    requires { port < 8 }
    ensures is { result ≡ spec.ones pins.now port }
    ensures few { result < 256 }
{
    let mut bits = 0;
    for place in 0..PORT_PINS {
        if lists(pins, PORT_PINS * port + place) {
            bits |= 1 << place;
        }
    }
    bits
}

/// Whether a pin has this number.
fn lists(pins: &[PortPin], number: u32) -> bool
    ensures { result ≡ spec.lists pins.now number }
{
    for pin in pins {
        if pin.id == number {
            return true;
        }
    }
    false
}

/// The first group with this number.
fn find(groups: &[DioChannelGroup], number: u32) -> Option<PortPins>
    ensures { result ≡ spec.group_in groups.now number }
{
    for group in groups {
        if group.id == number {
            return Some(taken(group));
        }
    }
    None
}

/// What the driver keeps of a group.
fn taken(group: &DioChannelGroup) -> PortPins
    ensures { result ≡ spec.taken group.now }
{
    PortPins {
        port: (group.port % 256) as u8,
        mask: (group.mask % 256) as u8,
        offset: (group.offset % 256) as u8,
    }
}

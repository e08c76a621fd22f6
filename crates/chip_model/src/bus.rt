ghost use Rattle.std.specs.Prelude.{◌≡◌, ◌≢◌, ℕ, ◌<◌, ◌≤◌, ◌*◌, IfOk, length, map, slice_index, vec_len};
ghost use Rattle.mcal_base.specs.Bits.{has_bit, bit_of};
ghost use Rattle.mcal_base.specs.declared.moves.Move.TheVariants.{Read, Write};
ghost use Rattle.mcal_base.specs.declared.register.Reg.TheVariants.{SerialData};
ghost use Rattle.chip_blocks.specs.pulses.Pulses.{level_at};
ghost use Rattle.chip_model.specs.Chip.{power_on, port_of, flipped, next_word, register_of, after_read, has_device, word_begun, hung, after_write, word_of, value_of, chip_after, ticked, outside_at, levelled, filled, happened, CanHappen, expiry_of, ticks_for, wait_on, stall_of, reset_chip, flag_of, is_pending, is_masked, channel_from, output_at, pin_of};
ghost use Rattle.mcal_base.specs.Reach.{CanApply};
ghost use Rattle.chip_model.specs.Devices.{ComesIn, CallsRight};
ghost use Rattle.chip_blocks.specs.units.Serials.{unit_at, outgoing};

use crate::incoming::Incoming;
use crate::wiring::Wiring;
use crate::words;
use chip_blocks::captures::CaptureBlock;
use chip_blocks::converter::ConverterBlock;
use chip_blocks::pulses::PulseBlock;
use chip_blocks::timers::TimerBlock;
use chip_blocks::units::{ClockBlock, PinBlock, RamBlock, SerialBlock, WatchdogBlock};
use irq_control::Irq;
use mcal_base::{Config, Directive, Move, NoMemory, Order, Reason, Reg, SOURCES, WORDS};
use serial_devices::{SerialDevice, call};
use std::alloc::Global;
use std::marker::Model;

/// How many pins there are, and how many of them a port has.
const PINS: u32 = 64;

const PORT_PINS: u32 = 8;

/// What a move gave.
#[derive(Clone, Copy)]
pub struct Applied {
    /// What a read or a load gave, and 0 for other moves.
    pub value: u32,
    /// The word that came in with a write to `S<u>.DATA`, and 0 for other moves.
    pub received: u32,
}

/// The chip: its blocks, the interrupt controller and the driver words, with what stands outside.
#[derive(Drop)]
pub struct Bus {
    clock: ClockBlock,
    timers: TimerBlock,
    pulses: PulseBlock,
    captures: CaptureBlock,
    converters: ConverterBlock,
    serials: SerialBlock,
    pins: PinBlock,
    ram: RamBlock,
    irq: Irq,
    watchdog: WatchdogBlock,
    words: Vec<u32>,
    outside: [bool; 64],
    incoming: [Incoming; 2],
    wiring: Wiring,
    devices: usize,
}

impl Model for Bus {
    ghost use Rattle.std.specs.Prelude.{◌≡◌, length};
    ghost use Rattle.mcal_base.specs.declared.TheConstants.{WORDS};
    ghost use Rattle.chip_model.specs.Chip.{Chip};

    ghost Value = { Chip };

    ghost view = { λ b. record { clock = b.clock; timers = b.timers; pulses = b.pulses; captures = b.captures; converters = b.converters; serials = b.serials; pins = b.pins; ram = b.ram; control = b.irq; watchdog = b.watchdog; words = b.words.items; outside = b.outside; incoming = b.incoming; wiring = b.wiring; devices = b.devices } };

    ghost invariant = { λ b. (length b.words.items ≡ WORDS) × (length b.outside ≡ 64) × (length b.incoming ≡ 2) × (length b.wiring.outputs ≡ 8) × (length b.wiring.sources ≡ 16) × (b.pulses.time ≡ b.timers.time) × (b.captures.time ≡ b.timers.time) × (b.converters.time ≡ b.timers.time) × (b.serials.time ≡ b.timers.time) };
}

impl Bus {
    /// The chip as at power on, with room for so many incoming words on each serial unit. All memory is taken here.
    pub fn new(alloc: Global, config: &Config, waiting: usize) -> Result<Bus, NoMemory>
        ensures { IfOk result (λ bus. bus ≡ power_on config.now waiting) }
    {
        let words = words::made(alloc, WORDS as usize)?;
        let (Ok(first), Ok(second)) = (
            Incoming::with_room(alloc, waiting),
            Incoming::with_room(alloc, waiting),
        ) else {
            return Err(NoMemory);
        };
        Ok(Bus {
            clock: ClockBlock::new(config),
            timers: TimerBlock::new(config),
            pulses: PulseBlock::new(config),
            captures: CaptureBlock::new(config),
            converters: ConverterBlock::new(config),
            serials: SerialBlock::new(config),
            pins: PinBlock::new(config),
            ram: RamBlock::new(config),
            irq: Irq::new(),
            watchdog: WatchdogBlock::new(config),
            words,
            outside: [false; 64],
            incoming: [first, second],
            wiring: Wiring::of(config),
            devices: 0,
        })
    }

    /// So many devices hang on the serial units, until a move is made with another rack.
    pub fn hang(&mut self, devices: usize)
        ensures { self.new ≡ hung devices self.old }
    {
        self.devices = devices;
    }

    /// Makes a move; as many devices hang on the serial units now as are in the rack. A move that begins a word under a
    /// device's select calls that device, and no other move calls one.
    pub fn apply(&mut self, made: &Move, rack: &mut Vec<Box<dyn SerialDevice>>) -> Applied
        requires there { CanApply made.now }
        ensures value { result.value ≡ value_of self.old made.now }
        ensures received { ComesIn (hung (vec_len rack.old) self.old) made.now result.received }
        ensures state { self.new ≡ chip_after (hung (vec_len rack.old) self.old) made.now result.received }
        ensures count { vec_len rack.new ≡ vec_len rack.old }
        ensures calls { CallsRight (hung (vec_len rack.old) self.old) made.now result.received (map (λ d. line d) rack.old.items) (map (λ d. line d) rack.new.items) }
    {
        self.devices = rack.len();
        self.make(made, rack)
    }

    /// Makes a move whose word that comes in is known, as a journal tells it: no device is called.
    pub fn replay(&mut self, made: &Move, received: u32) -> u32
        requires there { CanApply made.now }
        ensures value { result ≡ value_of self.old made.now }
        ensures state { self.new ≡ chip_after self.old made.now received }
    {
        match *made {
            Move::Read(reg) => return self.read(reg),
            Move::Load(number) => return self.words[number as usize],
            Move::Write(reg, value) => self.rewrite(reg, value, received),
            Move::Store(number, word) => self.words[number as usize] = word,
            Move::Mask => self.irq.mask(),
            Move::Unmask => self.irq.unmask(),
            Move::Note(_) | Move::Report(_) => {}
        }
        0
    }

    /// Makes a move, where as many devices hang on the serial units as are in the rack.
    fn make(&mut self, made: &Move, rack: &mut Vec<Box<dyn SerialDevice>>) -> Applied
        requires there { CanApply made.now }
        requires rack { vec_len rack.old ≡ self.old.devices }
        ensures value { result.value ≡ value_of self.old made.now }
        ensures received { ComesIn self.old made.now result.received }
        ensures state { self.new ≡ chip_after self.old made.now result.received }
        ensures count { vec_len rack.new ≡ vec_len rack.old }
        ensures calls { CallsRight self.old made.now result.received (map (λ d. line d) rack.old.items) (map (λ d. line d) rack.new.items) }
    {
        let mut applied = Applied {
            value: 0,
            received: 0,
        };
        match *made {
            Move::Read(reg) => applied.value = self.read(reg),
            Move::Write(reg, value) => applied.received = self.write(reg, value, rack),
            Move::Load(number) => applied.value = self.words[number as usize],
            Move::Store(number, value) => self.words[number as usize] = value,
            Move::Mask => self.irq.mask(),
            Move::Unmask => self.irq.unmask(),
            Move::Note(_) | Move::Report(_) => {}
        }
        applied
    }

    /// Reads a register.
    fn read(&mut self, reg: Reg) -> u32
        requires there { CanApply (Read reg) }
        ensures value { result ≡ register_of self.old reg }
        ensures state { self.new ≡ after_read self.old reg }
    {
        match reg {
            Reg::TimerRun | Reg::TimerFlags | Reg::TimerLow(_) | Reg::TimerHigh(_) => {
                self.timers.read(reg)
            }
            Reg::PulseOut(_) | Reg::PulseFlags => self.pulses.read(reg),
            Reg::CaptureCountLow(_)
            | Reg::CaptureCountHigh(_)
            | Reg::CaptureTimeLow(_)
            | Reg::CaptureTimeHigh(_)
            | Reg::CaptureInfo(_) => self.captures.read(reg),
            Reg::ConverterState(_)
            | Reg::ConverterResult(_, _)
            | Reg::ConverterDone(_)
            | Reg::ConverterAbort(_)
            | Reg::TriggerFlags => self.converters.read(reg),
            Reg::SerialReceived(_) | Reg::SerialState(_) | Reg::SerialWait(_) => {
                self.serials.read(reg)
            }
            Reg::PortLevels(port) => self.port(port),
            Reg::PinFlip(pin) => self.flip(pin),
            Reg::ClockLock | Reg::ResetReason => self.clock.read(reg),
            Reg::Ram(_) => self.ram.read(reg),
            _ => 0,
        }
    }

    /// The latch of a pin that is out becomes the other level. Answers the pin's level after that, as a bit.
    fn flip(&mut self, pin: u32) -> u32
        ensures value { result ≡ bit_of (pin_of self.new pin) }
        ensures state { self.new ≡ flipped self.old pin }
    {
        self.pins.flip(pin);
        if self.pin(pin) { 1 } else { 0 }
    }

    /// The levels of a port's eight pins, the first one in bit 0.
    fn port(&self, port: u32) -> u32
        requires { port < 8 }
        ensures { result ≡ port_of self.now port }
    {
        let mut bits = 0;
        for place in 0..PORT_PINS {
            if self.pin(PORT_PINS * port + place) {
                bits |= 1 << place;
            }
        }
        bits
    }

    /// Whether a serial unit selects a device that is there.
    pub fn has_device(&self, unit: u32) -> bool
        ensures { result ≡ has_device self.now unit }
    {
        let select = self.serials.selected(unit);
        0 < select && select as usize <= self.devices
    }

    /// Begins a word on a serial unit, and answers the one that comes in.
    fn begin_word(&mut self, unit: u32, sent: u32, rack: &mut Vec<Box<dyn SerialDevice>>) -> u32
        requires there { unit < 2 }
        requires rack { vec_len rack.old ≡ self.old.devices }
        ensures word { ComesIn self.old (Write (SerialData unit) sent) result }
        ensures state { self.new ≡ word_begun self.old unit result }
        ensures count { vec_len rack.new ≡ vec_len rack.old }
        ensures calls { CallsRight self.old (Write (SerialData unit) sent) result (map (λ d. line d) rack.old.items) (map (λ d. line d) rack.new.items) }
    {
        let received = if self.has_device(unit) {
            let place = self.serials.selected(unit) - 1;
            let word = self.serials.outgoing(unit, sent);
            call(rack, place as usize, word as u16)
        } else {
            self.incoming[unit as usize].take()
        };
        self.serials.word(unit, sent, received);
        received
    }

    /// Begins a word on a serial unit again, whose word that comes in is known.
    fn begin_again(&mut self, unit: u32, sent: u32, received: u32)
        requires there { unit < 2 }
        ensures { self.new ≡ word_begun self.old unit received }
    {
        if !self.has_device(unit) {
            self.incoming[unit as usize].take();
        }
        self.serials.word(unit, sent, received);
    }

    /// Writes a register, and answers the word that comes in where that begins a serial word, else 0.
    fn write(&mut self, reg: Reg, value: u32, rack: &mut Vec<Box<dyn SerialDevice>>) -> u32
        requires there { CanApply (Write reg value) }
        requires rack { vec_len rack.old ≡ self.old.devices }
        ensures word { ComesIn self.old (Write reg value) result }
        ensures state { self.new ≡ after_write self.old reg value result }
        ensures count { vec_len rack.new ≡ vec_len rack.old }
        ensures calls { CallsRight self.old (Write reg value) result (map (λ d. line d) rack.old.items) (map (λ d. line d) rack.new.items) }
    {
        if let Reg::SerialData(unit) = reg {
            return self.begin_word(unit, value, rack);
        }
        self.write_silently(reg, value);
        0
    }

    /// Writes a register again, where the word that comes in is known.
    fn rewrite(&mut self, reg: Reg, value: u32, received: u32)
        requires there { CanApply (Write reg value) }
        ensures { self.new ≡ after_write self.old reg value received }
    {
        if let Reg::SerialData(unit) = reg {
            return self.begin_again(unit, value, received);
        }
        self.write_silently(reg, value);
    }

    /// Writes a register that begins no serial word.
    fn write_silently(&mut self, reg: Reg, value: u32)
        requires { (unit : ℕ) → reg ≢ SerialData unit }
        ensures { self.new ≡ after_write self.old reg value 0 }
    {
        match reg {
            Reg::EnableSet => self.irq.set(value),
            Reg::EnableClear => self.irq.clear(value),
            Reg::TimerTarget(_)
            | Reg::TimerPrescaler(_)
            | Reg::TimerOneShot
            | Reg::TimerGateSet
            | Reg::TimerGateClear
            | Reg::TimerFlags
            | Reg::TimerZero => self.timers.write(reg, value),
            Reg::PulsePeriod(_)
            | Reg::PulseDuty(_)
            | Reg::PulsePolarity(_)
            | Reg::PulseCommit(_)
            | Reg::PulseIdle(_)
            | Reg::PulseEdges
            | Reg::PulseFlags => self.pulses.write(reg, value),
            Reg::CaptureCondition(_)
            | Reg::CaptureMode(_)
            | Reg::CaptureGateSet
            | Reg::CaptureGateClear
            | Reg::CaptureZero(_)
            | Reg::CapturePop(_)
            | Reg::CaptureFlush(_) => self.captures.write(reg, value),
            Reg::ConverterList(_, _) | Reg::ConverterGo(_) | Reg::ConverterAck(_) => {
                self.converters.write(reg, value)
            }
            Reg::TriggerSet | Reg::TriggerClear | Reg::TriggerFlags => {
                self.converters.write(reg, value)
            }
            Reg::SerialSelect(_) | Reg::SerialWidth(_) | Reg::SerialAck(_) => {
                self.serials.write(reg, value)
            }
            Reg::PinDirectionSet(_)
            | Reg::PinDirectionClear(_)
            | Reg::PinOutSet(_)
            | Reg::PinOutClear(_)
            | Reg::PinMode(_)
            | Reg::PortPut(_) => self.pins.write(reg, value),
            Reg::ClockPll | Reg::ClockRate => self.clock.write(reg, value),
            Reg::WatchdogLoad => self.watchdog.write(self.clock.osc(), reg, value),
            Reg::Ram(_) => self.ram.write(reg, value),
            Reg::SerialData(_)
            | Reg::TimerRun
            | Reg::TimerLow(_)
            | Reg::TimerHigh(_)
            | Reg::PulseOut(_)
            | Reg::CaptureCountLow(_)
            | Reg::CaptureCountHigh(_)
            | Reg::CaptureTimeLow(_)
            | Reg::CaptureTimeHigh(_)
            | Reg::CaptureInfo(_)
            | Reg::ConverterState(_)
            | Reg::ConverterResult(_, _)
            | Reg::ConverterDone(_)
            | Reg::ConverterAbort(_)
            | Reg::SerialReceived(_)
            | Reg::SerialState(_)
            | Reg::SerialWait(_)
            | Reg::PortLevels(_)
            | Reg::PinFlip(_)
            | Reg::ClockLock
            | Reg::ResetReason
            | Reg::ResetRequest => {}
        }
    }

    /// The ticks of the oscillator that are left until the watchdog's time ends, where it runs.
    pub fn expiry(&self) -> Option<u64>
        ensures { result ≡ expiry_of self.now }
    {
        self.watchdog.expiry(self.clock.osc())
    }

    /// The ticks of the oscillator until no word is in transfer on a serial unit.
    fn wait(&self, unit: u32) -> u64
        ensures few { result ≤ 8 }
        ensures wait { result ≡ wait_on self.now unit }
        ensures over { wait_on (ticked self.now result) unit ≡ 0 }
    {
        ticks_for(self.serials.left(unit), self.clock.rate())
    }

    /// The ticks of the oscillator that a move waits for, 0 where there is nothing to wait for.
    pub fn stall(&self, made: &Move) -> u64
        ensures stall { result ≡ stall_of self.now made.now }
        ensures few { result ≤ 8 }
        ensures over { stall_of (ticked self.now result) made.now ≡ 0 }
    {
        match made {
            Move::Read(Reg::SerialWait(unit)) => self.wait(*unit),
            _ => 0,
        }
    }

    /// A hardware event of the script.
    pub fn hardware(&mut self, happening: &Directive)
        requires { CanHappen self.old happening.now.order }
        ensures { self.new ≡ happened self.old happening.now.order }
    {
        match &happening.order {
            Order::Tick(ticks) => self.tick(*ticks),
            Order::Level(pin, level) => self.set_level(*pin, *level),
            Order::Analog(input, value) => self.converters.analog(*input, *value),
            Order::Trigger(input) => self.converters.trigger(*input),
            Order::Miso(unit, words) => self.incoming[*unit as usize].give(words.as_slice()),
            Order::SpiFault(unit) => self.serials.fault(*unit),
            Order::Detach => self.devices = self.devices.saturating_sub(1),
            Order::Fill(channel, words) => self.fill(*channel, words.as_slice()),
            _ => {}
        }
    }

    /// So many ticks of the oscillator.
    fn tick(&mut self, ticks: u32)
        requires { CanHappen self.old (Order.Tick ticks) }
        ensures { self.new ≡ ticked self.old ticks }
    {
        let ticks = u64::from(ticks);
        let peripheral = ticks * u64::from(self.clock.rate());
        self.clock.tick(ticks);
        self.timers.tick(peripheral);
        self.pulses.tick(peripheral);
        self.captures.tick(peripheral);
        self.converters.tick(peripheral);
        self.serials.tick(peripheral);
    }

    /// The outside level of a pin. Where that changes it, the capture channels at the pin see an edge.
    fn set_level(&mut self, pin: u32, level: bool)
        ensures { self.new ≡ levelled self.old pin level }
    {
        if self.outside_level(pin) != level {
            if pin < PINS {
                self.outside[pin as usize] = level;
            }
            self.captures.edge(pin, level);
        }
    }

    /// The outside level of a pin.
    fn outside_level(&self, pin: u32) -> bool
        ensures { result ≡ outside_at self.now pin }
    {
        pin < PINS && self.outside[pin as usize]
    }

    /// The first places of a serial channel's source array become these words; those past its end are dropped.
    fn fill(&mut self, channel: u32, words: &[u32])
        requires { CanHappen self.old (Order.Fill channel words.now) }
        ensures { self.new ≡ filled self.old channel words.now }
    {
        let count = words
            .len()
            .min(self.wiring.sources[channel as usize] as usize);
        let first = (SOURCES + 64 * channel) as usize;
        self.words[first..first + count].copy_from_slice(&words[..count]);
    }

    /// A reset: all registers, RAM words and driver words become 0. The times go on, and what stands outside stays.
    pub fn reset(&mut self, reason: Reason)
        ensures { self.new ≡ reset_chip self.old reason }
    {
        self.clock.reset(reason);
        self.timers.reset();
        self.pulses.reset();
        self.captures.reset();
        self.converters.reset();
        self.serials.reset();
        self.pins.reset();
        self.ram.reset();
        self.watchdog.reset();
        self.irq = Irq::new();
        words::clear(&mut self.words);
    }

    /// Whether the flag of a line and its enable bit are set.
    pub fn pending(&self, line: u32) -> bool
        ensures { result ≡ is_pending self.now line }
    {
        self.irq.enabled(line) && self.irq.pending(line, self.flags_with(line))
    }

    /// The lines that are pending, the first one in bit 0.
    pub fn pending_lines(&self) -> u32
        ensures { (line : ℕ) → has_bit result line ≡ is_pending self.now line }
    {
        let timed = self.timers.flags() | self.pulses.flags();
        let served = self.captures.flags() | (self.converters.flags() | self.serials.flags());
        (timed | served) & self.irq.enabled_lines()
    }

    /// The flags of the block to which a line belongs.
    fn flags_with(&self, line: u32) -> u32
        ensures { has_bit result line ≡ flag_of self.now line }
    {
        match line {
            0..=7 => self.timers.flags(),
            8..=15 => self.pulses.flags(),
            16..=23 => self.captures.flags(),
            24..=25 => self.converters.flags(),
            26..=27 => self.serials.flags(),
            _ => self.converters.flags(),
        }
    }

    /// Whether the interrupt mask is closed.
    pub fn masked(&self) -> bool
        ensures { result ≡ is_masked self.now }
    {
        self.irq.masked()
    }

    /// A driver word.
    pub fn word(&self, number: u32) -> u32
        requires { number < WORDS }
        ensures { result ≡ word_of self.now number }
    {
        self.words[number as usize]
    }

    /// A RAM word.
    pub fn ram(&self, number: u32) -> u32
        requires { number < 512 }
        ensures { result ≡ slice_index self.now.ram number }
    {
        self.ram.ram(number)
    }

    /// The word that comes in next on a serial unit, where no device answers.
    pub fn next_word(&self, unit: u32) -> u32
        requires { unit < 2 }
        ensures { result ≡ next_word self.now unit }
    {
        self.incoming[unit as usize].first()
    }

    /// The place of the device that is selected on a serial unit, and 1; 0 for none.
    pub fn selected(&self, unit: u32) -> u32
        ensures { result ≡ (unit_at self.now.serials unit).select }
    {
        self.serials.selected(unit)
    }

    /// The width of a word on a serial unit.
    pub fn width(&self, unit: u32) -> u32
        ensures { result ≡ (unit_at self.now.serials unit).width }
    {
        self.serials.width(unit)
    }

    /// What goes out on a serial unit where this is sent.
    pub fn outgoing(&self, unit: u32, sent: u32) -> u32
        ensures { result ≡ outgoing (unit_at self.now.serials unit) sent }
    {
        self.serials.outgoing(unit, sent)
    }

    /// The peripheral ticks of a tick of the oscillator.
    pub fn rate(&self) -> u32
        ensures { result ≡ self.now.clock.rate }
    {
        self.clock.rate()
    }

    /// The level of a pulse channel's output.
    pub fn pulse_level(&self, channel: u32) -> bool
        ensures { result ≡ level_at self.now.pulses channel }
    {
        self.pulses.level(channel)
    }

    /// The pin block.
    pub fn pins(&self) -> &PinBlock
        ensures { result.now ≡ self.now.pins }
    {
        &self.pins
    }

    /// The level of a pin.
    pub fn pin(&self, pin: u32) -> bool
        ensures { result ≡ pin_of self.now pin }
    {
        self.pins
            .pin(pin, self.outside_level(pin), self.output(pin))
    }

    /// The output that is seen at a pin, where a pulse channel names it.
    fn output(&self, pin: u32) -> Option<bool>
        ensures { result ≡ output_at self.now pin }
    {
        match channel_at(&self.wiring.outputs, pin) {
            Some(channel) => Some(self.pulses.level(channel)),
            None => None,
        }
    }
}

/// The ticks of the oscillator that make at most so many peripheral ticks, at this rate.
fn ticks_for(peripheral: u64, rate: u32) -> u64
    requires few { peripheral ≤ 8 }
    requires runs { 0 < rate }
    ensures ticks { result ≡ ticks_for peripheral rate }
    ensures few { result ≤ 8 }
    ensures enough { peripheral ≤ result * rate }
{
    let rate = u64::from(rate.max(1));
    (peripheral + (rate - 1)) / rate
}

/// The pulse channel whose output is seen at a pin.
fn channel_at(outputs: &[Option<u32>], pin: u32) -> Option<u32>
    requires { length outputs.now ≤ 8 }
    ensures { result ≡ channel_from 0 outputs.now pin }
{
    for (channel, output) in outputs.iter().enumerate() {
        if *output == Some(pin) {
            return Some(channel as u32);
        }
    }
    None
}

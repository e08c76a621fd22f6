use mcal_base::{
    AdcGroup, Config, DioChannelGroup, GptChannel, IcuChannel, McuClockSetting, McuConfig,
    McuModeSetting, ModuleName, PortPin, PwmChannel, Service, SpiChannel, SpiConfig, SpiJob,
    SpiSequence,
};

/// An object of a configuration that a script names by its number.
#[derive(Clone, Copy)]
pub(crate) enum Object {
    ClockSetting,
    ClockMode,
    RamSection,
    Pin,
    Timer,
    PulseOutput,
    CaptureInput,
    ConverterGroup,
    SerialChannel,
    SerialJob,
    SerialSequence,
    Channel,
    Port,
    ChannelGroup,
}

/// The name of an argument, and the object that it is the number of.
struct ArgumentRow(&'static str, Object);

/// The arguments of a module's services that are numbers of objects.
fn arguments_of(module: ModuleName) -> &'static [ArgumentRow] {
    match module {
        ModuleName::Mcu => &[
            ArgumentRow("setting", Object::ClockSetting),
            ArgumentRow("mode", Object::ClockMode),
            ArgumentRow("section", Object::RamSection),
        ],
        ModuleName::Port => &[ArgumentRow("pin", Object::Pin)],
        ModuleName::Gpt => &[ArgumentRow("channel", Object::Timer)],
        ModuleName::Pwm => &[ArgumentRow("channel", Object::PulseOutput)],
        ModuleName::Icu => &[ArgumentRow("channel", Object::CaptureInput)],
        ModuleName::Adc => &[ArgumentRow("group", Object::ConverterGroup)],
        ModuleName::Spi => &[
            ArgumentRow("channel", Object::SerialChannel),
            ArgumentRow("job", Object::SerialJob),
            ArgumentRow("sequence", Object::SerialSequence),
        ],
        ModuleName::Wdg => &[],
        ModuleName::Dio => &[
            ArgumentRow("channel", Object::Channel),
            ArgumentRow("port", Object::Port),
            ArgumentRow("group", Object::ChannelGroup),
        ],
    }
}

/// The object that an argument of this name is the number of.
pub(crate) fn object_of(service: Service, name: &str) -> Option<Object> {
    for ArgumentRow(argument, object) in arguments_of(service.module()) {
        if *argument == name {
            return Some(*object);
        }
    }
    None
}

impl Object {
    /// What it is called.
    pub(crate) fn text(self) -> &'static str {
        match self {
            Object::ClockSetting => "clock setting",
            Object::ClockMode => "clock mode",
            Object::RamSection => "RAM section",
            Object::Pin => "pin",
            Object::Timer => "timer channel",
            Object::PulseOutput => "pulse output",
            Object::CaptureInput => "capture input",
            Object::ConverterGroup => "converter group",
            Object::SerialChannel => "serial channel",
            Object::SerialJob => "serial job",
            Object::SerialSequence => "serial sequence",
            Object::Channel => "channel",
            Object::Port => "port",
            Object::ChannelGroup => "channel group",
        }
    }

    /// The error that a call with a number reports that no such object has.
    pub(crate) fn error(self) -> &'static str {
        match self {
            Object::ClockSetting => "MCU_E_PARAM_CLOCK",
            Object::ClockMode => "MCU_E_PARAM_MODE",
            Object::RamSection => "MCU_E_PARAM_RAMSECTION",
            Object::Pin => "PORT_E_PARAM_PIN",
            Object::Timer => "GPT_E_PARAM_CHANNEL",
            Object::PulseOutput => "PWM_E_PARAM_CHANNEL",
            Object::CaptureInput => "ICU_E_PARAM_CHANNEL",
            Object::ConverterGroup => "ADC_E_PARAM_GROUP",
            Object::SerialChannel => "SPI_E_PARAM_CHANNEL",
            Object::SerialJob => "SPI_E_PARAM_JOB",
            Object::SerialSequence => "SPI_E_PARAM_SEQ",
            Object::Channel => "DIO_E_PARAM_INVALID_CHANNEL_ID",
            Object::Port => "DIO_E_PARAM_INVALID_PORT_ID",
            Object::ChannelGroup => "DIO_E_PARAM_INVALID_GROUP",
        }
    }

    /// Whether the clock has the one with this number.
    fn is_in_clock(self, clock: &McuConfig, number: u32) -> bool {
        match self {
            Object::ClockSetting => has(clock.clock_settings.as_slice(), number),
            Object::ClockMode => has(clock.modes.as_slice(), number),
            _ => (number as usize) < clock.ram_sections.len(),
        }
    }

    /// Whether the serial part has the one with this number.
    fn is_in_serial(self, serial: &SpiConfig, number: u32) -> bool {
        match self {
            Object::SerialChannel => has(serial.channels.as_slice(), number),
            Object::SerialJob => has(serial.jobs.as_slice(), number),
            _ => has(serial.sequences.as_slice(), number),
        }
    }
}

/// What knows which objects a script may name.
pub(crate) trait Objects {
    /// Whether there is one of a kind with this number.
    fn has(&self, object: Object, number: u32) -> bool;
}

impl Objects for Config {
    /// Whether it is configured. A port is there where one of its eight pins is.
    fn has(&self, object: Object, number: u32) -> bool {
        match object {
            Object::ClockSetting | Object::ClockMode | Object::RamSection => {
                object.is_in_clock(&self.mcu, number)
            }
            Object::Pin | Object::Channel => has(self.port.pins.as_slice(), number),
            Object::Port => has_port(self.port.pins.as_slice(), number),
            Object::ChannelGroup => has(self.dio.groups.as_slice(), number),
            Object::Timer => has(self.gpt.channels.as_slice(), number),
            Object::PulseOutput => has(self.pwm.channels.as_slice(), number),
            Object::CaptureInput => has(self.icu.channels.as_slice(), number),
            Object::ConverterGroup => has(self.adc.groups.as_slice(), number),
            Object::SerialChannel | Object::SerialJob | Object::SerialSequence => {
                object.is_in_serial(&self.spi, number)
            }
        }
    }
}

/// What has a number by which a script names it.
trait Numbered {
    /// Its number.
    fn number(&self) -> u32;
}

impl Numbered for McuClockSetting {
    fn number(&self) -> u32 {
        self.id
    }
}

impl Numbered for McuModeSetting {
    fn number(&self) -> u32 {
        self.mode
    }
}

impl Numbered for PortPin {
    fn number(&self) -> u32 {
        self.id
    }
}

impl Numbered for GptChannel {
    fn number(&self) -> u32 {
        self.id
    }
}

impl Numbered for PwmChannel {
    fn number(&self) -> u32 {
        self.id
    }
}

impl Numbered for IcuChannel {
    fn number(&self) -> u32 {
        self.id
    }
}

impl Numbered for AdcGroup {
    fn number(&self) -> u32 {
        self.id
    }
}

impl Numbered for SpiChannel {
    fn number(&self) -> u32 {
        self.id
    }
}

impl Numbered for SpiJob {
    fn number(&self) -> u32 {
        self.id
    }
}

impl Numbered for SpiSequence {
    fn number(&self) -> u32 {
        self.id
    }
}

impl Numbered for DioChannelGroup {
    fn number(&self) -> u32 {
        self.id
    }
}

/// Whether one of some elements has this number.
fn has<T: Numbered>(elements: &[T], number: u32) -> bool {
    for element in elements {
        if element.number() == number {
            return true;
        }
    }
    false
}

/// Whether one of some pins is of this port.
fn has_port(pins: &[PortPin], port: u32) -> bool {
    for pin in pins {
        if pin.id / 8 == port {
            return true;
        }
    }
    false
}

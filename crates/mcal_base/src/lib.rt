//! The plain types that every layer speaks of: moves, registers, events, services, answers, directives and
//! configurations, and where bytes come from and go to; and which error a service finds (`det_errors`).
#![tactic(auto)]

mod answer;
mod answer_name;
mod argument_name;
mod bits;
mod boxed_words;
mod config;
pub mod det_errors;
mod directive;
mod ends;
mod error_name;
mod layout;
mod listed;
mod module_name;
mod moves;
mod notice;
mod register;
mod routine;
mod service;
mod short;
mod standard;
mod there;

pub use answer::{Answer, Head, Words};
pub use answer_name::AnswerName;
pub use argument_name::ArgumentName;
pub use bits::is_set;
pub use boxed_words::BoxedWords;
pub use config::adc::{
    AdcAccessMode, AdcConfig, AdcConversionMode, AdcGroup, AdcGroupReplacement, AdcHwUnit,
    AdcPriorityImplementation, AdcStreamBufferMode, AdcTriggerSource,
};
pub use config::dio::{DioChannelGroup, DioConfig};
pub use config::gpt::{GptChannel, GptChannelMode, GptConfig};
pub use config::icu::{
    IcuChannel, IcuConfig, IcuMeasurementMode, IcuSignalMeasurementProperty, IcuStartEdge,
    IcuTimestampMeasurementProperty,
};
pub use config::mcu::{McuClockSetting, McuConfig, McuModeSetting, McuRamSection};
pub use config::port::{PortConfig, PortPin, PortPinDirection, PortPinMode};
pub use config::pwm::{PwmChannel, PwmChannelClass, PwmConfig, PwmOutputState};
pub use config::spi::{SpiChannel, SpiChannelType, SpiConfig, SpiJob, SpiSequence};
pub use config::wdg::{WdgConfig, WdgMode};
pub use config::whole::Config;
pub use directive::{Argument, Directive, Order, Reason, Request, Shown, Stop};
pub use ends::{Failed, NoMemory, Sink, Source};
pub use error_name::ErrorName;
pub use layout::{Array, DESTINATIONS, SOURCES, STAMPS, USERS, place, whose_words};
pub use listed::{ListSink, ListSource};
pub use module_name::ModuleName;
pub use moves::{DevError, Event, Move, Unit};
pub use notice::{Notice, NoticeKind};
pub use register::Reg;
pub use routine::{Routine, Taken};
pub use service::Service;
pub use short::Short;
pub use standard::{StdSink, StdSource};

/// The number of driver words: 8,192 for each of nine modules, and as many for the users' arrays.
pub const WORDS: u32 = 147_456;

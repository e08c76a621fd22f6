use crate::error_name::ErrorName;
use crate::notice::Notice;
use crate::register::Reg;
use crate::service::Service;

/// An error with the service that found it, as it is reported.
#[derive(Clone, Copy)]
pub struct DevError {
    /// The service that found the error.
    pub service: Service,
    /// The error.
    pub error: ErrorName,
    /// Whether it is a runtime error, which `Det_ReportRuntimeError` is told, or a development error, for `Det_ReportError`.
    pub runtime: bool,
}

/// One move of a frame: all that a step does to the world.
#[derive(Clone, Copy)]
pub enum Move {
    /// Reads a register.
    Read(Reg),
    /// Writes a value to a register.
    Write(Reg, u32),
    /// Loads the driver word of this number.
    Load(u32),
    /// Stores a value in the driver word of this number.
    Store(u32, u32),
    /// Closes the interrupt mask.
    Mask,
    /// Opens the interrupt mask.
    Unmask,
    /// Calls a callback.
    Note(Notice),
    /// Reports an error.
    Report(DevError),
}

/// A hardware unit that converts or transfers.
#[derive(Clone, Copy)]
pub enum Unit {
    /// The first converter unit.
    Adc0,
    /// The second converter unit.
    Adc1,
    /// The first serial unit.
    Spi0,
    /// The second serial unit.
    Spi1,
}

/// What a step is to the machine of its module, beside its move.
#[derive(Clone, Copy)]
pub enum Event {
    /// The call acts: its effect and its answer are those of the machine here.
    Act,
    /// The line of this number is served.
    Serve(u32),
    /// The running round of a converter unit is aborted.
    Abort(Unit),
    /// A unit starts its next round or job.
    Start(Unit),
}

/// The module's state: 0 uninitialised, 1 initialised.
pub const STATE: u32 = 0;

/// The mode that was set last, 0 where none was.
pub const MODE: u32 = 1;

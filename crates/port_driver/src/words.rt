/// The module's state: 0 uninitialised, 1 initialised.
pub const STATE: u32 = 8_192;

/// The module's state: 0 uninitialised, else the mode, 1 off, 2 slow, 3 fast.
pub const STATE: u32 = 65_536;

/// The timeout, in units of the mode.
pub const TIMEOUT: u32 = 65_537;

/// A call of the module.
#[derive(Clone, Copy)]
pub enum Call {
    /// Fills a section with a value.
    Fill(u8, u32),
    /// Asks the unit to work.
    Ask,
    /// Keeps a value.
    Put(u32),
    /// Answers the value that was kept last.
    Take,
    /// Serves a line, if it is ready.
    Poll,
    /// Resets the chip.
    Reboot,
}

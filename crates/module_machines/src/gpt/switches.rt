/// The switches of a channel.
#[derive(Clone, Copy)]
pub struct Switches {
    /// An expiry is notified.
    pub notification: bool,
    /// The channel may wake.
    pub wakeup: bool,
    /// It has woken, and nobody has asked since.
    pub woken: bool,
}

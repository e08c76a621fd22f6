/// What stands around the pins, which are 64.
#[derive(Clone, Copy)]
pub struct Around {
    /// The outside level of each.
    pub levels: [bool; 64],
    /// The output of the pulse channel that is seen at each, where one is.
    pub outputs: [Option<bool>; 64],
}

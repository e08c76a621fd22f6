/// What chip and machines agree in, part by part.
#[derive(Clone, Copy)]
pub enum Aspect {
    /// The outputs of pulse units.
    Outputs,
    /// Direction, mode and latch of pins.
    Pins,
    /// The words of RAM.
    Ram,
    /// The stamps of capture channels.
    Stamps,
    /// The results of converter groups.
    Results,
    /// The arrays of serial channels.
    Arrays,
}

/// What a deed touches of it.
#[derive(Clone, Copy)]
pub enum Touched {
    /// None.
    Nothing,
    /// This aspect.
    One(Aspect),
    /// What stands in the words of users: stamps, results and arrays.
    Words,
}

/// How what is found is printed.
#[derive(Clone, Copy)]
pub enum Style {
    /// For a person.
    Plain,
    /// As JSON.
    Json,
    /// As the XML that test servers read.
    Junit,
}

/// What is printed, and the status.
#[derive(Drop)]
pub struct Told {
    /// The status.
    pub status: u8,
    /// What is printed.
    pub text: String,
}

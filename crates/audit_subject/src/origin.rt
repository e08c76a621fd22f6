/// What a frame was begun for: a call of a subject, or the handler of a line.
#[derive(Drop)]
pub enum Origin<C> {
    /// A call.
    Call(C),
    /// The handler of a line.
    Line(u32),
}

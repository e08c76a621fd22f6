use mcal_base::Stop;

/// How far a directive steps the top frame; it stops before that where the frame ends.
#[derive(Clone, Copy)]
pub enum StopCondition {
    /// So many steps.
    Count(u32),
    /// Up to such a step.
    Until(Stop),
    /// To the end of the frame.
    Whole,
}

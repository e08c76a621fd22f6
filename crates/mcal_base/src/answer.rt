use crate::answer_name::AnswerName;
use crate::short::Short;

/// The numbers of an answer: at most 64, which contracts see as a list.
pub type Words = Short<u32, 64>;

/// What an answer begins with.
#[derive(Clone, Copy)]
pub enum Head {
    /// The service answers nothing.
    Nothing,
    /// A name, which numbers may follow.
    Name(AnswerName),
    /// Numbers alone.
    Numbers,
    /// A count of 0 and no pointer, printed `0 null`.
    ZeroNull,
}

/// The answer of a call.
#[derive(Drop)]
pub struct Answer {
    /// What it begins with.
    pub head: Head,
    /// The numbers that follow.
    pub words: Words,
}

use std::alloc::{AllocError, Global};
use strsim::osa_distance;

/// The choice that is most like a word, where one is like it: at most a third of its letters differ.
pub fn nearest<'a>(
    alloc: Global,
    word: &str,
    choices: &[&'a str],
) -> Result<Option<&'a str>, AllocError> {
    let mut best = None;
    let mut least = usize::MAX;
    for choice in choices {
        let distance = osa_distance(alloc, word, choice)?;
        let limit = choice.len().max(word.len()) / 3;
        if distance <= limit.max(1) && distance < least {
            least = distance;
            best = Some(*choice);
        }
    }
    Ok(best)
}

/// What may stand in place of a word: the choice that is most like it, or else all of them.
pub fn allowed(alloc: Global, word: &str, choices: &[&str]) -> Result<String, AllocError> {
    if let Some(choice) = nearest(alloc, word, choices)? {
        return format!(in alloc; "did you mean `{choice}`?");
    }
    let mut text = String::from_str(alloc, "allowed:")?;
    let mut mark = " ";
    for choice in choices {
        text.push_str(mark)?;
        text.push_str(choice)?;
        mark = ", ";
    }
    Ok(text)
}

use std::alloc::{AllocError, Global};

/// What stands for a character in XML, where it can't stand there itself.
fn escape_of(character: char) -> Option<&'static str> {
    match character {
        '&' => Some("&amp;"),
        '<' => Some("&lt;"),
        '>' => Some("&gt;"),
        '"' => Some("&quot;"),
        _ => None,
    }
}

/// Writes a text as XML has it.
fn put_escaped(text: &mut String, plain: &str) -> Result<(), AllocError> {
    for character in plain.chars() {
        match escape_of(character) {
            Some(escape) => text.push_str(escape)?,
            None => text.push(character)?,
        }
    }
    Ok(())
}

/// Writes how the test failed, where a text says it.
fn put_failure(text: &mut String, failure: &str) -> Result<(), AllocError> {
    if failure.is_empty() {
        return Ok(());
    }
    text.push_str("<failure message=\"another report was expected\">\n")?;
    put_escaped(text, failure)?;
    text.push_str("</failure>")
}

/// Writes the result of a file as a suite of one test.
fn put_suite(text: &mut String, name: &str, failure: &str) -> Result<(), AllocError> {
    let failures = if failure.is_empty() { 0 } else { 1 };
    write!(
        text,
        "<?xml version=\"1.0\" encoding=\"UTF-8\"?>\n<testsuite name=\"mcal\" tests=\"1\" failures=\"{failures}\">\n<testcase name=\""
    )?;
    put_escaped(text, name)?;
    text.push_str("\">")?;
    put_failure(text, failure)?;
    text.push_str("</testcase>\n</testsuite>\n")
}

/// The result of a file as a suite of one test; it failed where a text says how.
pub(crate) fn suite(alloc: Global, name: &str, failure: &str) -> Result<String, AllocError> {
    let mut text = String::new(alloc);
    put_suite(&mut text, name, failure)?;
    Ok(text)
}

use json::{Pretty, Token};
use std::alloc::AllocError;

/// Writes a text behind its key.
pub(crate) fn put_text(out: &mut Pretty, key: &str, text: &str) -> Result<(), AllocError> {
    out.token(Token::Key(key))?;
    out.token(Token::String(text))
}

/// Writes a whole number.
fn put_whole(out: &mut Pretty, number: u64) -> Result<(), AllocError> {
    let mut buffer = itoa::Buffer::new();
    out.token(Token::Number(buffer.format(number)))
}

/// Writes a whole number behind its key.
pub(crate) fn put_number(out: &mut Pretty, key: &str, number: u32) -> Result<(), AllocError> {
    out.token(Token::Key(key))?;
    put_whole(out, number as u64)
}

/// Begins an object behind its key.
pub(crate) fn begin(out: &mut Pretty, key: &str) -> Result<(), AllocError> {
    out.token(Token::Key(key))?;
    out.token(Token::BeginObject)
}

/// Ends an object.
pub(crate) fn end(out: &mut Pretty) -> Result<(), AllocError> {
    out.token(Token::EndObject)
}

/// Writes names behind their key.
pub(crate) fn put_names(out: &mut Pretty, key: &str, names: &[&str]) -> Result<(), AllocError> {
    out.token(Token::Key(key))?;
    out.token(Token::BeginArray)?;
    for name in names {
        out.token(Token::String(name))?;
    }
    out.token(Token::EndArray)
}

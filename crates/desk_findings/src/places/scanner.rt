use crate::places::lines::Span;
use crate::places::measured::{Signs, plain_len, quoted_len};
use crate::places::placed::Placed;
use std::alloc::{AllocError, Global};
use std::str;

/// An array or an inline table that was begun.
#[derive(Drop)]
struct Opened {
    /// The path that leads to it.
    path: String,
    /// Of an array, the number of its next item.
    next_item: Option<usize>,
    /// Its number among the places that were found.
    found: usize,
}

/// Goes through a TOML text from its front to its end.
#[derive(Drop)]
struct Scanner<'a> {
    alloc: Global,
    text: &'a [u8],
    /// How many bytes lie behind it.
    at: usize,
    /// The path that the last header names.
    table: String,
    /// The arrays of tables of which headers came, one for each header.
    headers: Vec<String>,
    /// The innermost one is the last.
    opened: Vec<Opened>,
    found: Vec<Placed>,
}

/// A path and one more part.
fn joined(alloc: Global, path: &str, part: &str) -> Result<String, AllocError> {
    if path.is_empty() {
        String::from_str(alloc, part)
    } else {
        format!(in alloc; "{path}.{part}")
    }
}

/// How often a path is among some.
fn count_of(paths: &[String], path: &str) -> usize {
    let mut count = 0usize;
    for other in paths {
        if other.as_str() == path {
            count = count.saturating_add(1);
        }
    }
    count
}

impl<'a> Scanner<'a> {
    /// The next byte, if there is one.
    fn byte(&self) -> Option<u8> {
        self.text.get(self.at).copied()
    }

    /// What is still to come.
    fn rest(&self) -> &'a [u8] {
        self.text.get(self.at..).unwrap_or(&[])
    }

    /// Goes on by so many bytes.
    fn skip(&mut self, bytes: usize) {
        self.at = self.at.saturating_add(bytes);
    }

    /// Goes on behind such bytes.
    fn skip_all(&mut self, signs: Signs) {
        self.skip(signs.count_in(self.rest()));
    }

    /// Goes on to the next byte that is no space, no end of a line and in no comment.
    fn skip_blank(&mut self) {
        for _ in 0..self.text.len() {
            self.skip_all(Signs::Blanks);
            if self.byte() != Some(b'#') {
                return;
            }
            self.skip_all(Signs::Line);
        }
    }

    /// The text between two places, empty where it is none.
    fn text_between(&self, start: usize, end: usize) -> &'a str {
        str::from_utf8(self.text.get(start..end).unwrap_or(&[])).unwrap_or("")
    }

    /// Reads a part of a key. It goes on by a byte at least.
    fn key_part(&mut self) -> &'a str {
        let start = self.at;
        if matches!(self.byte(), Some(b'"' | b'\'')) {
            let bytes = quoted_len(self.rest());
            self.skip(bytes);
            let end = self.at.saturating_sub(1);
            self.text_between(start.saturating_add(1), end)
        } else {
            let bytes = Signs::BareKey.count_in(self.rest());
            self.skip(bytes.max(1));
            self.text_between(start, start.saturating_add(bytes))
        }
    }

    /// Reads a key, and puts its parts behind a path. The part of the text is the key's, without the spaces behind it.
    fn key(&mut self, front: &str) -> Result<(String, Span), AllocError> {
        let start = self.at;
        let mut end = start;
        let mut path = String::from_str(self.alloc, front)?;
        for _ in 0..self.text.len() {
            let part = self.key_part();
            path = joined(self.alloc, path.as_str(), part)?;
            end = self.at;
            self.skip_all(Signs::Spaces);
            if self.byte() != Some(b'.') {
                break;
            }
            self.skip(1);
            self.skip_all(Signs::Spaces);
        }
        Ok((path, Span { start, end }))
    }

    /// Keeps a place.
    fn keep(&mut self, path: &str, key: Span, value: Span) -> Result<(), AllocError> {
        let path = String::from_str(self.alloc, path)?;
        self.found.push(Placed { path, key, value })?;
        Ok(())
    }

    /// The path of one more element of an array of tables, whose header names the array.
    fn next_of(&mut self, path: String, key: Span) -> Result<String, AllocError> {
        let before = count_of(&self.headers, path.as_str());
        if before == 0 {
            self.keep(path.as_str(), key, key)?;
        }
        let element = format!(in self.alloc; "{path}.{before}")?;
        self.headers.push(path)?;
        Ok(element)
    }

    /// Reads the header of a table, or of an element of an array of tables.
    fn header(&mut self) -> Result<(), AllocError> {
        let is_element = self.rest().starts_with(b"[[");
        self.skip(if is_element { 2 } else { 1 });
        self.skip_all(Signs::Spaces);
        let (mut path, key) = self.key("")?;
        self.skip_all(Signs::Line);
        if is_element {
            path = self.next_of(path, key)?;
        }
        self.keep(path.as_str(), key, key)?;
        self.table = path;
        Ok(())
    }

    /// Begins an array or an inline table.
    fn open(&mut self, path: &str, next_item: Option<usize>) -> Result<(), AllocError> {
        self.skip(1);
        let path = String::from_str(self.alloc, path)?;
        self.opened.push(Opened {
            path,
            next_item,
            found: self.found.len(),
        })?;
        Ok(())
    }

    /// Ends the innermost array or inline table.
    fn close(&mut self) {
        self.skip(1);
        let Some(closed) = self.opened.pop() else {
            return;
        };
        let end = self.at;
        if let Some(placed) = self.found.get_mut(closed.found) {
            placed.value.end = end;
        }
    }

    /// Reads a value, or the front of an array or of an inline table. An item has no key.
    fn value(&mut self, path: &str, key: Option<Span>) -> Result<(), AllocError> {
        let start = self.at;
        match self.byte() {
            Some(b'[') => self.open(path, Some(0))?,
            Some(b'{') => self.open(path, None)?,
            Some(b'"' | b'\'') => {
                let bytes = quoted_len(self.rest());
                self.skip(bytes);
            }
            _ => {
                let bytes = plain_len(self.rest());
                self.skip(bytes);
            }
        }
        let value = Span {
            start,
            end: self.at,
        };
        self.keep(path, key.unwrap_or(value), value)
    }

    /// Reads a key of a table, and its value.
    fn member(&mut self, table: &str) -> Result<(), AllocError> {
        let (path, key) = self.key(table)?;
        if self.byte() != Some(b'=') {
            return Ok(());
        }
        self.skip(1);
        self.skip_all(Signs::Spaces);
        self.value(path.as_str(), Some(key))
    }

    /// Reads an item of the innermost array. It goes on by a byte at least.
    fn item(&mut self, path: &str, number: usize) -> Result<(), AllocError> {
        let start = self.at;
        let path = format!(in self.alloc; "{path}.{number}")?;
        self.value(path.as_str(), None)?;
        if self.at == start {
            self.skip(1);
        }
        Ok(())
    }

    /// Has the next item of the innermost array be the one behind.
    fn count_item(&mut self) {
        if let Some(opened) = self.opened.last_mut() {
            if let Some(number) = opened.next_item {
                opened.next_item = Some(number.saturating_add(1));
            }
        }
    }

    /// Reads what comes next within an array or an inline table.
    fn inside(&mut self, byte: u8, path: &str, next_item: Option<usize>) -> Result<(), AllocError> {
        match byte {
            b']' | b'}' => self.close(),
            b',' => {
                self.skip(1);
                self.count_item();
            }
            _ => match next_item {
                Some(number) => self.item(path, number)?,
                None => self.member(path)?,
            },
        }
        Ok(())
    }

    /// Reads what comes next, if something does.
    fn next(&mut self) -> Result<bool, AllocError> {
        self.skip_blank();
        let Some(byte) = self.byte() else {
            return Ok(false);
        };
        if let Some(opened) = self.opened.last() {
            let path = opened.path.clone()?;
            let next_item = opened.next_item;
            self.inside(byte, path.as_str(), next_item)?;
        } else if byte == b'[' {
            self.header()?;
        } else {
            let table = self.table.clone()?;
            self.member(table.as_str())?;
        }
        Ok(true)
    }
}

/// All keys and items of a TOML text, in their order. Of a text that is none, those that are seen.
pub fn places_in(alloc: Global, text: &[u8]) -> Result<Vec<Placed>, AllocError> {
    let mut scanner = Scanner {
        alloc,
        text,
        at: 0,
        table: String::new(alloc),
        headers: Vec::new(alloc),
        opened: Vec::new(alloc),
        found: Vec::new(alloc),
    };
    for _ in 0..text.len() {
        if !scanner.next()? {
            break;
        }
    }
    Ok(scanner.found)
}

//! The strings of tables: words, escapes and bytes in hex.
use std::alloc::{AllocError, AllocFailed, Global};
use std::num::ParseIntError;
use std::{io, str};

/// Why a row isn't run to its end.
#[derive(Clone, Copy)]
pub enum Stop {
    /// A line can't be read.
    Unreadable,
    /// Memory or a device failed.
    Broken,
}

impl From<AllocError> for Stop {
    fn from(_: AllocError) -> Stop {
        Stop::Broken
    }
}

impl<T: Drop> From<AllocFailed<T>> for Stop {
    fn from(_: AllocFailed<T>) -> Stop {
        Stop::Broken
    }
}

impl From<io::Error> for Stop {
    fn from(_: io::Error) -> Stop {
        Stop::Broken
    }
}

impl From<ParseIntError> for Stop {
    fn from(_: ParseIntError) -> Stop {
        Stop::Unreadable
    }
}

/// The first word of a line, and what stands after one blank.
pub fn halves(line: &str) -> (&str, &str) {
    match line.split_once(' ') {
        Some((word, rest)) => (word, rest),
        None => (line, ""),
    }
}

// The byte that a backslash and this byte stand for; none for `e`.
fn escape(byte: u8) -> Option<u8> {
    match byte {
        b'n' => Some(b'\n'),
        b't' => Some(b'\t'),
        b'r' => Some(b'\r'),
        b's' => Some(b' '),
        b'e' => None,
        _ => Some(byte),
    }
}

/// The bytes of an escaped string.
pub fn plain(alloc: Global, text: &str) -> Result<Vec<u8>, AllocError> {
    let mut bytes = Vec::with_capacity(alloc, text.len())?;
    let mut escaped = false;
    for byte in text.as_bytes() {
        if escaped {
            escaped = false;
            bytes.extend_from_slice(escape(*byte).as_slice())?;
        } else if *byte == b'\\' {
            escaped = true;
        } else {
            bytes.extend_from_slice(&[*byte])?;
        }
    }
    Ok(bytes)
}

/// The string of these bytes.
pub fn text_of(bytes: Vec<u8>) -> Result<String, Stop> {
    match String::from_utf8(bytes) {
        Ok(text) => Ok(text),
        Err(_) => Err(Stop::Unreadable),
    }
}

/// An escaped name, word or string.
pub fn plain_text(alloc: Global, text: &str) -> Result<String, Stop> {
    text_of(plain(alloc, text)?)
}

fn add_word(alloc: Global, words: &mut Vec<String>, word: &str) -> Result<(), Stop> {
    if !word.is_empty() {
        words.push(plain_text(alloc, word)?)?;
    }
    Ok(())
}

/// The escaped words of a line.
pub fn plain_words(alloc: Global, line: &str) -> Result<Vec<String>, Stop> {
    let mut words = Vec::new(alloc);
    for word in line.split(' ') {
        add_word(alloc, &mut words, word)?;
    }
    Ok(words)
}

/// The bytes of a string in hex.
pub fn bytes_of(alloc: Global, text: &str) -> Result<Vec<u8>, Stop> {
    match hex::decode(alloc, text) {
        Ok(bytes) => Ok(bytes),
        Err(_) => Err(Stop::Unreadable),
    }
}

// What stands in a table for a letter of a string or a word, where it isn't the letter.
fn escape_of(letter: char, in_word: bool) -> Option<&'static str> {
    match letter {
        '\n' => Some("\\n"),
        '\t' => Some("\\t"),
        '\r' => Some("\\r"),
        '\\' => Some("\\\\"),
        ' ' if in_word => Some("\\s"),
        _ => None,
    }
}

/// A string, or a name or a word, as it stands in a table.
pub fn escaped(alloc: Global, text: &str, in_word: bool) -> Result<String, AllocError> {
    let mut escaped = String::with_capacity(alloc, text.len())?;
    for letter in text.chars() {
        match escape_of(letter, in_word) {
            Some(two) => escaped.push_str(two)?,
            None => escaped.push(letter)?,
        }
    }
    Ok(escaped)
}

/// The string of these bytes, where it can be printed: each letter that has no escape is none of control.
pub fn printable(bytes: &[u8]) -> Option<&str> {
    let text = str::from_utf8(bytes).ok()?;
    for letter in text.chars() {
        if letter < ' ' && escape_of(letter, false).is_none() {
            return None;
        }
    }
    Some(text)
}

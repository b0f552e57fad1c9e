//! The arguments of the command line.
use std::alloc::{AllocError, Global};
use std::env::{Env, FillError};
use std::str;

/// The longest argument that is looked at, in bytes.
const LONGEST: usize = 131_072;

/// Why the arguments couldn't be handed in.
#[derive(Clone, Copy)]
pub enum WordsEnd {
    /// This argument, from 0 and without the program's name, isn't UTF-8, or is longer than any that the system passes.
    NotText { word: u32 },
    /// There was no memory for them.
    NoMemory,
}

impl From<AllocError> for WordsEnd {
    fn from(_: AllocError) -> Self {
        WordsEnd::NoMemory
    }
}

/// Adds the arguments of the command line, without the program's name; at an end those before it.
pub fn read_words(env: &impl Env, alloc: Global, words: &mut Vec<String>) -> Result<(), WordsEnd> {
    let mut buffer = vec![in alloc; 0; LONGEST]?;
    for word in 0..u32::MAX {
        let length = match env.arg(word as usize + 1, &mut buffer) {
            Ok(length) => length,
            Err(FillError::NotPresent) => break,
            Err(FillError::TooLong) => return Err(WordsEnd::NotText { word }),
        };
        let Ok(text) = str::from_utf8(&buffer[..length]) else {
            return Err(WordsEnd::NotText { word });
        };
        if words.push(String::from_str(alloc, text)?).is_err() {
            return Err(WordsEnd::NoMemory);
        }
    }
    Ok(())
}

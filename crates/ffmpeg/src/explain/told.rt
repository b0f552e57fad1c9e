//! A string that is written piece by piece.
use std::alloc::{AllocError, Global};

/// A string that is written piece by piece.
///
/// Want of memory sticks: it is noted here, and `finish` answers it in place of the string. Whoever writes asks once, at
/// the end. A `?` after each piece would be one more way out of the writer, and a proof follows each way with all it
/// knows.
#[derive(Drop)]
pub(crate) struct Told {
    /// Where it takes its memory from.
    pub(crate) alloc: Global,
    text: String,
    lacks_memory: bool,
}

impl Told {
    /// The empty string.
    pub(crate) fn new(alloc: Global) -> Told {
        Told {
            alloc,
            text: String::new(alloc),
            lacks_memory: false,
        }
    }

    /// Notes where something found no memory.
    pub(crate) fn note<T: Drop, E: Drop>(&mut self, done: Result<T, E>) {
        if done.is_err() {
            self.lacks_memory = true;
        }
    }

    /// Notes that something found no memory.
    pub(crate) fn fail(&mut self) {
        self.lacks_memory = true;
    }

    /// Adds a string.
    pub(crate) fn text(&mut self, text: &str) {
        let done = self.text.push_str(text);
        self.note(done);
    }

    /// Adds strings.
    pub(crate) fn texts(&mut self, texts: &[&str]) {
        for text in texts {
            self.text(text);
        }
    }

    /// Adds a character.
    pub(crate) fn char(&mut self, c: char) {
        let done = self.text.push(c);
        self.note(done);
    }

    /// Adds a number.
    pub(crate) fn number(&mut self, number: u64) {
        match number.to_string(self.alloc) {
            Ok(text) => self.text(text.as_str()),
            Err(_) => self.fail(),
        }
    }

    /// Adds a byte as two digits, in hexadecimal.
    pub(crate) fn byte(&mut self, byte: u8) {
        match format!(in self.alloc; "{byte:02X}") {
            Ok(text) => self.text(text.as_str()),
            Err(_) => self.fail(),
        }
    }

    /// The string; an error where memory ran out on the way.
    pub(crate) fn finish(self) -> Result<String, AllocError> {
        let Told {
            text,
            lacks_memory,
            ..
        } = self;
        if lacks_memory {
            Err(AllocError)
        } else {
            Ok(text)
        }
    }
}

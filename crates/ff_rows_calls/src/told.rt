//! A string that is written piece by piece.
use crate::table::Stop;
use std::alloc::Global;
use std::str;

/// A string that is written piece by piece, and the first problem on the way.
///
/// A problem sticks: it is noted here, and `finish` answers it in place of the string. Whoever writes asks once, at the
/// end. A `?` after each piece would be one more way out of the writer, and a proof follows each way with all it knows.
#[derive(Drop)]
pub struct Told {
    alloc: Global,
    text: String,
    stop: Option<Stop>,
}

impl Told {
    /// The empty string.
    pub fn new(alloc: Global) -> Told {
        Told {
            alloc,
            text: String::new(alloc),
            stop: None,
        }
    }

    /// Notes why there will be no string. The first problem counts.
    pub fn fail(&mut self, stop: Stop) {
        if self.stop.is_none() {
            self.stop = Some(stop);
        }
    }

    /// Whether nothing was written.
    pub fn is_empty(&self) -> bool {
        self.text.is_empty()
    }

    /// Adds a string.
    pub fn text(&mut self, text: &str) {
        if self.text.push_str(text).is_err() {
            self.fail(Stop::Broken);
        }
    }

    /// Adds strings.
    pub fn texts(&mut self, texts: &[&str]) {
        for text in texts {
            self.text(text);
        }
    }

    // Adds a string that was made for it.
    fn made<E: Drop>(&mut self, made: Result<String, E>) {
        match made {
            Ok(text) => self.text(text.as_str()),
            Err(_) => self.fail(Stop::Broken),
        }
    }

    /// Adds a number.
    pub fn number(&mut self, number: i64) {
        self.made(number.to_string(self.alloc));
    }

    /// Adds a number that isn't below 0.
    pub fn count(&mut self, count: u64) {
        self.made(count.to_string(self.alloc));
    }

    /// Adds numbers that aren't below 0, with a string between them.
    pub fn counts(&mut self, between: &str, counts: &[u64]) {
        for (place, count) in counts.iter().enumerate() {
            if place > 0 {
                self.text(between);
            }
            self.count(*count);
        }
    }

    /// Adds a number that isn't below 0 in hex, as `0x1f`.
    pub fn hex_number(&mut self, number: u64) {
        self.made(format!(in self.alloc; "0x{number:x}"));
    }

    /// Adds bytes in hex.
    pub fn hex(&mut self, bytes: &[u8]) {
        self.made(hex::encode(self.alloc, bytes));
    }

    /// Adds bytes in hex that were made for it.
    pub fn made_hex<E: Drop>(&mut self, made: Result<Vec<u8>, E>) {
        match made {
            Ok(bytes) => self.hex(bytes.as_slice()),
            Err(_) => self.fail(Stop::Broken),
        }
    }

    /// Adds the string of bytes that were made for it.
    pub fn made_text<E: Drop>(&mut self, made: Result<Vec<u8>, E>) {
        match made {
            Err(_) => self.fail(Stop::Broken),
            Ok(bytes) => match str::from_utf8(bytes.as_slice()) {
                Ok(text) => self.text(text),
                Err(_) => self.fail(Stop::Unreadable),
            },
        }
    }

    /// The string, or the first problem.
    pub fn finish(self) -> Result<String, Stop> {
        let Told { text, stop, .. } = self;
        match stop {
            Some(stop) => Err(stop),
            None => Ok(text),
        }
    }
}

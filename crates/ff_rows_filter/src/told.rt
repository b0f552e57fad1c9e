//! A string that is written piece by piece.
use crate::table::Stop;
use std::alloc::Global;

/// A string that is written piece by piece, and the first problem on the way.
///
/// A problem sticks: it is noted here, and `finish` answers it in place of the string. Whoever writes asks once, at the
/// end. A `?` after each piece would be one more way out of the writer, and a proof follows each way with all it knows.
#[derive(Drop)]
pub struct Told {
    alloc: Global,
    text: String,
    stop: Option<Stop>,
}

impl Told {
    /// The empty string.
    pub fn new(alloc: Global) -> Told {
        Told {
            alloc,
            text: String::new(alloc),
            stop: None,
        }
    }

    /// Notes why there will be no string. The first problem counts.
    pub fn fail(&mut self, stop: Stop) {
        if self.stop.is_none() {
            self.stop = Some(stop);
        }
    }

    /// Notes where something found no memory.
    pub fn note<T: Drop, E: Drop>(&mut self, done: Result<T, E>) {
        if done.is_err() {
            self.fail(Stop::Broken);
        }
    }

    /// Adds a string.
    pub fn text(&mut self, text: &str) {
        let done = self.text.push_str(text);
        self.note(done);
    }

    /// Adds strings.
    pub fn texts(&mut self, texts: &[&str]) {
        for text in texts {
            self.text(text);
        }
    }

    // Adds a string that was made for it.
    fn made<E: Drop>(&mut self, made: Result<String, E>) {
        match made {
            Ok(text) => self.text(text.as_str()),
            Err(_) => self.fail(Stop::Broken),
        }
    }

    /// Adds a number.
    pub fn number(&mut self, number: i64) {
        self.made(number.to_string(self.alloc));
    }

    /// Adds a number that isn't below 0.
    pub fn count(&mut self, count: u64) {
        self.made(count.to_string(self.alloc));
    }

    /// Adds numbers with a string between them.
    pub fn numbers(&mut self, between: &str, numbers: &[i64]) {
        for (place, number) in numbers.iter().enumerate() {
            if place > 0 {
                self.text(between);
            }
            self.number(*number);
        }
    }

    /// Adds bytes in hex.
    pub fn hex(&mut self, bytes: &[u8]) {
        self.made(hex::encode(self.alloc, bytes));
    }

    /// The string, or the first problem.
    pub fn finish(self) -> Result<String, Stop> {
        let Told { text, stop, .. } = self;
        match stop {
            Some(stop) => Err(stop),
            None => Ok(text),
        }
    }
}

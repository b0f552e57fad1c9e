//! The fields of a string, read one after another.
use crate::table::{Stop, halves};
use ff_time::Rational;

/// The fields of a string, read one after another, and the first problem on the way.
///
/// A problem sticks: it is noted here, and the field is a default value. `finish` answers the first; whoever reads asks
/// once, at the end. A `?` after each field would be one more way out of the reader, and a proof follows each way with
/// all it knows.
#[derive(Drop)]
pub struct Fields<'a> {
    rest: &'a str,
    stop: Option<Stop>,
}

impl<'a> Fields<'a> {
    /// The fields of a string, of which none is read.
    pub fn new(text: &'a str) -> Fields<'a> {
        Fields {
            rest: text,
            stop: None,
        }
    }

    /// Notes why the fields can't be read. The first problem counts.
    pub fn fail(&mut self, stop: Stop) {
        if self.stop.is_none() {
            self.stop = Some(stop);
        }
    }

    /// Notes where something found no memory, and answers whether it found some.
    pub fn note<T: Drop, E: Drop>(&mut self, done: Result<T, E>) -> bool {
        if done.is_err() {
            self.fail(Stop::Broken);
            return false;
        }
        true
    }

    /// The next field up to a sign, which has to come.
    pub fn until(&mut self, sign: char) -> &'a str {
        match self.rest.split_once(sign) {
            Some((field, rest)) => {
                self.rest = rest;
                field
            }
            None => {
                self.fail(Stop::Unreadable);
                ""
            }
        }
    }

    /// The next word.
    pub fn word(&mut self) -> &'a str {
        let (word, rest) = halves(self.rest);
        self.rest = rest;
        word
    }

    /// All that is left.
    pub fn rest(&mut self) -> &'a str {
        let rest = self.rest;
        self.rest = "";
        rest
    }

    /// A field as a number.
    pub fn signed(&mut self, field: &str) -> i64 {
        match field.parse::<i64>() {
            Ok(number) => number,
            Err(_) => {
                self.fail(Stop::Unreadable);
                0
            }
        }
    }

    /// A field as a number that isn't below 0.
    pub fn number(&mut self, field: &str) -> u32 {
        match field.parse::<u32>() {
            Ok(number) => number,
            Err(_) => {
                self.fail(Stop::Unreadable);
                0
            }
        }
    }

    /// A field as a number of a byte.
    pub fn small(&mut self, field: &str) -> u8 {
        match field.parse::<u8>() {
            Ok(number) => number,
            Err(_) => {
                self.fail(Stop::Unreadable);
                0
            }
        }
    }

    /// The next word, `NUM/DEN`, as a time base. None where it can't be read, and that is noted.
    pub fn base(&mut self) -> Option<Rational> {
        let num = self.until('/');
        let den = self.word();
        let (num, den) = (self.signed(num), self.signed(den));
        let base = Rational::new(num, den).ok();
        if base.is_none() {
            self.fail(Stop::Unreadable);
        }
        base
    }

    /// What the fields make, or the first problem. Where nothing was made, that is one.
    pub fn finish<T: Drop>(self, made: Option<T>) -> Result<T, Stop> {
        match (self.stop, made) {
            (None, Some(made)) => Ok(made),
            (Some(stop), _) => Err(stop),
            (None, None) => Err(Stop::Unreadable),
        }
    }
}

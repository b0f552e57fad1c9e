//! The arguments of a call, read as numbers, bytes and samples.
ghost use Rattle.std.specs.Prelude.{◌≤◌};

use crate::table::Stop;
use ff_time::Rational;
use std::alloc::Global;

/// A call: its arguments, and the first problem on the way.
///
/// A problem sticks: it is noted here, and the argument is a default value. `end` answers the first; whoever reads asks
/// once, at the end. A `?` after each argument would be one more way out of the reader, and a proof follows each way with
/// all it knows. Only where a default could mislead, as the length of a loop, is there an `Option`.
#[derive(Drop)]
pub struct Call<'a> {
    /// Where a call takes its memory from.
    pub alloc: Global,
    words: &'a [String],
    stop: Option<Stop>,
}

impl<'a> Call<'a> {
    /// A call with these arguments, of which none is read.
    pub fn new(alloc: Global, words: &'a [String]) -> Call<'a> {
        Call {
            alloc,
            words,
            stop: None,
        }
    }

    /// Notes why the call has no answer. The first problem counts.
    pub fn fail(&mut self, stop: Stop) {
        if self.stop.is_none() {
            self.stop = Some(stop);
        }
    }

    /// Notes that a line can't be read.
    pub fn misread(&mut self) {
        self.fail(Stop::Unreadable);
    }

    /// Notes where something found no memory, and answers whether it found some.
    pub fn note<T: Drop, E: Drop>(&mut self, done: Result<T, E>) -> bool {
        if done.is_err() {
            self.fail(Stop::Broken);
            return false;
        }
        true
    }

    /// What was read, if it could be. Else that is noted.
    pub fn read<T: Drop>(&mut self, read: Option<T>) -> Option<T> {
        if read.is_none() {
            self.misread();
        }
        read
    }

    /// The first problem, if there is one.
    pub fn end(&self) -> Result<(), Stop> {
        match self.stop {
            Some(stop) => Err(stop),
            None => Ok(()),
        }
    }

    /// How many arguments there are.
    pub fn len(&self) -> usize {
        self.words.len()
    }

    /// Each of them.
    pub fn all(&self) -> &'a [String] {
        self.words
    }

    /// The argument at this place.
    pub fn text(&mut self, at: usize) -> &'a str {
        match self.words.get(at) {
            Some(word) => word.as_str(),
            None => {
                self.misread();
                ""
            }
        }
    }

    /// A string as a number.
    pub fn read_signed(&mut self, text: &str) -> i64 {
        match text.parse::<i64>() {
            Ok(number) => number,
            Err(_) => {
                self.misread();
                0
            }
        }
    }

    /// A string as a number that isn't below 0.
    pub fn read_number(&mut self, text: &str) -> u64 {
        match text.parse::<u64>() {
            Ok(number) => number,
            Err(_) => {
                self.misread();
                0
            }
        }
    }

    /// A string as a number that isn't below 0, and not above this.
    pub fn read_up_to(&mut self, text: &str, most: u64) -> u64
        ensures { result ≤ most }
    {
        let number = self.read_number(text);
        if number > most {
            self.misread();
            return 0;
        }
        number
    }

    /// A string as a number of 32 bits.
    pub fn read_wide(&mut self, text: &str) -> u32 {
        self.read_up_to(text, 0xFFFF_FFFF) as u32
    }

    /// The number at this place.
    pub fn signed(&mut self, at: usize) -> i64 {
        let text = self.text(at);
        self.read_signed(text)
    }

    /// The number at this place, which is not below 0.
    pub fn number(&mut self, at: usize) -> u64 {
        let text = self.text(at);
        self.read_number(text)
    }

    /// The number at this place, which is not below 0, and not above this.
    pub fn up_to(&mut self, at: usize, most: u64) -> u64
        ensures { result ≤ most }
    {
        let text = self.text(at);
        self.read_up_to(text, most)
    }

    /// The number of 32 bits at this place.
    pub fn wide(&mut self, at: usize) -> u32 {
        let text = self.text(at);
        self.read_wide(text)
    }

    /// The number of 8 bits at this place.
    pub fn small(&mut self, at: usize) -> u8 {
        self.up_to(at, 255) as u8
    }

    /// The samples of the arguments from this place on: each a number, or `NUMBER*TIMES`.
    pub fn samples(&mut self, from: usize) -> Vec<i32> {
        let mut out = Vec::new(self.alloc);
        for at in from..self.len() {
            let (sample, times) = self.repeated(at);
            match i32::try_from(sample) {
                Ok(sample) => self.add_times(&mut out, sample, times),
                Err(_) => self.misread(),
            }
        }
        out
    }

    /// The same of numbers that aren't below 0.
    pub fn numbers(&mut self, from: usize) -> Vec<u32> {
        let mut out = Vec::new(self.alloc);
        for at in from..self.len() {
            let (number, times) = self.repeated(at);
            match u32::try_from(number) {
                Ok(number) => self.add_times(&mut out, number, times),
                Err(_) => self.misread(),
            }
        }
        out
    }

    // A number, and how many times it stands for.
    fn repeated(&mut self, at: usize) -> (i64, u64) {
        let text = self.text(at);
        match text.split_once('*') {
            Some((number, times)) => (self.read_signed(number), self.read_number(times)),
            None => (self.read_signed(text), 1),
        }
    }

    fn add_times<T: Copy + Drop>(&mut self, out: &mut Vec<T>, item: T, times: u64) {
        for _ in 0..times {
            if !self.note(out.push(item)) {
                return;
            }
        }
    }

    /// The time base `NUM/DEN` at this place.
    pub fn base(&mut self, at: usize) -> Option<Rational> {
        let (num, den) = self.text(at).split_once('/').unwrap_or(("", ""));
        let (num, den) = (self.read_signed(num), self.read_signed(den));
        self.base_of(num, den)
    }

    /// This fraction as a time base.
    pub fn base_of(&mut self, num: i64, den: i64) -> Option<Rational> {
        let base = Rational::new(num, den).ok();
        self.read(base)
    }

    /// The bytes at this place: parts with a `+` between them. Each is hex, or a string after a `'`, and stands so
    /// many times as a number after a `*` says.
    pub fn bytes(&mut self, at: usize) -> Vec<u8> {
        let mut out = Vec::new(self.alloc);
        for part in self.text(at).split('+') {
            self.add_part(&mut out, part);
        }
        out
    }

    fn add_part(&mut self, out: &mut Vec<u8>, part: &str) {
        let (once, times) = match part.split_once('*') {
            Some((once, times)) => (once, self.read_number(times)),
            None => (part, 1),
        };
        let bytes = self.part_once(once);
        for _ in 0..times {
            if !self.note(out.extend_from_slice(bytes.as_slice())) {
                return;
            }
        }
    }

    fn part_once(&mut self, part: &str) -> Vec<u8> {
        match part.strip_prefix('\'') {
            Some(text) => self.copied(text.as_bytes()),
            None => self.hex(part),
        }
    }

    // A copy of bytes.
    fn copied(&mut self, bytes: &[u8]) -> Vec<u8> {
        match bytes.to_vec(self.alloc) {
            Ok(bytes) => bytes,
            Err(_) => {
                self.fail(Stop::Broken);
                Vec::new(self.alloc)
            }
        }
    }

    /// The bytes of a string in hex.
    pub fn hex(&mut self, text: &str) -> Vec<u8> {
        match hex::decode(self.alloc, text) {
            Ok(bytes) => bytes,
            Err(_) => {
                self.misread();
                Vec::new(self.alloc)
            }
        }
    }

    /// A string of the call's own.
    pub fn own(&mut self, text: &str) -> String {
        match String::from_str(self.alloc, text) {
            Ok(text) => text,
            Err(_) => {
                self.fail(Stop::Broken);
                String::new(self.alloc)
            }
        }
    }
}

//! The reader of bits, the most significant of each byte first.

ghost use Rattle.std.specs.Prelude.{◌≡◌, ℕ, ◌≤◌, ◌<◌, ◌+◌, ◌*◌, ◌/◌, ◌%◌, ◌^◌, ◌↔◌, IsTrue, length, take, drop, replicate, false, true, List, Bool, ◌∷◌, ◌++◌, IfOk, IfErr, OnErr, IfSome, IfNone};
ghost use Rattle.ff_bits.specs.Bits.{value_of, bits};
ghost use Rattle.ff_bits.specs.laws.Reads.{IsTaken, IsCounted, IsCoded};
ghost use Rattle.ff_bits.specs.laws.Runs.{IsRun};
ghost use Rattle.ff_bits.specs.Reading.{zeros};
ghost use Rattle.ff_bits.specs.NumberGrammar.{Answers};

use crate::window::BitWindow;
use crate::word::word_of;
use std::marker::Model;

/// Why nothing was read.
#[derive(Clone, Copy, Debug, PartialEq, Eq)]
pub enum BitEnd {
    /// The bits that are left are too few.
    Short,
    /// No coded number begins the bits that are left, whatever follows them.
    BadNumber,
}

/// The bits of some bytes that were not read yet. To a contract it is the list of them.
#[derive(Drop)]
pub struct BitReader<'a> {
    /// The bytes from the first that has bits left.
    bytes: &'a [u8],
    /// How many bits of the first byte were read, below 8.
    used: u32,
}

impl<'a> Model for BitReader<'a> {
    ghost use Rattle.std.specs.Prelude.{◌<◌, ◌≤◌, ◌*◌, List, Bool, drop, length};
    ghost use Rattle.ff_bits.specs.Bits.{bits};

    ghost Value = { List Bool };

    ghost view = { λ r. drop r.used (bits r.bytes.now) };

    ghost invariant = { λ r. (r.used < 8) × (r.used ≤ 8 * length r.bytes.now) };
}

impl<'a> BitReader<'a> {
    /// All bits of these bytes.
    pub fn new(bytes: &'a [u8]) -> BitReader<'a>
        ensures bits { result ≡ bits bytes.now }
        ensures len { length result ≡ 8 * length bytes.now }
    {
        BitReader { bytes, used: 0 }
    }

    /// All bits of these bytes but the first `used`.
    #[inline(always)]
    pub(crate) fn past(bytes: &'a [u8], used: u32) -> BitReader<'a>
        requires few { used < 8 }
        requires there { used ≤ 8 * length bytes.now }
        ensures { result ≡ drop used (bits bytes.now) }
    {
        BitReader { bytes, used }
    }

    /// A window over the same bits.
    #[inline(always)]
    pub fn window(&self) -> BitWindow<'a>
        ensures { result ≡ self.now }
    {
        BitWindow::past(self.bytes, self.used)
    }

    /// Whether `n` bits are left, of 64 at most.
    pub fn has(&self, n: u32) -> bool
        requires { n ≤ 64 }
        ensures { IsTrue result ↔ (n ≤ length self.now) }
    {
        self.bytes.len() > 8 || (n + self.used) as usize <= 8 * self.bytes.len()
    }

    /// How many bits are left.
    pub fn left(&self) -> u64
        requires { length self.now ≤ 2 ^ 53 }
        ensures { result ≡ length self.now }
    {
        8 * self.bytes.len() as u64 - self.used as u64
    }

    /// How many whole bytes are left.
    pub fn bytes_left(&self) -> usize
        ensures { result ≡ length self.now / 8 }
    {
        if self.used == 0 {
            self.bytes.len()
        } else {
            self.bytes.len() - 1
        }
    }

    /// How many bits are left of a byte that was begun.
    pub fn bits_to_byte(&self) -> u32
        ensures { result ≡ length self.now % 8 }
    {
        if self.used == 0 { 0 } else { 8 - self.used }
    }

    /// A reader of the same bits.
    pub fn copy(&self) -> BitReader<'a>
        ensures { result ≡ self.now }
    {
        BitReader {
            bytes: self.bytes,
            used: self.used,
        }
    }

    /// The next `n` bits as a number, the first the most significant. A refusal, which is Short, leaves the reader.
    pub fn take(&mut self, n: u32) -> Result<u64, BitEnd>
        requires { n ≤ 64 }
        ensures taken { IfOk result (λ v. IsTaken n self.old v self.new) }
        ensures below { IfOk result (λ v. v < 2 ^ n) }
        ensures short { IfErr result (λ e. (e ≡ BitEnd.Short) × (length self.old < n)) }
        ensures unchanged { OnErr result (self.new ≡ self.old) }
        ensures shorter { length self.new ≤ length self.old }
    {
        if !self.has(n) {
            return Err(BitEnd::Short);
        }
        if n <= 57 {
            return Ok(self.take_of_word(n));
        }
        let high = self.take_of_word(n - 32);
        let low = self.take_of_word(32);
        Ok(high << 32 | low)
    }

    /// How many zeros stand before the next one, and the value of the `n` bits after it. None, which leaves the reader,
    /// only where fewer than 57 bits are left or these are more than 57.
    #[inline(always)]
    pub fn code(&mut self, n: u32) -> Option<(u32, u64)>
        requires { n ≤ 57 }
        ensures read { IfSome result (λ r. IsCoded n self.old r.0 r.1 self.new) }
        ensures below { IfSome result (λ r. (r.0 < 64) × (r.1 < 2 ^ n)) }
        ensures none { IfNone result ((zeros : ℕ) → zeros + 1 + n ≤ 57 → 57 ≤ length self.old → IsCounted self.old zeros (drop (zeros + 1) self.old) → ⊥) }
        ensures unchanged { IfNone result (self.new ≡ self.old) }
        ensures shorter { length self.new ≤ length self.old }
    {
        if self.bytes.len() < 8 {
            return None;
        }
        let word = word_of(self.bytes);
        let zeros = (word << self.used).leading_zeros();
        let end = self.used + zeros + 1 + n;
        if end > 64 {
            return None;
        }
        self.skip(zeros + 1 + n);
        Some((zeros, (word >> (64 - end)) & ((1u64 << n) - 1)))
    }

    /// The next bits that are there, of one word.
    fn take_of_word(&mut self, n: u32) -> u64
        requires word { n ≤ 57 }
        requires there { n ≤ length self.old }
        ensures taken { IsTaken n self.old result self.new }
        ensures below { result < 2 ^ n }
    {
        if n == 0 {
            return 0;
        }
        let word = word_of(self.bytes);
        let at = self.used + n;
        self.skip(n);
        (word >> (64 - at)) & ((1u64 << n) - 1)
    }

    /// Goes past bits that are there.
    fn skip(&mut self, n: u32)
        requires few { n ≤ 64 }
        requires there { n ≤ length self.old }
        ensures { self.new ≡ drop n self.old }
    {
        let at = self.used + n;
        let bytes = self.bytes;
        self.bytes = &bytes[(at / 8) as usize..];
        self.used = at % 8;
    }
}

/// What begins the bits that are left, as far as one word shows.
enum Run {
    /// So many zeros, and a one.
    Ended(u32),
    /// So many zeros.
    Zeros(u32),
}

impl<'a> BitReader<'a> {
    /// How many zeros stand before the next one, which is read too. A refusal, which is Short and means that no one
    /// is left, leaves the reader.
    pub fn unary(&mut self) -> Result<u64, BitEnd>
        requires { length self.old ≤ 2 ^ 53 }
        ensures counted { IfOk result (λ zeros. IsCounted self.old zeros self.new) }
        ensures short { IfErr result (λ e. (e ≡ BitEnd.Short) × (self.old ≡ replicate (length self.old) false)) }
        ensures unchanged { OnErr result (self.new ≡ self.old) }
        ensures shorter { length self.new ≤ length self.old }
    {
        let bytes = self.bytes;
        let used = self.used;
        let mut zeros = 0u64;
        while self.has(1) {
            match self.run() {
                Run::Ended(more) => {
                    self.skip(more + 1);
                    return Ok(zeros + more as u64);
                }
                Run::Zeros(more) => {
                    self.skip(more);
                    zeros += more as u64;
                }
            }
        }
        self.bytes = bytes;
        self.used = used;
        Err(BitEnd::Short)
    }

    /// How many zeros, fewer than the limit, stand before the next one, which is read too. Short where more bits may
    /// make it so, BadNumber where there are as many zeros as the limit says.
    pub fn zeros(&mut self, limit: u64) -> Result<u64, BitEnd>
        requires { limit ≤ 2 ^ 62 }
        ensures reads { Answers result (zeros limit self.old) self.new }
        ensures below { IfOk result (λ z. z < limit) }
    {
        let mut count = 0u64;
        while count < limit {
            if !self.has(1) {
                return Err(BitEnd::Short);
            }
            match self.run() {
                Run::Ended(more) => {
                    self.skip(more + 1);
                    count += more as u64;
                    return if count < limit {
                        Ok(count)
                    } else {
                        Err(BitEnd::BadNumber)
                    };
                }
                Run::Zeros(more) => {
                    self.skip(more);
                    count += more as u64;
                }
            }
        }
        Err(BitEnd::BadNumber)
    }

    /// The zeros that come next.
    fn run(&self) -> Run
        requires { 0 < length self.now }
        ensures { IsRun result self.now }
    {
        let whole = if self.bytes.len() < 8 {
            8 * self.bytes.len() as u32
        } else {
            64
        };
        let there = whole - self.used;
        let zeros = (word_of(self.bytes) << self.used).leading_zeros();
        if zeros < there {
            Run::Ended(zeros)
        } else {
            Run::Zeros(there)
        }
    }
}

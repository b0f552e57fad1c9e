//! The coded numbers of frame headers.

ghost use Rattle.std.specs.Prelude.{◌≡◌, ◌≤◌, ◌<◌, ◌+◌, ◌^◌, ◌↔◌, length, IsTrue, IfOk, OnErr, IsErrOf, nat_lt, true, ◌||◌, ◌&&◌};
ghost use Rattle.ff_bits.specs.Number.{IsPartOfCode, BeginsNoCode};
ghost use Rattle.ff_bits.specs.laws.Reads.{IsNumber};
ghost use Rattle.ff_bits.specs.Reading.{field};
ghost use Rattle.ff_bits.specs.NumberGrammar.{Answers, coded, coded_below, first, further, is_within, sixes, follow, opened};

use crate::reader::{BitEnd, BitReader};

impl<'a> BitReader<'a> {
    /// The coded number that comes next (RFC 9639, section 9.1.5), in the shortest form or a longer one. A refusal
    /// leaves the reader.
    pub fn number(&mut self) -> Result<u64, BitEnd>
        ensures number { IfOk result (λ v. IsNumber self.old v self.new) }
        ensures below { IfOk result (λ v. v < 2 ^ 36) }
        ensures short { IsErrOf result BitEnd.Short ↔ IsPartOfCode self.old }
        ensures bad { IsErrOf result BitEnd.BadNumber ↔ BeginsNoCode self.old }
        ensures unchanged { OnErr result (self.new ≡ self.old) }
        ensures shorter { length self.new ≤ length self.old }
    {
        let mut ahead = self.copy();
        let value = ahead.coded()?;
        *self = ahead;
        Ok(value)
    }

    /// The coded number that comes next, in a form whose first byte is below this end. The end 0xfe stands for at
    /// most 31 bits of value, 0xff for 36.
    pub fn number_below(&mut self, end: u64) -> Result<u64, BitEnd>
        requires some { 0xc0 < end }
        requires form { end ≤ 0xff }
        ensures { Answers result (coded_below end self.old) self.new }
    {
        let byte = self.byte_within(0x80, 0xc0, end)?;
        let (count, value) = parts_of_first(byte);
        self.sixes(count, value)
    }

    fn coded(&mut self) -> Result<u64, BitEnd>
        ensures { Answers result (coded self.old) self.new }
    {
        let byte = self.byte_within(0x80, 0xc0, 0xff)?;
        let (count, value) = parts_of_first(byte);
        self.sixes(count, value)
    }

    /// The value with the low six bits of so many bytes more.
    fn sixes(&mut self, count: u32, opened: u64) -> Result<u64, BitEnd>
        requires few { count ≤ 6 }
        requires small { opened < 2 ^ 7 }
        ensures { Answers result (sixes count opened self.old) self.new }
    {
        let mut value = opened;
        for _i in 0..count {
            let byte = self.byte_within(0, 0x80, 0xc0)?;
            value = value * 64 + (byte - 0x80);
        }
        Ok(value)
    }

    /// The next byte, which is below `low` or from `from` to `to`, or what the bits that are there of one tell.
    fn byte_within(&mut self, low: u64, from: u64, to: u64) -> Result<u64, BitEnd>
        requires order { from < to }
        requires byte { to ≤ 256 }
        ensures reads { Answers result (field 8 (is_within low from to) self.old) self.new }
        ensures within { IfOk result (λ byte. is_within low from to byte ≡ true) }
    {
        if self.has(8) {
            let byte = self.take(8)?;
            if byte < low || byte < to && from <= byte {
                return Ok(byte);
            }
            return Err(BitEnd::BadNumber);
        }
        let there = self.left() as u32;
        let value = self.take(there)?;
        let least = value << (8 - there);
        let above = (value + 1) << (8 - there);
        if touches(least, above, low, from, to) {
            Err(BitEnd::Short)
        } else {
            Err(BitEnd::BadNumber)
        }
    }
}

/// Whether a number from `least` to below `above` is below `low` or from `from` to `to`.
fn touches(least: u64, above: u64, low: u64, from: u64, to: u64) -> bool
    ensures { result ≡ (nat_lt least low || (nat_lt least to && nat_lt from above)) }
{
    least < low || least < to && from < above
}

/// How many bytes follow this first one, and the bits of the value in it.
#[tactic(auto, unfolding(crate::specs::NumberGrammar::follow, crate::specs::NumberGrammar::opened))]
fn parts_of_first(byte: u64) -> (u32, u64)
    requires { is_within 0x80 0xc0 0xff byte ≡ true }
    ensures count { result.0 ≡ follow byte }
    ensures value { result.1 ≡ opened byte }
    ensures few { result.0 ≤ 6 }
    ensures small { result.1 < 2 ^ 7 }
{
    match byte {
        0..=0x7f => (0, byte),
        0x80..=0xdf => (1, byte - 0xc0),
        0xe0..=0xef => (2, byte - 0xe0),
        0xf0..=0xf7 => (3, byte - 0xf0),
        0xf8..=0xfb => (4, byte - 0xf8),
        0xfc..=0xfd => (5, byte - 0xfc),
        _ => (6, byte - 0xfe),
    }
}

//! The writer of bits, the most significant of each byte first.

ghost use Rattle.std.specs.Prelude.{◌≡◌, ◌+◌, ◌*◌, ◌-◌, ◌^◌, ◌<◌, ◌≤◌, ◌%◌, ◌/◌, ◌++◌, [], length, replicate, vec_len, vec_capacity, OnOk, OnErr, ℕ, false};
ghost use Rattle.ff_bits.specs.Bits.{bits_of, bits, padding};
ghost use Rattle.ff_bits.specs.Number.{shortest};

use crate::code::shortest_code;
use crate::waiting::{add, add_zeros, flushed};
use std::alloc::{AllocError, Global};
use std::marker::Model;

/// Bits that were written. To a contract it is the list of them.
#[derive(Drop)]
pub struct BitWriter {
    /// Whole words of eight bytes. There is room for what waits.
    bytes: Vec<u8>,
    /// The bits that wait to fill a word.
    word: u64,
    /// How many wait, below 64.
    count: u32,
}

impl Model for BitWriter {
    ghost use Rattle.std.specs.Prelude.{List, Bool};

    ghost Value = { List Bool };

    ghost use Rattle.ff_bits.specs.laws.Writer.{written, IsWriter};

    ghost view = { written };

    ghost invariant = { IsWriter };
}

impl BitWriter {
    /// No bits.
    pub fn new(alloc: Global) -> Self
        ensures { result ≡ [] }
    {
        BitWriter {
            bytes: Vec::new(alloc),
            word: 0,
            count: 0,
        }
    }

    /// Adds the lowest `n` bits of a number that has no others. A refusal leaves the writer.
    pub fn put(&mut self, value: u64, n: u32) -> Result<(), AllocError>
        requires { value < 2 ^ n }
        ensures ok { OnOk result (self.new ≡ self.old ++ bits_of n value) }
        ensures err { OnErr result (self.new ≡ self.old) }
    {
        if n > 64 {
            return self.put_wide(value, n);
        }
        self.bytes.reserve(16)?;
        let (word, count) = add(&mut self.bytes, self.word, self.count, value, n);
        self.word = word;
        self.count = count;
        Ok(())
    }

    /// Adds zeros and the 64 bits of a number.
    #[cold]
    fn put_wide(&mut self, value: u64, n: u32) -> Result<(), AllocError>
        requires { 64 < n }
        ensures ok { OnOk result (self.new ≡ self.old ++ bits_of n value) }
        ensures err { OnErr result (self.new ≡ self.old) }
    {
        self.bytes.reserve(n as usize / 8 + 32)?;
        let (word, count) = add_zeros(&mut self.bytes, self.word, self.count, n - 64);
        let (word, count) = add(&mut self.bytes, word, count, value, 64);
        self.word = word;
        self.count = count;
        Ok(())
    }

    /// Adds the coded number (RFC 9639, section 9.1.5) of a value, in its shortest form. A refusal leaves the writer.
    pub fn put_number(&mut self, value: u64) -> Result<(), AllocError>
        requires { value < 2 ^ 36 }
        ensures ok { OnOk result (self.new ≡ self.old ++ shortest value) }
        ensures err { OnErr result (self.new ≡ self.old) }
    {
        let code = shortest_code(value);
        self.put(code.bits, code.count)
    }

    /// Adds zeros up to a whole byte. A refusal leaves the writer.
    pub fn pad(&mut self) -> Result<(), AllocError>
        ensures ok { OnOk result (self.new ≡ self.old ++ replicate (padding (length self.old)) false) }
        ensures whole { OnOk result (length self.new % 8 ≡ 0) }
        ensures err { OnErr result (self.new ≡ self.old) }
    {
        let over = self.count % 8;
        if over == 0 {
            return Ok(());
        }
        self.put(0, 8 - over)?;
        Ok(())
    }

    /// The bytes of the bits, which are whole bytes.
    pub fn into_bytes(self) -> Vec<u8>
        requires { length self % 8 ≡ 0 }
        ensures bits { bits result.items ≡ self }
        ensures len { 8 * vec_len result ≡ length self }
    {
        let BitWriter { bytes, word, count } = self;
        flushed(bytes, word, count)
    }
}

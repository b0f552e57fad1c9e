//! Bits that wait until they fill a machine word.

ghost use Rattle.std.specs.Prelude.{◌≡◌, ◌+◌, ◌*◌, ◌-◌, ◌^◌, ◌<◌, ◌≤◌, ◌/◌, ◌%◌, ◌++◌, vec_len, vec_capacity};
ghost use Rattle.ff_bits.specs.Bits.{bits_of, bits};

/// The bits of `high`, then `count` bits of `low`.
fn joined(high: u64, low: u64, count: u32) -> u64
    requires shift { count < 64 }
    requires low { low < 2 ^ count }
    requires fits { high * 2 ^ count < 2 ^ 64 }
    ensures { result ≡ high * 2 ^ count + low }
{
    high << count | low
}

/// The bits that wait and `n` more, where they fit one word.
fn longer(word: u64, count: u32, value: u64, n: u32) -> u64
    requires word { word < 2 ^ count }
    requires value { value < 2 ^ n }
    requires fits { count + n < 64 }
    ensures below { result < 2 ^ (count + n) }
    ensures bits { bits_of (count + n) result ≡ bits_of count word ++ bits_of n value }
{
    joined(word, value, n)
}

/// A whole word of the bits that wait and `n` more, and what is left of them.
fn filled(word: u64, count: u32, value: u64, n: u32) -> (u64, u64)
    requires word { word < 2 ^ count }
    requires value { value < 2 ^ n }
    requires within { count < 64 }
    requires at_most { n ≤ 64 }
    requires fills { 64 ≤ count + n }
    ensures below { result.1 < 2 ^ (count + n - 64) }
    ensures bits { bits_of 64 result.0 ++ bits_of (count + n - 64) result.1 ≡ bits_of count word ++ bits_of n value }
{
    if count == 0 {
        return (value, 0);
    }
    let rest = count + n - 64;
    let high = value >> rest;
    (joined(word, high, 64 - count), value - (high << rest))
}

/// Adds eight bytes, for which there is room.
fn push_word(bytes: &mut Vec<u8>, word: u64)
    requires { vec_len bytes.old + 8 ≤ vec_capacity bytes.old }
    ensures bits { bits bytes.new.items ≡ bits bytes.old.items ++ bits_of 64 word }
    ensures len { vec_len bytes.new ≡ vec_len bytes.old + 8 }
    ensures capacity { vec_capacity bytes.old ≤ vec_capacity bytes.new }
{
    match bytes.extend_from_slice(&word.to_be_bytes()) {
        Ok(()) => {}
        Err(_) => unreachable!(),
    }
}

/// Adds `n` bits after those that wait, and gives those that wait then, with their count.
pub fn add(bytes: &mut Vec<u8>, word: u64, count: u32, value: u64, n: u32) -> (u64, u32)
    requires word { word < 2 ^ count }
    requires value { value < 2 ^ n }
    requires within { count < 64 }
    requires at_most { n ≤ 64 }
    requires room { vec_len bytes.old + 8 ≤ vec_capacity bytes.old }
    ensures bits { bits bytes.new.items ++ bits_of result.1 result.0 ≡ bits bytes.old.items ++ bits_of count word ++ bits_of n value }
    ensures within { result.1 < 64 }
    ensures below { result.0 < 2 ^ result.1 }
    ensures len { vec_len bytes.new ≤ vec_len bytes.old + 8 }
    ensures capacity { vec_capacity bytes.old ≤ vec_capacity bytes.new }
{
    if count + n < 64 {
        return (longer(word, count, value, n), count + n);
    }
    let (whole, rest) = filled(word, count, value, n);
    push_word(bytes, whole);
    (rest, count + n - 64)
}

/// The same with zeros, of any number.
pub fn add_zeros(bytes: &mut Vec<u8>, word: u64, count: u32, n: u32) -> (u64, u32)
    requires word { word < 2 ^ count }
    requires within { count < 64 }
    requires room { vec_len bytes.old + n / 8 + 16 ≤ vec_capacity bytes.old }
    ensures bits { bits bytes.new.items ++ bits_of result.1 result.0 ≡ bits bytes.old.items ++ bits_of count word ++ bits_of n 0 }
    ensures within { result.1 < 64 }
    ensures below { result.0 < 2 ^ result.1 }
    ensures len { vec_len bytes.new ≤ vec_len bytes.old + n / 8 + 8 }
    ensures capacity { vec_capacity bytes.old ≤ vec_capacity bytes.new }
{
    let mut left = n;
    let mut waiting = word;
    let mut waiting_count = count;
    while left > 64 {
        let (more, more_count) = add(bytes, waiting, waiting_count, 0, 64);
        waiting = more;
        waiting_count = more_count;
        left -= 64;
    }
    add(bytes, waiting, waiting_count, 0, left)
}

/// The bytes with what waits, where that is whole bytes and there is room for it.
pub fn flushed(mut bytes: Vec<u8>, word: u64, count: u32) -> Vec<u8>
    requires within { count < 64 }
    requires room { 0 < count → vec_len bytes + 8 ≤ vec_capacity bytes }
    requires whole { count % 8 ≡ 0 }
    ensures { bits result.items ≡ bits bytes.items ++ bits_of count word }
{
    let mut left = count / 8;
    while left > 0 {
        left -= 1;
        let byte = (word >> (8 * left)) & 0xff;
        match bytes.push(byte as u8) {
            Ok(()) => {}
            Err(_) => unreachable!(),
        }
    }
    bytes
}

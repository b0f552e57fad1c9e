//! Sums that find damage: remainders of a division of polynomials, eight bytes at a time. Of many bytes the longer sum adds
//! words to later words first, so that few are left to divide.

ghost use Rattle.std.specs.Prelude.{◌≡◌, ◌≤◌, ◌<◌, ◌^◌, ◌+◌, ◌*◌, length, take, drop};
ghost use Rattle.ff_bits.specs.Bits.{bits, bits_of};
ghost use Rattle.ff_bits.specs.Crc.{IsRemainder, crc8_of, crc16_of, remainder_from, left_of};
ghost use Rattle.ff_bits.specs.laws.Carried.{word_bits, carried};

use crate::table8::TABLE8;
use crate::table16::TABLE16;
use crate::word::whole_word;

/// The checksum of a frame header (RFC 9639, section 9.1.8): the remainder of the bytes by x^8 + x^2 + x + 1. It
/// begins at 0, the most significant bit of a byte first.
pub fn crc8(bytes: &[u8]) -> u8
    ensures remainder { IsRemainder 0x107 8 (bits bytes.now) result }
    ensures exact { result ≡ crc8_of (bits bytes.now) }
{
    let mut left = bytes;
    let mut sum = 0u8;
    while left.len() >= 8 {
        sum = eight_to_8(sum, left);
        left = &left[8..];
    }
    for byte in left {
        sum = byte_to_8(sum, *byte);
    }
    sum
}

/// The checksum of a whole frame (RFC 9639, section 9.3): the remainder of the bytes by x^16 + x^15 + x^2 + 1. It
/// begins at 0, the most significant bit of a byte first.
pub fn crc16(bytes: &[u8]) -> u16
    ensures remainder { IsRemainder 0x18005 16 (bits bytes.now) result }
    ensures exact { result ≡ crc16_of (bits bytes.now) }
{
    if bytes.len() < 1024 {
        bytes_to_16(0, bytes)
    } else {
        many_to_16(bytes)
    }
}

/// The remainder with the next bytes.
fn bytes_to_16(sum: u16, bytes: &[u8]) -> u16
    ensures { result ≡ remainder_from 0x18005 16 sum (bits bytes.now) }
{
    let mut left = bytes;
    let mut sum = sum;
    while left.len() >= 8 {
        sum = eight_to_16(sum, left);
        left = &left[8..];
    }
    for byte in left {
        sum = byte_to_16(sum, *byte);
    }
    sum
}

/// The sum of bytes that are many: a step of the division waits for the one before it, and adding words doesn't.
fn many_to_16(bytes: &[u8]) -> u16
    ensures { result ≡ crc16_of (bits bytes.now) }
{
    let mut words = [0u64; 94];
    let mut left = bytes;
    while left.len() >= 512 {
        bring_in(&mut words, left);
        to_front(&mut words);
        left = &left[512..];
    }
    bytes_to_16(carried_to_16(&words), left)
}

/// Writes the next 64 words after the thirty that are carried, so that the last thirty stand for all of them.
fn bring_in(words: &mut [u64; 94], bytes: &[u8])
    requires { 512 ≤ length bytes.now }
    ensures { carried (drop 64 words.new) ≡ remainder_from 0x18005 16 (carried words.old) (bits (take 512 bytes.now)) }
{
    for i in 0..64usize {
        words[i + 30] = whole_word(&bytes[8 * i..]) ^ words[i] ^ words[i + 1] ^ words[i + 16];
    }
}

/// Moves the last thirty words to the start.
fn to_front(words: &mut [u64; 94])
    ensures { take 30 words.new ≡ drop 64 words.old }
{
    for i in 0..30usize {
        words[i] = words[i + 64];
    }
}

/// The remainder of what is carried.
fn carried_to_16(words: &[u64; 94]) -> u16
    ensures { result ≡ carried words.now }
{
    let first = words_to_16(0, &words[..1]);
    let sixteen = words_to_16(first, &words[1..16]);
    let thirty = words_to_16(sixteen, &words[16..30]);
    thirty ^ sixteen ^ first
}

/// The remainder with the next words.
fn words_to_16(sum: u16, words: &[u64]) -> u16
    ensures { result ≡ remainder_from 0x18005 16 sum (word_bits words.now) }
{
    let mut sum = sum;
    for word in words {
        sum = eight_to_16(sum, &word.to_be_bytes());
    }
    sum
}

/// The remainder with the next eight bytes.
fn eight_to_8(sum: u8, bytes: &[u8]) -> u8
    requires { 8 ≤ length bytes.now }
    ensures { result ≡ remainder_from 0x107 8 sum (bits (take 8 bytes.now)) }
{
    left_by_8(0, bytes[7])
        ^ left_by_8(1, bytes[6])
        ^ left_by_8(2, bytes[5])
        ^ left_by_8(3, bytes[4])
        ^ left_by_8(4, bytes[3])
        ^ left_by_8(5, bytes[2])
        ^ left_by_8(6, bytes[1])
        ^ left_by_8(7, sum ^ bytes[0])
}

/// The remainder with the next eight bytes.
fn eight_to_16(sum: u16, bytes: &[u8]) -> u16
    requires { 8 ≤ length bytes.now }
    ensures { result ≡ remainder_from 0x18005 16 sum (bits (take 8 bytes.now)) }
{
    left_by_16(0, bytes[7])
        ^ left_by_16(1, bytes[6])
        ^ left_by_16(2, bytes[5])
        ^ left_by_16(3, bytes[4])
        ^ left_by_16(4, bytes[3])
        ^ left_by_16(5, bytes[2])
        ^ left_by_16(6, (sum & 0xff) as u8 ^ bytes[1])
        ^ left_by_16(7, (sum >> 8) as u8 ^ bytes[0])
}

/// The remainder with the next byte.
fn byte_to_8(sum: u8, byte: u8) -> u8
    ensures { result ≡ remainder_from 0x107 8 sum (bits_of 8 byte) }
{
    left_by_8(0, sum ^ byte)
}

/// The remainder with the next byte.
fn byte_to_16(sum: u16, byte: u8) -> u16
    ensures { result ≡ remainder_from 0x18005 16 sum (bits_of 8 byte) }
{
    left_by_16(0, (sum >> 8) as u8 ^ byte) ^ (sum & 0xff) << 8
}

/// What a byte leaves with so many bytes of zeros after it, below 8.
#[inline(always)]
fn left_by_8(behind: usize, byte: u8) -> u8
    requires { behind < 8 }
    ensures { result ≡ left_of 0x107 8 behind byte }
{
    TABLE8[256 * behind + byte as usize]
}

/// The same by the longer divisor.
#[inline(always)]
fn left_by_16(behind: usize, byte: u8) -> u16
    requires { behind < 8 }
    ensures { result ≡ left_of 0x18005 16 behind byte }
{
    TABLE16[256 * behind + byte as usize]
}

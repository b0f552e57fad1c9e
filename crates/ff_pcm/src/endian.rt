//! Numbers of one to four bytes, in both byte orders.
ghost use Rattle.std.specs.Prelude.{◌≡◌, ◌+◌, ◌<◌, ◌≤◌, ◌^◌, ◌⊎◌, ℕ, length};
ghost use Rattle.ff_frame.specs.declared.coding.ByteOrder.{ByteOrder};
ghost use Rattle.ff_frame.specs.declared.coding.ByteOrder.TheVariants.{LittleEndian, BigEndian};
ghost use Rattle.ff_pcm.specs.Samples.{number_in};

use crate::numbers::{
    high_number_2, high_number_3, high_number_4, number_2, number_3, number_4, put_2, put_3, put_4,
    put_high_2, put_high_3, put_high_4,
};

/// How numbers are read and written in one order of bytes.
pub(crate) trait Endian {
    ghost order: { ByteOrder };

    /// The number in the byte at a place.
    fn number_1(bytes: &[u8], place: usize) -> u32
        requires { place + 1 ≤ length bytes.now }
        ensures value { result ≡ number_in order 1 place bytes.now }
        ensures few { result < 2 ^ 8 };

    /// The number in the two bytes at a place.
    fn number_2(bytes: &[u8], place: usize) -> u32
        requires { place + 2 ≤ length bytes.now }
        ensures value { result ≡ number_in order 2 place bytes.now }
        ensures few { result < 2 ^ 16 };

    /// The number in the three bytes at a place.
    fn number_3(bytes: &[u8], place: usize) -> u32
        requires { place + 3 ≤ length bytes.now }
        ensures value { result ≡ number_in order 3 place bytes.now }
        ensures few { result < 2 ^ 24 };

    /// The number in the four bytes at a place.
    fn number_4(bytes: &[u8], place: usize) -> u32
        requires { place + 4 ≤ length bytes.now }
        ensures { result ≡ number_in order 4 place bytes.now };

    /// Writes a number into the byte at a place.
    fn put_1(bytes: &mut [u8], place: usize, n: u32)
        requires there { place + 1 ≤ length bytes.old }
        requires small { n < 2 ^ 8 }
        ensures here { number_in order 1 place bytes.new ≡ n }
        ensures others { (i : ℕ) → (i + 1 ≤ place) ⊎ (place + 1 ≤ i) → number_in order 1 i bytes.new ≡ number_in order 1 i bytes.old };

    /// Writes a number into the two bytes at a place.
    fn put_2(bytes: &mut [u8], place: usize, n: u32)
        requires there { place + 2 ≤ length bytes.old }
        requires small { n < 2 ^ 16 }
        ensures here { number_in order 2 place bytes.new ≡ n }
        ensures others { (i : ℕ) → (i + 2 ≤ place) ⊎ (place + 2 ≤ i) → number_in order 2 i bytes.new ≡ number_in order 2 i bytes.old };

    /// Writes a number into the three bytes at a place.
    fn put_3(bytes: &mut [u8], place: usize, n: u32)
        requires there { place + 3 ≤ length bytes.old }
        requires small { n < 2 ^ 24 }
        ensures here { number_in order 3 place bytes.new ≡ n }
        ensures others { (i : ℕ) → (i + 3 ≤ place) ⊎ (place + 3 ≤ i) → number_in order 3 i bytes.new ≡ number_in order 3 i bytes.old };

    /// Writes a number into the four bytes at a place.
    fn put_4(bytes: &mut [u8], place: usize, n: u32)
        requires there { place + 4 ≤ length bytes.old }
        ensures here { number_in order 4 place bytes.new ≡ n }
        ensures others { (i : ℕ) → (i + 4 ≤ place) ⊎ (place + 4 ≤ i) → number_in order 4 i bytes.new ≡ number_in order 4 i bytes.old };
}

/// The lowest byte first.
pub(crate) struct Little;

/// The highest byte first.
pub(crate) struct Big;

impl Endian for Little {
    ghost order = { LittleEndian };

    fn number_1(bytes: &[u8], place: usize) -> u32 {
        bytes[place] as u32
    }

    fn number_2(bytes: &[u8], place: usize) -> u32 {
        number_2(bytes, place)
    }

    fn number_3(bytes: &[u8], place: usize) -> u32 {
        number_3(bytes, place)
    }

    fn number_4(bytes: &[u8], place: usize) -> u32 {
        number_4(bytes, place)
    }

    fn put_1(bytes: &mut [u8], place: usize, n: u32) {
        bytes[place] = n as u8;
    }

    fn put_2(bytes: &mut [u8], place: usize, n: u32) {
        put_2(bytes, place, n);
    }

    fn put_3(bytes: &mut [u8], place: usize, n: u32) {
        put_3(bytes, place, n);
    }

    fn put_4(bytes: &mut [u8], place: usize, n: u32) {
        put_4(bytes, place, n);
    }
}

impl Endian for Big {
    ghost order = { BigEndian };

    fn number_1(bytes: &[u8], place: usize) -> u32 {
        bytes[place] as u32
    }

    fn number_2(bytes: &[u8], place: usize) -> u32 {
        high_number_2(bytes, place)
    }

    fn number_3(bytes: &[u8], place: usize) -> u32 {
        high_number_3(bytes, place)
    }

    fn number_4(bytes: &[u8], place: usize) -> u32 {
        high_number_4(bytes, place)
    }

    fn put_1(bytes: &mut [u8], place: usize, n: u32) {
        bytes[place] = n as u8;
    }

    fn put_2(bytes: &mut [u8], place: usize, n: u32) {
        put_high_2(bytes, place, n);
    }

    fn put_3(bytes: &mut [u8], place: usize, n: u32) {
        put_high_3(bytes, place, n);
    }

    fn put_4(bytes: &mut [u8], place: usize, n: u32) {
        put_high_4(bytes, place, n);
    }
}

//! One sample as a number, signed or unsigned.
ghost use Rattle.std.specs.Prelude.{◌≡◌, ◌<◌, ◌^◌, true, false};
ghost use Rattle.ff_frame.specs.Audio.{FitsBits};
ghost use Rattle.ff_bits.specs.Integers.{signed};
ghost use Rattle.ff_pcm.specs.Samples.{value_of};

/// Two's complement of a number of 8 bits.
pub(crate) fn signed_8(n: u32) -> i32
    requires { n < 2 ^ 8 }
    ensures value { result ≡ signed 8 n }
{
    if n < 1 << 7 {
        n as i32
    } else {
        n as i32 - (1 << 8)
    }
}

/// Two's complement of a number of 16 bits.
pub(crate) fn signed_16(n: u32) -> i32
    requires { n < 2 ^ 16 }
    ensures value { result ≡ signed 16 n }
{
    if n < 1 << 15 {
        n as i32
    } else {
        n as i32 - (1 << 16)
    }
}

/// Two's complement of a number of 24 bits.
pub(crate) fn signed_24(n: u32) -> i32
    requires { n < 2 ^ 24 }
    ensures value { result ≡ signed 24 n }
{
    if n < 1 << 23 {
        n as i32
    } else {
        n as i32 - (1 << 24)
    }
}

/// Two's complement of a number of 32 bits.
pub(crate) fn signed_32(n: u32) -> i32
    ensures value { result ≡ signed 32 n }
{
    n.cast_signed()
}

/// The number of 8 bits whose two's complement is a sample.
pub(crate) fn unsigned_8(sample: i32) -> u32
    requires { FitsBits 8 sample }
    ensures bound { result < 2 ^ 8 }
    ensures value { signed 8 result ≡ sample }
{
    if sample >= 0 {
        sample as u32
    } else {
        (sample + (1 << 8)) as u32
    }
}

/// The number of 16 bits whose two's complement is a sample.
pub(crate) fn unsigned_16(sample: i32) -> u32
    requires { FitsBits 16 sample }
    ensures bound { result < 2 ^ 16 }
    ensures value { signed 16 result ≡ sample }
{
    if sample >= 0 {
        sample as u32
    } else {
        (sample + (1 << 16)) as u32
    }
}

/// The number of 24 bits whose two's complement is a sample.
pub(crate) fn unsigned_24(sample: i32) -> u32
    requires { FitsBits 24 sample }
    ensures bound { result < 2 ^ 24 }
    ensures value { signed 24 result ≡ sample }
{
    if sample >= 0 {
        sample as u32
    } else {
        (sample + (1 << 24)) as u32
    }
}

/// The number of 32 bits whose two's complement is a sample.
pub(crate) fn unsigned_32(sample: i32) -> u32
    ensures value { signed 32 result ≡ sample }
{
    sample.cast_unsigned()
}

/// A number of 8 bits, counted from the middle of its range.
pub(crate) fn centred_8(n: u32) -> i32
    requires { n < 2 ^ 8 }
    ensures { result ≡ value_of false 8 n }
{
    n as i32 - (1 << 7)
}

/// A number of 16 bits, counted from the middle of its range.
pub(crate) fn centred_16(n: u32) -> i32
    requires { n < 2 ^ 16 }
    ensures { result ≡ value_of false 16 n }
{
    n as i32 - (1 << 15)
}

/// A number of 24 bits, counted from the middle of its range.
pub(crate) fn centred_24(n: u32) -> i32
    requires { n < 2 ^ 24 }
    ensures { result ≡ value_of false 24 n }
{
    n as i32 - (1 << 23)
}

/// A number of 32 bits, counted from the middle of its range.
pub(crate) fn centred_32(n: u32) -> i32
    ensures { result ≡ value_of false 32 n }
{
    if n < 1 << 31 {
        n as i32 + i32::MIN
    } else {
        (n - (1 << 31)) as i32
    }
}

/// The number of 8 bits that stands as far from the middle of its range as a sample from 0.
pub(crate) fn from_centre_8(sample: i32) -> u32
    requires { FitsBits 8 sample }
    ensures bound { result < 2 ^ 8 }
    ensures value { value_of false 8 result ≡ sample }
{
    (sample + (1 << 7)) as u32
}

/// The number of 16 bits that stands as far from the middle of its range as a sample from 0.
pub(crate) fn from_centre_16(sample: i32) -> u32
    requires { FitsBits 16 sample }
    ensures bound { result < 2 ^ 16 }
    ensures value { value_of false 16 result ≡ sample }
{
    (sample + (1 << 15)) as u32
}

/// The number of 24 bits that stands as far from the middle of its range as a sample from 0.
pub(crate) fn from_centre_24(sample: i32) -> u32
    requires { FitsBits 24 sample }
    ensures bound { result < 2 ^ 24 }
    ensures value { value_of false 24 result ≡ sample }
{
    (sample + (1 << 23)) as u32
}

/// The number of 32 bits that stands as far from the middle of its range as a sample from 0.
pub(crate) fn from_centre_32(sample: i32) -> u32
    ensures value { value_of false 32 result ≡ sample }
{
    if sample >= 0 {
        sample as u32 + (1 << 31)
    } else {
        (sample - i32::MIN) as u32
    }
}

//! One sample as its bytes, at each depth, signed or unsigned.
ghost use Rattle.std.specs.Prelude.{◌≡◌, ◌≢◌, ◌+◌, ◌*◌, ◌≤◌, ℕ, length, Bool, true, false};
ghost use Rattle.ff_frame.specs.Audio.{FitsBits};
ghost use Rattle.ff_frame.specs.Codecs.{depth_bytes};
ghost use Rattle.ff_frame.specs.declared.coding.PcmDepth.{PcmDepth};
ghost use Rattle.ff_frame.specs.declared.coding.PcmDepth.TheVariants.{Bits8, Bits16, Bits24, Bits32};
ghost use Rattle.ff_pcm.specs.Samples.{sample_in};

use crate::endian::Endian;
use crate::values::{
    centred_8, centred_16, centred_24, centred_32, from_centre_8, from_centre_16, from_centre_24,
    from_centre_32, signed_8, signed_16, signed_24, signed_32, unsigned_8, unsigned_16,
    unsigned_24, unsigned_32,
};

/// How samples of one depth, signed or not, are read and written in any order of bytes.
pub(crate) trait Sample {
    ghost bits: { PcmDepth };

    ghost sign: { Bool };

    /// Sample number `k`.
    fn read<E: Endian>(bytes: &[u8], k: usize) -> i32
        requires { depth_bytes bits * (k + 1) ≤ length bytes.now }
        ensures { result ≡ sample_in bits sign E.order bytes.now k };

    /// Writes sample number `k`, and leaves the others.
    fn write<E: Endian>(bytes: &mut [u8], k: usize, sample: i32)
        requires there { depth_bytes bits * (k + 1) ≤ length bytes.old }
        requires fits { FitsBits (8 * depth_bytes bits) sample }
        ensures here { sample_in bits sign E.order bytes.new k ≡ sample }
        ensures others { (i : ℕ) → i ≢ k → sample_in bits sign E.order bytes.new i ≡ sample_in bits sign E.order bytes.old i };
}

/// Signed samples of 8 bits.
pub(crate) struct Signed8;

impl Sample for Signed8 {
    ghost bits = { Bits8 };

    ghost sign = { true };

    fn read<E: Endian>(bytes: &[u8], k: usize) -> i32 {
        signed_8(E::number_1(bytes, k))
    }

    fn write<E: Endian>(bytes: &mut [u8], k: usize, sample: i32) {
        E::put_1(bytes, k, unsigned_8(sample));
    }
}

/// Unsigned samples of 8 bits.
pub(crate) struct Unsigned8;

impl Sample for Unsigned8 {
    ghost bits = { Bits8 };

    ghost sign = { false };

    fn read<E: Endian>(bytes: &[u8], k: usize) -> i32 {
        centred_8(E::number_1(bytes, k))
    }

    fn write<E: Endian>(bytes: &mut [u8], k: usize, sample: i32) {
        E::put_1(bytes, k, from_centre_8(sample));
    }
}

/// Signed samples of 16 bits.
pub(crate) struct Signed16;

impl Sample for Signed16 {
    ghost bits = { Bits16 };

    ghost sign = { true };

    fn read<E: Endian>(bytes: &[u8], k: usize) -> i32 {
        signed_16(E::number_2(bytes, 2 * k))
    }

    fn write<E: Endian>(bytes: &mut [u8], k: usize, sample: i32) {
        E::put_2(bytes, 2 * k, unsigned_16(sample));
    }
}

/// Unsigned samples of 16 bits.
pub(crate) struct Unsigned16;

impl Sample for Unsigned16 {
    ghost bits = { Bits16 };

    ghost sign = { false };

    fn read<E: Endian>(bytes: &[u8], k: usize) -> i32 {
        centred_16(E::number_2(bytes, 2 * k))
    }

    fn write<E: Endian>(bytes: &mut [u8], k: usize, sample: i32) {
        E::put_2(bytes, 2 * k, from_centre_16(sample));
    }
}

/// Signed samples of 24 bits.
pub(crate) struct Signed24;

impl Sample for Signed24 {
    ghost bits = { Bits24 };

    ghost sign = { true };

    fn read<E: Endian>(bytes: &[u8], k: usize) -> i32 {
        signed_24(E::number_3(bytes, 3 * k))
    }

    fn write<E: Endian>(bytes: &mut [u8], k: usize, sample: i32) {
        E::put_3(bytes, 3 * k, unsigned_24(sample));
    }
}

/// Unsigned samples of 24 bits.
pub(crate) struct Unsigned24;

impl Sample for Unsigned24 {
    ghost bits = { Bits24 };

    ghost sign = { false };

    fn read<E: Endian>(bytes: &[u8], k: usize) -> i32 {
        centred_24(E::number_3(bytes, 3 * k))
    }

    fn write<E: Endian>(bytes: &mut [u8], k: usize, sample: i32) {
        E::put_3(bytes, 3 * k, from_centre_24(sample));
    }
}

/// Signed samples of 32 bits.
pub(crate) struct Signed32;

impl Sample for Signed32 {
    ghost bits = { Bits32 };

    ghost sign = { true };

    fn read<E: Endian>(bytes: &[u8], k: usize) -> i32 {
        signed_32(E::number_4(bytes, 4 * k))
    }

    fn write<E: Endian>(bytes: &mut [u8], k: usize, sample: i32) {
        E::put_4(bytes, 4 * k, unsigned_32(sample));
    }
}

/// Unsigned samples of 32 bits.
pub(crate) struct Unsigned32;

impl Sample for Unsigned32 {
    ghost bits = { Bits32 };

    ghost sign = { false };

    fn read<E: Endian>(bytes: &[u8], k: usize) -> i32 {
        centred_32(E::number_4(bytes, 4 * k))
    }

    fn write<E: Endian>(bytes: &mut [u8], k: usize, sample: i32) {
        E::put_4(bytes, 4 * k, from_centre_32(sample));
    }
}

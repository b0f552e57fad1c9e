//! The bytes before the frames of a FLAC file (RFC 9639, section 8).
ghost use Rattle.std.specs.Prelude.{◌≡◌, ◌++◌, take, IfOk, OnOk};
ghost use Rattle.std.specs.Int.{bytes_high_first};
ghost use Rattle.ff_mux.specs.FlacHead.{HasRoom, HasRoomFor, told, sound_of, stream_info, info_of, before_info, flac_start, unknown};

use ff_frame::{StreamHead, Totals};
use std::alloc::{AllocError, Global};

/// The mark, and the head of the last block of metadata, which has 34 bytes.
const BEFORE_INFO: &[u8] = b"fLaC\x80\0\0\x22";

/// Both the least and the greatest block: 4,096 sample frames.
const BLOCKS: &[u8] = b"\x10\0\x10\0";

// Adds a size in 24 bits: 0, which says that it isn't known, where it has more.
fn push_size(out: &mut Vec<u8>, size: u32) -> Result<(), AllocError>
    ensures { OnOk result (out.new.items ≡ out.old.items ++ bytes_high_first 3 (told 24 size)) }
{
    let told = if size < 1 << 24 { size } else { 0 };
    out.extend_from_slice(&told.to_be_bytes()[1..])
}

// The rate, channels, bits and number of sample frames.
fn sound(rate: u32, bits: u8, channels: u8, samples: u64) -> u64
    requires { HasRoom rate bits channels }
    ensures { result ≡ sound_of rate bits channels samples }
{
    let samples = if samples < 1 << 36 { samples } else { 0 };
    u64::from(rate) * (1 << 44)
        + u64::from(channels - 1) * (1 << 41)
        + u64::from(bits - 1) * (1 << 36)
        + samples
}

// Adds the digest.
fn push_md5(out: &mut Vec<u8>, digest: &[u8; 16]) -> Result<(), AllocError>
    ensures { OnOk result (out.new.items ≡ out.old.items ++ take 16 digest.now) }
{
    out.extend_from_slice(digest)
}

// Adds STREAMINFO.
fn push_info(
    out: &mut Vec<u8>,
    rate: u32,
    bits: u8,
    channels: u8,
    totals: &Totals,
) -> Result<(), AllocError>
    requires { HasRoom rate bits channels }
    ensures { OnOk result (out.new.items ≡ out.old.items ++ stream_info rate bits channels totals.now) }
{
    out.extend_from_slice(BLOCKS)?;
    push_size(out, totals.min_frame)?;
    push_size(out, totals.max_frame)?;
    out.extend_from_slice(&sound(rate, bits, channels, totals.samples).to_be_bytes())?;
    push_md5(out, &totals.md5)?;
    Ok(())
}

// Adds that of a stream with this head.
fn push_info_of(out: &mut Vec<u8>, head: &StreamHead, totals: &Totals) -> Result<(), AllocError>
    requires { HasRoomFor head.now }
    ensures { OnOk result (out.new.items ≡ out.old.items ++ info_of head.now totals.now) }
{
    match *head {
        StreamHead::Audio {
            rate,
            bits,
            channels,
            ..
        } => push_info(out, rate, bits, channels, totals),
        StreamHead::Video { .. } => unreachable!(),
    }
}

// Totals that aren't known.
fn no_totals() -> Totals
    ensures { result ≡ unknown }
{
    Totals {
        min_frame: 0,
        max_frame: 0,
        samples: 0,
        md5: [0; 16],
    }
}

/// What stands before the frames of a FLAC file before its stream has ended: the mark, and STREAMINFO with blocks of
/// 4,096 sample frames. The sizes of frames, the number of sample frames and the digest are 0 in it (RFC 9639,
/// sections 6, 8 and 8.2).
#[tactic(auto, unfolding(crate::specs::FlacHead::before_info))]
pub fn flac_first(alloc: Global, head: &StreamHead) -> Result<Vec<u8>, AllocError>
    requires { HasRoomFor head.now }
    ensures { IfOk result (λ bytes. bytes.items ≡ flac_start head.now unknown) }
{
    let mut out = Vec::from_slice(alloc, BEFORE_INFO)?;
    push_info_of(&mut out, head, &no_totals())?;
    Ok(out)
}

/// The 34 bytes of STREAMINFO with these totals (RFC 9639, section 8.2). A size of 2^24 or more is written as 0, and
/// so is a number of 2^36 sample frames or more.
pub fn flac_last(alloc: Global, head: &StreamHead, totals: &Totals) -> Result<Vec<u8>, AllocError>
    requires { HasRoomFor head.now }
    ensures { IfOk result (λ bytes. bytes.items ≡ info_of head.now totals.now) }
{
    let mut out = Vec::new(alloc);
    push_info_of(&mut out, head, totals)?;
    Ok(out)
}

//! The chunks before the body (RIFF WAVE).
ghost use Rattle.std.specs.Prelude.{◌≡◌, ◌+◌, ◌≤◌, ◌<◌, ◌*◌, ◌^◌, ℕ, Option, length, take, Ok};
ghost use Rattle.std.specs.Str.{bytes_eq};
ghost use Rattle.ff_frame.specs.declared.head.StreamHead.{StreamHead};
ghost use Rattle.ff_reader.specs.declared.step.Step.TheVariants.{Skip};
ghost use Rattle.ff_wav.specs.Chunks.{number_16, number_32, format_of, codec_of, stream_of, passed, step_of, fields, tagged, format_chunk, data_chunk, chunk, body_len, large_len};
ghost use Rattle.ff_wav.specs.Chunks.{WavState, number_64, known, sizes_chunk, unit};

use crate::head::{ChunkStep, WavHead, WavState, WavStep};
use ff_frame::{Codec, StreamHead};
use ff_reader::{HeadFault, Step};
use ff_time::Rational;

fn at_16(bytes: &[u8], place: usize) -> u16
    requires { place + 2 ≤ length bytes.now }
    ensures { result ≡ number_16 place bytes.now }
{
    bytes[place] as u16 + 256 * bytes[place + 1] as u16
}

/// The number of four bytes at a place.
pub fn at_32(bytes: &[u8], place: usize) -> u32
    requires { place + 4 ≤ length bytes.now }
    ensures { result ≡ number_32 place bytes.now }
{
    at_16(bytes, place) as u32 + 65536 * at_16(bytes, place + 2) as u32
}

fn at_64(bytes: &[u8], place: usize) -> u64
    requires { place + 8 ≤ length bytes.now }
    ensures { result ≡ number_64 place bytes.now }
{
    at_32(bytes, place) as u64 + 4294967296 * at_32(bytes, place + 4) as u64
}

/// Whether four bytes begin the bytes.
pub fn has_id(bytes: &[u8], id: &[u8]) -> bool
    requires { 4 ≤ length bytes.now }
    ensures { result ≡ bytes_eq (take 4 bytes.now) id.now }
{
    &bytes[..4] == id
}

// The codec of so many bits, which are 8, 16, 24 or 32.
fn codec_of_bits(bits: u16) -> Codec
    ensures { result ≡ codec_of bits }
{
    match bits {
        8 => Codec::PcmU8,
        16 => Codec::PcmS16le,
        24 => Codec::PcmS24le,
        _ => Codec::PcmS32le,
    }
}

// What the fields say, which were found to be right.
fn stream(channels: u16, rate: u32, bits: u16) -> StreamHead
    requires few_channels { channels ≤ 8 }
    requires some_rate { 1 ≤ rate }
    requires small_rate { rate < 2 ^ 31 }
    requires few_bits { bits ≤ 32 }
    ensures { result ≡ stream_of channels rate bits }
{
    let tb = Rational::one_over(rate);
    StreamHead::Audio {
        tb,
        rate,
        bits: bits as u8,
        channels: channels as u8,
        codec: codec_of_bits(bits),
    }
}

#[tactic(auto, unfolding(crate::specs::Chunks::format_of))]
fn checked(
    at: u64,
    channels: u16,
    rate: u32,
    block: u16,
    bits: u16,
) -> Result<StreamHead, HeadFault>
    requires { at < 2 ^ 33 }
    ensures { result ≡ format_of at channels rate block bits }
{
    if !(1 <= channels && channels <= 8) {
        return Err(HeadFault::Unsupported { offset: at + 10 });
    }
    if !(1 <= rate && rate < (1 << 31)) {
        return Err(HeadFault::Unsupported { offset: at + 12 });
    }
    if !(bits == 8 || bits == 16 || bits == 24 || bits == 32) {
        return Err(HeadFault::Unsupported { offset: at + 22 });
    }
    if !(block == channels * (bits / 8)) {
        return Err(HeadFault::Unsupported { offset: at + 20 });
    }
    Ok(stream(channels, rate, bits))
}

// Passes over a chunk of this size: 8 bytes, the size, and a pad byte where the size is odd.
fn passed_over(size: u32, format: Option<StreamHead>) -> ChunkStep
    ensures value { result ≡ passed size format }
    ensures small { (size : ℕ) (next : Option StreamHead) → result ≡ Skip size next → size ≤ 2 ^ 33 }
{
    Step::Skip(7 + size as u64 + size as u64 % 2, format)
}

fn fields_at(at: u64, bytes: &[u8]) -> ChunkStep
    requires place { at < 2 ^ 33 }
    requires there { 24 ≤ length bytes.now }
    ensures value { result ≡ fields at bytes.now }
    ensures small { (size : ℕ) (next : Option StreamHead) → result ≡ Skip size next → size ≤ 2 ^ 33 }
{
    let size = at_32(bytes, 4);
    match checked(
        at,
        at_16(bytes, 10),
        at_32(bytes, 12),
        at_16(bytes, 20),
        at_16(bytes, 22),
    ) {
        Ok(format) => passed_over(size, Some(format)),
        Err(end) => Step::Decide(Err(end)),
    }
}

#[tactic(auto, unfolding(crate::specs::Chunks::tagged))]
fn tagged_at(at: u64, bytes: &[u8]) -> ChunkStep
    requires place { at < 2 ^ 33 }
    requires there { 24 ≤ length bytes.now }
    ensures value { result ≡ tagged at bytes.now }
    ensures small { (size : ℕ) (next : Option StreamHead) → result ≡ Skip size next → size ≤ 2 ^ 33 }
{
    let tag = at_16(bytes, 8);
    if tag == 0xFFFE {
        if at_32(bytes, 4) < 40 {
            return Step::Decide(Err(HeadFault::Damaged { offset: at }));
        }
        if bytes.len() < 48 {
            return Step::Wait;
        }
        if at_16(bytes, 32) != 1 {
            return Step::Decide(Err(HeadFault::Unsupported { offset: at + 32 }));
        }
        return fields_at(at, bytes);
    }
    if tag != 1 {
        return Step::Decide(Err(HeadFault::Unsupported { offset: at + 8 }));
    }
    fields_at(at, bytes)
}

/// What a `fmt ` chunk does that begins the bytes, at this offset of the input: the first one tells the stream's head. Its id
/// isn't looked at, since other containers have the same fields under another.
#[tactic(auto, unfolding(crate::specs::Chunks::format_chunk))]
pub fn format_chunk_at(format: Option<StreamHead>, at: u64, bytes: &[u8]) -> ChunkStep
    requires place { at < 2 ^ 33 }
    requires there { 8 ≤ length bytes.now }
    ensures value { result ≡ format_chunk format at bytes.now }
    ensures small { (size : ℕ) (next : Option StreamHead) → result ≡ Skip size next → size ≤ 2 ^ 33 }
{
    let size = at_32(bytes, 4);
    match format {
        Some(first) => passed_over(size, Some(first)),
        None => {
            if size < 16 {
                return Step::Decide(Err(HeadFault::Damaged { offset: at }));
            }
            if bytes.len() < 24 {
                return Step::Wait;
            }
            tagged_at(at, bytes)
        }
    }
}

// How many bytes of the body a chunk of this size means.
fn body_size(large: Option<u64>, size: u32) -> Option<u64>
    ensures { result ≡ body_len large size }
{
    if size == 0 {
        None
    } else if size == 0xFFFF_FFFF {
        large
    } else {
        Some(size as u64)
    }
}

// How many bytes of the body a size of 64 bits means.
fn large_size(size: u64) -> Option<u64>
    ensures { result ≡ large_len size }
{
    if size == 0 || size == 0xFFFF_FFFF_FFFF_FFFF {
        None
    } else {
        Some(size)
    }
}

fn data_chunk_at(large: Option<u64>, format: Option<StreamHead>, at: u64, bytes: &[u8]) -> ChunkStep
    requires place { at < 2 ^ 32 }
    requires there { 8 ≤ length bytes.now }
    ensures value { result ≡ data_chunk large format at bytes.now }
    ensures small { (size : ℕ) (next : Option StreamHead) → result ≡ Skip size next → size ≤ 2 ^ 33 }
{
    match format {
        Some(head) => Step::Decide(Ok(WavHead {
            head,
            start: at + 8,
            len: body_size(large, at_32(bytes, 4)),
        })),
        None => Step::Decide(Err(HeadFault::Damaged { offset: at })),
    }
}

// What the chunk does that begins the bytes, where any chunk may stand.
#[tactic(auto, unfolding(crate::specs::Chunks::chunk))]
fn chunk_at(large: Option<u64>, format: Option<StreamHead>, at: u64, bytes: &[u8]) -> ChunkStep
    requires { at < 2 ^ 32 }
    ensures value { result ≡ chunk large format at bytes.now }
    ensures small { (size : ℕ) (next : Option StreamHead) → result ≡ Skip size next → size ≤ 2 ^ 33 }
{
    if bytes.len() < 8 {
        return Step::Wait;
    }
    if has_id(bytes, b"data") {
        return data_chunk_at(large, format, at, bytes);
    }
    if has_id(bytes, b"fmt ") {
        return format_chunk_at(format, at, bytes);
    }
    passed_over(at_32(bytes, 4), format)
}

// The first chunk of an RF64, with the sizes of 64 bits.
#[tactic(auto, unfolding(crate::specs::Chunks::sizes_chunk))]
fn sizes_at(at: u64, bytes: &[u8]) -> WavStep
    ensures value { result ≡ sizes_chunk at bytes.now }
    ensures small { (size : ℕ) (next : WavState) → result ≡ Skip size next → size ≤ 2 ^ 33 }
{
    if bytes.len() < 8 {
        return Step::Wait;
    }
    let size = at_32(bytes, 4);
    if !has_id(bytes, b"ds64") || size < 28 {
        return Step::Decide(Err(HeadFault::Damaged { offset: at }));
    }
    if bytes.len() < 24 {
        return Step::Wait;
    }
    let large = large_size(at_64(bytes, 16));
    Step::Skip(7 + size as u64 + size as u64 % 2, Some((large, None)))
}

// The step of a chunk where this size was told before.
fn knowing(large: Option<u64>, step: ChunkStep) -> WavStep
    ensures { result ≡ known large step }
{
    match step {
        Step::Wait => Step::Wait,
        Step::Decide(found) => Step::Decide(found),
        Step::Skip(size, format) => Step::Skip(size, Some((large, format))),
    }
}

/// What the chunk does that begins the bytes.
pub(crate) fn unit_at(state: WavState, at: u64, bytes: &[u8]) -> WavStep
    requires { at < 2 ^ 32 }
    ensures value { result ≡ unit state at bytes.now }
    ensures small { (size : ℕ) (next : WavState) → result ≡ Skip size next → size ≤ 2 ^ 33 }
{
    match state {
        None => sizes_at(at, bytes),
        Some((large, format)) => knowing(large, chunk_at(large, format, at, bytes)),
    }
}

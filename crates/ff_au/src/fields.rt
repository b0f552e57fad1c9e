//! The fields after the mark, as far as the body.
ghost use Rattle.std.specs.Prelude.{◌≡◌, ◌+◌, ◌≤◌, ◌<◌, ◌*◌, ◌^◌, ℕ, Ok, length, ⊤};
ghost use Rattle.ff_reader.specs.declared.step.Step.TheVariants.{Skip};
ghost use Rattle.ff_au.specs.Fields.{number_16, number_32, codec_of, stream_of, body_len, head_of, told_at, fields};

use crate::head::{AuHead, FieldsStep};
use ff_frame::{Codec, StreamHead};
use ff_pcm::size_of_sample;
use ff_reader::{HeadFault, Step};
use ff_time::Rational;

/// The largest data offset that is read.
const LARGEST_START: u32 = 1 << 28;

fn at_16(bytes: &[u8], place: usize) -> u16
    requires { place + 2 ≤ length bytes.now }
    ensures { result ≡ number_16 place bytes.now }
{
    256 * bytes[place] as u16 + bytes[place + 1] as u16
}

fn at_32(bytes: &[u8], place: usize) -> u32
    requires { place + 4 ≤ length bytes.now }
    ensures { result ≡ number_32 place bytes.now }
{
    65536 * at_16(bytes, place) as u32 + at_16(bytes, place + 2) as u32
}

// The codec of an encoding, which is 2, 3, 4 or 5.
fn codec_of_encoding(encoding: u32) -> Codec
    ensures { result ≡ codec_of encoding }
{
    match encoding {
        2 => Codec::PcmS8,
        3 => Codec::PcmS16be,
        4 => Codec::PcmS24be,
        _ => Codec::PcmS32be,
    }
}

// What the fields say of the stream, which were found to be right.
fn stream(encoding: u32, rate: u32, channels: u32) -> StreamHead
    requires some_rate { 1 ≤ rate }
    requires small_rate { rate < 2 ^ 31 }
    requires few_channels { channels ≤ 8 }
    ensures { result ≡ stream_of (codec_of encoding) rate channels }
{
    let tb = Rational::one_over(rate);
    let codec = codec_of_encoding(encoding);
    StreamHead::Audio {
        tb,
        rate,
        bits: 8 * size_of_sample(codec) as u8,
        channels: channels as u8,
        codec,
    }
}

// A body of 2^32 - 1 bytes goes to the end of the input.
fn body_size(size: u32) -> Option<u64>
    ensures { result ≡ body_len size }
{
    if size == 0xFFFF_FFFF {
        None
    } else {
        Some(size as u64)
    }
}

#[tactic(auto, unfolding(crate::specs::Fields::head_of))]
fn checked(
    at: u64,
    start: u32,
    size: u32,
    encoding: u32,
    rate: u32,
    channels: u32,
) -> Result<AuHead, HeadFault>
    requires { at < 2 ^ 32 }
    ensures { result ≡ head_of at start size encoding rate channels }
{
    if start < 24 {
        return Err(HeadFault::Damaged { offset: at });
    }
    if start > LARGEST_START {
        return Err(HeadFault::Unsupported { offset: at });
    }
    if !(2 <= encoding && encoding <= 5) {
        return Err(HeadFault::Unsupported { offset: at + 8 });
    }
    if !(1 <= rate && rate < (1 << 31)) {
        return Err(HeadFault::Unsupported { offset: at + 12 });
    }
    if !(1 <= channels && channels <= 8) {
        return Err(HeadFault::Unsupported { offset: at + 16 });
    }
    Ok(AuHead {
        head: stream(encoding, rate, channels),
        start: start as u64,
        len: body_size(size),
    })
}

// A fault is told at once, a head once so many bytes of the input are there that the body can begin.
fn told(there: u64, found: Result<AuHead, HeadFault>) -> FieldsStep
    ensures value { result ≡ told_at there found }
    ensures small { (size : ℕ) (next : ⊤) → result ≡ Skip size next → size ≤ 2 ^ 33 }
{
    match found {
        Ok(head) => {
            if there < head.start {
                Step::Wait
            } else {
                Step::Decide(Ok(head))
            }
        }
        Err(fault) => Step::Decide(Err(fault)),
    }
}

/// What the fields do that begin the bytes.
#[tactic(auto, unfolding(crate::specs::Fields::fields))]
pub(crate) fn fields_at(at: u64, bytes: &[u8]) -> FieldsStep
    requires { at < 2 ^ 32 }
    ensures value { result ≡ fields tt at bytes.now }
    ensures small { (size : ℕ) (next : ⊤) → result ≡ Skip size next → size ≤ 2 ^ 33 }
{
    if bytes.len() < 20 {
        return Step::Wait;
    }
    let found = checked(
        at,
        at_32(bytes, 0),
        at_32(bytes, 4),
        at_32(bytes, 8),
        at_32(bytes, 12),
        at_32(bytes, 16),
    );
    told(at + bytes.len() as u64, found)
}

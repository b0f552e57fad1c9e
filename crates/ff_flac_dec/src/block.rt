//! Metadata blocks (RFC 9639, section 8).
ghost use Rattle.std.specs.Prelude.{◌≡◌, ◌+◌, ◌*◌, ◌≤◌, ◌<◌, ◌^◌, ℕ, length, drop, Ok, Some};
ghost use Rattle.ff_flac_dec.specs.declared.head.HeadState.{HeadState};
ghost use Rattle.ff_reader.specs.declared.step.Step.TheVariants.{Skip};
ghost use Rattle.ff_flac_dec.specs.Blocks.{number_24, kind_of, is_last, rate_in, channels_in, bits_in, sound_of, closes, info, other, after, block};

use crate::head::{BlockStep, FlacHead, HeadState};
use ff_frame::{Codec, StreamHead};
use ff_reader::{HeadFault, Step};
use ff_time::Rational;

fn at_24(bytes: &[u8], place: usize) -> u32
    requires { place + 3 ≤ length bytes.now }
    ensures value { result ≡ number_24 place bytes.now }
    ensures bound { result < 2 ^ 24 }
{
    65536 * bytes[place] as u32 + 256 * bytes[place + 1] as u32 + bytes[place + 2] as u32
}

fn rate_at(bytes: &[u8]) -> u32
    requires { 17 ≤ length bytes.now }
    ensures value { result ≡ rate_in bytes.now }
    ensures bound { result < 2 ^ 20 }
{
    at_24(bytes, 14) / 16 % (1 << 20)
}

fn channels_at(bytes: &[u8]) -> u8
    requires { 17 ≤ length bytes.now }
    ensures { result ≡ channels_in bytes.now }
{
    bytes[16] / 2 % 8 + 1
}

fn bits_at(bytes: &[u8]) -> u8
    requires { 18 ≤ length bytes.now }
    ensures { result ≡ bits_in bytes.now }
{
    16 * (bytes[16] % 2) + bytes[17] / 16 + 1
}

// Audio with one tick a sample frame.
fn sound(rate: u32, bits: u8, channels: u8) -> StreamHead
    requires some { 0 < rate }
    requires few { rate < 2 ^ 31 }
    ensures { result ≡ sound_of rate bits channels }
{
    let tb = Rational::one_over(rate);
    StreamHead::Audio {
        tb,
        rate,
        bits,
        channels,
        codec: Codec::Flac,
    }
}

// What comes after a block of so many bytes.
fn closed(size: u32, head: StreamHead, at: u64, bytes: &[u8]) -> BlockStep
    requires place { at < 2 ^ 32 }
    requires small { size < 2 ^ 24 }
    requires there { 1 ≤ length bytes.now }
    ensures value { result ≡ closes size head at bytes.now }
    ensures small { (count : ℕ) (next : HeadState) → result ≡ Skip count next → count ≤ 2 ^ 33 }
{
    if bytes[0] < 128 {
        return Step::Skip(3 + size as u64, HeadState::Blocks(Some(head)));
    }
    if bytes.len() < 4 + size as usize {
        return Step::Wait;
    }
    Step::Decide(Ok(FlacHead {
        head,
        start: at + 4 + size as u64,
    }))
}

#[tactic(auto, unfolding(crate::specs::Blocks::info))]
fn info_at(at: u64, bytes: &[u8]) -> BlockStep
    requires place { at < 2 ^ 32 }
    requires there { 4 ≤ length bytes.now }
    ensures value { result ≡ info at bytes.now }
    ensures small { (count : ℕ) (next : HeadState) → result ≡ Skip count next → count ≤ 2 ^ 33 }
{
    if !(bytes[0] % 128 == 0 && at_24(bytes, 1) == 34) {
        return Step::Decide(Err(HeadFault::Damaged { offset: at }));
    }
    if bytes.len() < 38 {
        return Step::Wait;
    }
    let rate = rate_at(bytes);
    if rate == 0 {
        return Step::Decide(Err(HeadFault::Unsupported { offset: at + 14 }));
    }
    let bits = bits_at(bytes);
    if !(4 <= bits && bits <= 24) {
        return Step::Decide(Err(HeadFault::Unsupported { offset: at + 16 }));
    }
    closed(34, sound(rate, bits, channels_at(bytes)), at, bytes)
}

#[tactic(auto, unfolding(crate::specs::Blocks::other))]
fn other_at(head: StreamHead, at: u64, bytes: &[u8]) -> BlockStep
    requires place { at < 2 ^ 32 }
    requires there { 4 ≤ length bytes.now }
    ensures value { result ≡ other head at bytes.now }
    ensures small { (count : ℕ) (next : HeadState) → result ≡ Skip count next → count ≤ 2 ^ 33 }
{
    let kind = bytes[0] % 128;
    if kind == 0 {
        return Step::Decide(Err(HeadFault::Damaged { offset: at }));
    }
    if kind == 127 {
        return Step::Decide(Err(HeadFault::Damaged { offset: at }));
    }
    closed(at_24(bytes, 1), head, at, bytes)
}

/// What the block does that begins the bytes, at this offset of the input, after this head.
#[tactic(auto, unfolding(crate::specs::Blocks::block))]
pub(crate) fn block_at(format: Option<StreamHead>, at: u64, bytes: &[u8]) -> BlockStep
    requires { at < 2 ^ 32 }
    ensures value { result ≡ block format at bytes.now }
    ensures small { (count : ℕ) (next : HeadState) → result ≡ Skip count next → count ≤ 2 ^ 33 }
{
    if bytes.len() < 4 {
        return Step::Wait;
    }
    match format {
        None => info_at(at, bytes),
        Some(head) => other_at(head, at, bytes),
    }
}

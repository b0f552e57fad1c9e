//! Signed samples, unary counts and Rice codes.
ghost use Rattle.std.specs.Prelude.{◌≡◌, ◌<◌, ◌≤◌, ◌+◌, ◌*◌, ◌^◌, IfOk, IfErr, FitsSigned};
ghost use Rattle.std.specs.Int.{w32};
ghost use Rattle.ff_bits.specs.Reading.{zeros};
ghost use Rattle.ff_bits.specs.Integers.{signed};
ghost use Rattle.ff_flac_frame.specs.Frame.{zigzag, sample, rice, residual_limit, quotient_limit};
ghost use Rattle.ff_flac_frame.specs.laws.Gives.{Gives};

use crate::end::FrameEnd;
use crate::field::{read_below, read_field};
use crate::rule::Rule;
use ff_bits::{BitEnd, BitReader};

fn signed_of(depth: u32, v: u64) -> i32
    requires depth { depth ≤ 32 }
    requires value { v < 2 ^ depth }
    ensures { result ≡ signed depth v }
{
    let shift = if depth == 0 { 0 } else { depth - 1 };
    let half = 1u64 << shift;
    if v < half {
        v as i32
    } else {
        let less = (1u64 << depth) - v;
        (-(less as i64)) as i32
    }
}

fn zigzag_of(u: u64) -> i32
    requires { u < residual_limit }
    ensures { result ≡ zigzag u }
{
    if u % 2 == 0 {
        (u / 2) as i32
    } else {
        (-((u / 2 + 1) as i64)) as i32
    }
}

/// A signed sample of so many bits.
#[tactic(auto, unfolding(crate::specs::Frame::sample))]
pub fn read_sample(reader: &mut BitReader, depth: u32) -> Result<i32, FrameEnd>
    requires { depth ≤ 32 }
    ensures reads { Gives (λ v. v) result (sample depth reader.old) reader.new }
    ensures fits { IfOk result (λ v. FitsSigned w32 v) }
{
    let v = read_field(reader, depth, Rule::Any)?;
    Ok(signed_of(depth, v))
}

/// Zeros before a one, fewer than the limit.
pub fn read_zeros(reader: &mut BitReader, limit: u64) -> Result<u64, FrameEnd>
    requires { limit ≤ 2 ^ 62 }
    ensures reads { Gives (λ z. z) result (zeros limit reader.old) reader.new }
    ensures below { IfOk result (λ z. z < limit) }
{
    match reader.zeros(limit) {
        Ok(z) => Ok(z),
        Err(BitEnd::Short) => Err(FrameEnd::NotYet),
        Err(BitEnd::BadNumber) => Err(FrameEnd::Never),
    }
}

/// The residual of so many zeros and these low bits, where it is within range.
#[inline(always)]
pub fn rice_of(zeros: u32, low: u64, k: u32) -> Result<i32, FrameEnd>
    requires parameter { k ≤ 31 }
    requires zeros { zeros < 64 }
    requires low { low < 2 ^ k }
    ensures value { IfOk result (λ v. (v ≡ zigzag (zeros * 2 ^ k + low)) × (zeros * 2 ^ k + low < residual_limit)) }
    ensures out { IfErr result (λ e. (e ≡ FrameEnd.Never) × (residual_limit ≤ zeros * 2 ^ k + low)) }
    ensures fits { IfOk result (λ v. FitsSigned w32 v) }
{
    let value = ((zeros as u64) << k) + low;
    if value < 4294967295 {
        Ok(zigzag_of(value))
    } else {
        Err(FrameEnd::Never)
    }
}

/// The residual of so many zeros and these low bits, which are too few to leave the range.
#[inline(always)]
pub fn short_rice(zeros: u32, low: u64, k: u32) -> i32
    requires parameter { k ≤ 12 }
    requires zeros { zeros < 64 }
    requires low { low < 2 ^ k }
    ensures value { result ≡ zigzag (zeros * 2 ^ k + low) }
    ensures within { zeros * 2 ^ k + low < residual_limit }
    ensures fits { FitsSigned w32 result }
{
    zigzag_of(((zeros as u64) << k) + low)
}

/// A residual under a Rice parameter (RFC 9639, section 9.2.7).
#[cold]
#[tactic(auto, unfolding(crate::specs::Frame::rice, crate::specs::Frame::quotient_limit))]
pub fn read_rice(reader: &mut BitReader, k: u32) -> Result<i32, FrameEnd>
    requires { k ≤ 31 }
    ensures reads { Gives (λ v. v) result (rice k reader.old) reader.new }
    ensures fits { IfOk result (λ v. FitsSigned w32 v) }
{
    let limit = (4294967294u64 >> k) + 1;
    let q = read_zeros(reader, limit)?;
    let high = q << k;
    let low = read_below(reader, k, 4294967295 - high)?;
    Ok(zigzag_of(high + low))
}

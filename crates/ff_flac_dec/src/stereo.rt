//! Left and right, restored from two subframes (RFC 9639, section 4.2).
ghost use Rattle.std.specs.Prelude.{◌≡◌, ◌≤◌, ◌==◌, if◌then◌else◌, IfOk, IfErr, IsErrOf, length};
ghost use Rattle.ff_frame.specs.Audio.{FitsBits};
ghost use Rattle.ff_flac_frame.specs.Prediction.{AllInDepth};
ghost use Rattle.ff_flac_dec.specs.Channels.{less, more, mid_left, mid_right, left_right, AllChannels, interleaved};
ghost use Rattle.ff_flac_dec.specs.laws.Joins.{joins};

use crate::depth::all_fit;
use crate::end::DecodeEnd;
use std::alloc::Global;

/// How a channel is made of two subframes (RFC 9639, section 4.2).
#[derive(Clone, Copy)]
pub enum Join {
    /// Right, of left and side.
    Less,
    /// Left, of side and right.
    More,
    /// Left, of mid and side.
    MidLeft,
    /// Right, of mid and side.
    MidRight,
}

/// A sample of a channel that is made of two.
#[inline(always)]
fn joined(join: Join, first: i32, second: i32) -> i32
    requires first { FitsBits 25 first }
    requires second { FitsBits 25 second }
    ensures { result ≡ joins join first second }
{
    match join {
        Join::Less => first - second,
        Join::More => first + second,
        Join::MidLeft => first - (second >> 1) + second,
        Join::MidRight => first - (second >> 1),
    }
}

/// The left sample, of one of each subframe under a channel code from 8 on.
#[inline(always)]
fn left_of(form: u8, first: i32, second: i32) -> i32
    requires first { FitsBits 25 first }
    requires second { FitsBits 25 second }
    ensures { result ≡ (if form == 8 then first else (if form == 9 then more first second else mid_left first second)) }
{
    match form {
        8 => first,
        9 => joined(Join::More, first, second),
        _ => joined(Join::MidLeft, first, second),
    }
}

/// The right sample.
#[inline(always)]
fn right_of(form: u8, first: i32, second: i32) -> i32
    requires first { FitsBits 25 first }
    requires second { FitsBits 25 second }
    ensures { result ≡ (if form == 8 then less first second else (if form == 9 then second else mid_right first second)) }
{
    match form {
        8 => joined(Join::Less, first, second),
        9 => second,
        _ => joined(Join::MidRight, first, second),
    }
}

/// Left and right, sample frame after sample frame. It stands at each call of its own with the channel code known.
#[tactic(auto, unfolding(crate::specs::Channels::interleaved))]
#[inline(always)]
fn woven(alloc: Global, form: u8, first: &[i32], second: &[i32]) -> Result<Vec<i32>, DecodeEnd>
    requires same { length first.now ≡ length second.now }
    requires first { AllInDepth 25 first.now }
    requires second { AllInDepth 25 second.now }
    ensures ok { IfOk result (λ v. v.items ≡ interleaved (length first.now) (left_right form first.now second.now)) }
    ensures memory { IfErr result (λ e. e ≡ DecodeEnd.NoMemory) }
{
    let count = first.len();
    let mut out = Vec::with_capacity(alloc, count + count)?;
    for i in 0..count {
        let x = first[i];
        let y = second[i];
        out.push_reserved(left_of(form, x, y));
        out.push_reserved(right_of(form, x, y));
    }
    Ok(out)
}

/// Left and right, sample frame after sample frame, within the stream's depth or not.
fn both_woven(alloc: Global, form: u8, first: &[i32], second: &[i32]) -> Result<Vec<i32>, DecodeEnd>
    requires same { length first.now ≡ length second.now }
    requires first { AllInDepth 25 first.now }
    requires second { AllInDepth 25 second.now }
    ensures ok { IfOk result (λ v. v.items ≡ interleaved (length first.now) (left_right form first.now second.now)) }
    ensures memory { IfErr result (λ e. e ≡ DecodeEnd.NoMemory) }
{
    match form {
        8 => woven(alloc, 8, first, second),
        9 => woven(alloc, 9, first, second),
        _ => woven(alloc, 10, first, second),
    }
}

/// Left and right, sample frame after sample frame, of the two subframes under a channel code from 8 on.
pub fn left_and_right(
    alloc: Global,
    form: u8,
    depth: u32,
    first: &[i32],
    second: &[i32],
) -> Result<Vec<i32>, DecodeEnd>
    requires same { length first.now ≡ length second.now }
    requires depth_low { 1 ≤ depth }
    requires depth_high { depth ≤ 25 }
    requires first { AllInDepth 25 first.now }
    requires second { AllInDepth 25 second.now }
    ensures ok { IfOk result (λ v. v.items ≡ interleaved (length first.now) (left_right form first.now second.now)) }
    ensures within { IfOk result (λ _. AllChannels depth (left_right form first.now second.now)) }
    ensures out { IsErrOf result DecodeEnd.OutOfDepth → AllChannels depth (left_right form first.now second.now) → ⊥ }
{
    let samples = both_woven(alloc, form, first, second)?;
    if !all_fit(depth, samples.as_slice()) {
        return Err(DecodeEnd::OutOfDepth);
    }
    Ok(samples)
}

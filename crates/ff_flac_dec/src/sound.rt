//! The audio frame that a FLAC frame stands for.
ghost use Rattle.std.specs.Prelude.{◌≡◌, ◌<◌, ◌≤◌, ◌+◌, ◌-◌, ℕ, List, IfOk, IfErr, IsErrOf, length, map, ◌∷◌, []};
ghost use Rattle.std.specs.List.{AllByRecursion};
ghost use Rattle.ff_frame.specs.Audio.{IsAudio};
ghost use Rattle.ff_flac_frame.specs.Frame.{IsStream, Begins};
ghost use Rattle.ff_flac_frame.specs.laws.Facts.{IsPart, IsFrame};
ghost use Rattle.ff_flac_frame.specs.laws.Parts.{part_of, frame_of};
ghost use Rattle.ff_flac_dec.specs.Values.{channel_samples};
ghost use Rattle.ff_flac_dec.specs.Channels.{AllChannels, IsCoded, IsWithinDepths, left_right, first_depth, second_depth, channels_of, interleaved, decoded};
ghost use Rattle.ff_flac_dec.specs.laws.Joins.{items_of};
ghost use Rattle.ff_flac_dec.specs.Streams.{stream_of};

use crate::channel::{kept, samples_of};
use crate::end::DecodeEnd;
use crate::head::FlacHead;
use crate::interleave::{interleave, interleave_two};
use crate::stereo::left_and_right;
use ff_flac_frame::{FlacFrame, FlacStream, Subframe};
use ff_frame::{AFrame, Samples};
use std::alloc::Global;

/// The channels of subframes of one depth that stand for one channel each.
fn independent(
    alloc: Global,
    subframes: &[Subframe],
    block: u32,
    depth: u32,
) -> Result<Vec<Vec<i32>>, DecodeEnd>
    requires parts { AllByRecursion (IsPart block depth) (map part_of subframes.now) }
    requires depth { depth ≤ 25 }
    ensures ok { IfOk result (λ v. items_of v.items ≡ map (channel_samples block) (map part_of subframes.now)) }
    ensures coded { IfOk result (λ _. AllByRecursion (IsCoded block depth) (map part_of subframes.now)) }
    ensures within { IfOk result (λ _. AllChannels depth (map (channel_samples block) (map part_of subframes.now))) }
    ensures out { IsErrOf result DecodeEnd.OutOfDepth → AllByRecursion (IsCoded block depth) (map part_of subframes.now) → ⊥ }
{
    let mut channels = Vec::new(alloc);
    for subframe in subframes {
        let samples = samples_of(alloc, subframe, block, depth)?;
        channels.push(samples)?;
    }
    Ok(channels)
}

/// The same channels, sample frame after sample frame, by their samples as lists of their own.
fn separate_of_copies(
    alloc: Global,
    subframes: &[Subframe],
    block: u32,
    depth: u32,
) -> Result<Vec<i32>, DecodeEnd>
    requires parts { AllByRecursion (IsPart block depth) (map part_of subframes.now) }
    requires depth { depth ≤ 25 }
    ensures ok { IfOk result (λ v. v.items ≡ interleaved block (map (channel_samples block) (map part_of subframes.now))) }
    ensures coded { IfOk result (λ _. AllByRecursion (IsCoded block depth) (map part_of subframes.now)) }
    ensures within { IfOk result (λ _. AllChannels depth (map (channel_samples block) (map part_of subframes.now))) }
    ensures out { IsErrOf result DecodeEnd.OutOfDepth → AllByRecursion (IsCoded block depth) (map part_of subframes.now) → ⊥ }
{
    let channels = independent(alloc, subframes, block, depth)?;
    let samples = interleave(alloc, channels.as_slice(), block)?;
    Ok(samples)
}

/// The same channels, sample frame after sample frame.
fn separate(
    alloc: Global,
    subframes: &[Subframe],
    block: u32,
    depth: u32,
) -> Result<Vec<i32>, DecodeEnd>
    requires parts { AllByRecursion (IsPart block depth) (map part_of subframes.now) }
    requires depth { depth ≤ 25 }
    ensures ok { IfOk result (λ v. v.items ≡ interleaved block (map (channel_samples block) (map part_of subframes.now))) }
    ensures coded { IfOk result (λ _. AllByRecursion (IsCoded block depth) (map part_of subframes.now)) }
    ensures within { IfOk result (λ _. AllChannels depth (map (channel_samples block) (map part_of subframes.now))) }
    ensures out { IsErrOf result DecodeEnd.OutOfDepth → AllByRecursion (IsCoded block depth) (map part_of subframes.now) → ⊥ }
{
    // One channel is its own list of sample frames.
    if let [only] = subframes {
        return samples_of(alloc, only, block, depth);
    }
    let [first, second] = subframes else {
        return separate_of_copies(alloc, subframes, block, depth);
    };
    let Some(one) = kept(first, depth) else {
        return separate_of_copies(alloc, subframes, block, depth);
    };
    let Some(other) = kept(second, depth) else {
        return separate_of_copies(alloc, subframes, block, depth);
    };
    interleave_two(alloc, one, other)
}

/// The depth of the first of two subframes: a side channel has one bit more.
fn first_depth_of(form: u8, depth: u32) -> u32
    requires { depth ≤ 24 }
    ensures value { result ≡ first_depth form depth }
    ensures bound { result ≤ depth + 1 }
{
    if form == 9 { depth + 1 } else { depth }
}

/// The depth of the second.
fn second_depth_of(form: u8, depth: u32) -> u32
    requires { depth ≤ 24 }
    ensures value { result ≡ second_depth form depth }
    ensures bound { result ≤ depth + 1 }
{
    if form == 9 { depth } else { depth + 1 }
}

/// Left and right, sample frame after sample frame, of two subframes under a channel code from 8 on. Their samples
/// are lists of their own.
fn joint_of_copies(
    alloc: Global,
    first: &Subframe,
    second: &Subframe,
    form: u8,
    block: u32,
    depth: u32,
) -> Result<Vec<i32>, DecodeEnd>
    requires first { IsPart block (first_depth form depth) (part_of first.now) }
    requires second { IsPart block (second_depth form depth) (part_of second.now) }
    requires depth_low { 1 ≤ depth }
    requires depth_high { depth ≤ 24 }
    ensures ok { IfOk result (λ v. v.items
        ≡ interleaved block (left_right form (channel_samples block (part_of first.now)) (channel_samples block (part_of second.now)))) }
    ensures first { IfOk result (λ _. IsCoded block (first_depth form depth) (part_of first.now)) }
    ensures second { IfOk result (λ _. IsCoded block (second_depth form depth) (part_of second.now)) }
    ensures within { IfOk result (λ _. AllChannels depth (left_right form (channel_samples block (part_of first.now)) (channel_samples block (part_of second.now)))) }
    ensures out { IsErrOf result DecodeEnd.OutOfDepth
        → IsCoded block (first_depth form depth) (part_of first.now) → IsCoded block (second_depth form depth) (part_of second.now)
        → AllChannels depth (left_right form (channel_samples block (part_of first.now)) (channel_samples block (part_of second.now))) → ⊥ }
{
    let one = samples_of(alloc, first, block, first_depth_of(form, depth))?;
    let other = samples_of(alloc, second, block, second_depth_of(form, depth))?;
    left_and_right(alloc, form, depth, one.as_slice(), other.as_slice())
}

/// Left and right, sample frame after sample frame, of two subframes under a channel code from 8 on.
fn joint(
    alloc: Global,
    first: &Subframe,
    second: &Subframe,
    form: u8,
    block: u32,
    depth: u32,
) -> Result<Vec<i32>, DecodeEnd>
    requires first { IsPart block (first_depth form depth) (part_of first.now) }
    requires second { IsPart block (second_depth form depth) (part_of second.now) }
    requires depth_low { 1 ≤ depth }
    requires depth_high { depth ≤ 24 }
    ensures ok { IfOk result (λ v. v.items
        ≡ interleaved block (left_right form (channel_samples block (part_of first.now)) (channel_samples block (part_of second.now)))) }
    ensures first { IfOk result (λ _. IsCoded block (first_depth form depth) (part_of first.now)) }
    ensures second { IfOk result (λ _. IsCoded block (second_depth form depth) (part_of second.now)) }
    ensures within { IfOk result (λ _. AllChannels depth (left_right form (channel_samples block (part_of first.now)) (channel_samples block (part_of second.now)))) }
    ensures out { IsErrOf result DecodeEnd.OutOfDepth
        → IsCoded block (first_depth form depth) (part_of first.now) → IsCoded block (second_depth form depth) (part_of second.now)
        → AllChannels depth (left_right form (channel_samples block (part_of first.now)) (channel_samples block (part_of second.now))) → ⊥ }
{
    let Some(one) = kept(first, first_depth_of(form, depth)) else {
        return joint_of_copies(alloc, first, second, form, block, depth);
    };
    let Some(other) = kept(second, second_depth_of(form, depth)) else {
        return joint_of_copies(alloc, first, second, form, block, depth);
    };
    left_and_right(alloc, form, depth, one, other)
}

/// The samples of a frame, sample frame after sample frame.
fn samples(alloc: Global, frame: &FlacFrame, stream: &FlacStream) -> Result<Vec<i32>, DecodeEnd>
    requires stream { IsStream stream.now }
    requires frame { IsFrame stream.now (frame_of 0 frame.now) }
    ensures ok { IfOk result (λ v. v.items ≡ interleaved frame.now.block (channels_of (frame_of 0 frame.now))) }
    ensures within { IfOk result (λ _. IsWithinDepths stream.now (frame_of 0 frame.now)) }
    ensures out { IsErrOf result DecodeEnd.OutOfDepth → IsWithinDepths stream.now (frame_of 0 frame.now) → ⊥ }
{
    let depth = stream.bits as u32;
    let subframes = frame.subframes.as_slice();
    if frame.form < 8 {
        let alone = separate(alloc, subframes, frame.block, depth)?;
        return Ok(alone);
    }
    let both = joint(
        alloc,
        &subframes[0],
        &subframes[1],
        frame.form,
        frame.block,
        depth,
    )?;
    Ok(both)
}

/// The audio that a frame of a stream stands for, which starts at this tick.
fn sound(
    alloc: Global,
    frame: &FlacFrame,
    stream: &FlacStream,
    pts: i64,
) -> Result<AFrame, DecodeEnd>
    requires stream { IsStream stream.now }
    requires frame { (bytes : List ℕ) × (number : ℕ) × (len : ℕ) × Begins stream.now bytes (frame_of number frame.now) len }
    ensures ok { IfOk result (λ a. a ≡ decoded stream.now pts (frame_of 0 frame.now)) }
    ensures sound { IfOk result (λ a. IsAudio a.bits a.channels a.samples) }
    ensures within { IfOk result (λ _. IsWithinDepths stream.now (frame_of 0 frame.now)) }
    ensures out { IsErrOf result DecodeEnd.OutOfDepth → IsWithinDepths stream.now (frame_of 0 frame.now) → ⊥ }
{
    let samples = samples(alloc, frame, stream)?;
    Ok(AFrame::make(
        pts,
        stream.rate,
        stream.bits,
        stream.channels,
        Samples::new(samples),
    ))
}

/// The audio that a frame stands for, which starts at this tick (RFC 9639, sections 9.2 and 4.2). The frame is one that
/// `frame_at` gave for some bytes under this head. OutOfDepth exactly where a sample leaves its subframe's depth or the
/// stream's.
pub fn decode(
    alloc: Global,
    frame: &FlacFrame,
    head: &FlacHead,
    pts: i64,
) -> Result<AFrame, DecodeEnd>
    requires stream { IsStream (stream_of head.now.head) }
    requires frame { (bytes : List ℕ) × (number : ℕ) × (len : ℕ) × Begins (stream_of head.now.head) bytes (frame_of number frame.now) len }
    ensures ok { IfOk result (λ a. a ≡ decoded (stream_of head.now.head) pts (frame_of 0 frame.now)) }
    ensures sound { IfOk result (λ a. IsAudio a.bits a.channels a.samples) }
    ensures within { IfOk result (λ _. IsWithinDepths (stream_of head.now.head) (frame_of 0 frame.now)) }
    ensures out { IsErrOf result DecodeEnd.OutOfDepth → IsWithinDepths (stream_of head.now.head) (frame_of 0 frame.now) → ⊥ }
{
    let stream = head.stream();
    sound(alloc, frame, &stream, pts)
}

//! Tests of blocks, by frames whose samples count up.
ghost use Rattle.std.specs.Prelude.{◌≡◌, ◌≤◌, false, Some, None, All, length, IfOk, OnOk};
ghost use Rattle.ff_frame.specs.Audio.{FitsBits, IsAudio};
ghost use Rattle.ff_flac_enc.specs.Gathered.{format_of};
ghost use Rattle.ff_flac_enc.specs.laws.Cuts.{IsLike, has_ended, format_in};

use ff_flac_enc::Blocks;
use ff_frame::{AFrame, Samples};
use std::alloc::{AllocError, Global};

// When the first frame starts.
const START: i64 = 100;

// Sample number i of the stream.
fn value(i: u32) -> i32
    ensures { FitsBits 16 result }
{
    (i % 65521) as i32 - 32760
}

fn values(alloc: Global, from: u32, count: u32) -> Result<Vec<i32>, AllocError>
    requires from { from ≤ 4000000 }
    requires count { count ≤ 131070 }
    ensures len { IfOk result (λ v. length v.items ≡ count) }
    ensures fit { IfOk result (λ v. All (FitsBits 16) v.items) }
{
    let mut samples = Vec::new(alloc);
    for j in 0..count {
        samples.push(value(from + j))?;
    }
    Ok(samples)
}

// So many sample frames of one or two channels, from number `from` on.
fn frame(alloc: Global, pts: i64, channels: u8, from: u32, count: u32) -> Result<AFrame, AllocError>
    requires some { 1 ≤ channels }
    requires few { channels ≤ 2 }
    requires from { from ≤ 2000000 }
    requires count { 1 ≤ count }
    requires count_few { count ≤ 65535 }
    ensures sound { IfOk result (λ f. IsAudio f.bits f.channels f.samples) }
    ensures format { IfOk result (λ f. format_of f ≡ record { rate = 8000; bits = 16; channels = channels }) }
{
    let samples = values(alloc, from * channels as u32, count * channels as u32)?;
    Ok(AFrame::make(pts, 8000, 16, channels, Samples::new(samples)))
}

// When a block starts, how many samples it has, and whether they are those of its place.
type Said = (i64, usize, bool);

fn are_from(samples: &[i32], first: u32) -> bool
    requires { first ≤ 4000000 }
{
    let mut same = true;
    for i in 0..samples.len().min(100000) {
        same = same & (samples[i] == value(first + i as u32));
    }
    same
}

fn said(block: &AFrame, channels: u8) -> Said
    requires { channels ≤ 2 }
{
    let samples = block.samples.as_slice();
    let place = block.pts.clamp(START, START + 2000000) - START;
    (
        block.pts,
        samples.len(),
        are_from(samples, place as u32 * channels as u32),
    )
}

// The blocks there are.
fn drain(blocks: &mut Blocks, channels: u8, out: &mut Vec<Said>) -> Result<(), AllocError>
    requires { channels ≤ 2 }
    ensures ended { has_ended blocks.new ≡ has_ended blocks.old }
    ensures format { format_in blocks.new ≡ format_in blocks.old }
{
    'turns: for _ in 0..40 {
        match blocks.pull()? {
            Some(block) => out.push(said(&block, channels))?,
            None => return Ok(()),
        }
    }
    Err(AllocError)
}

fn feed(blocks: &mut Blocks, frame: AFrame) -> Result<(), AllocError>
    requires going { has_ended blocks.old ≡ false }
    requires sound { IsAudio frame.bits frame.channels frame.samples }
    requires like { IsLike (format_in blocks.old) frame }
    ensures going { has_ended blocks.new ≡ false }
    ensures format { OnOk result (format_in blocks.new ≡ Some (format_of frame)) }
{
    if blocks.feed(frame).is_err() {
        return Err(AllocError);
    }
    Ok(())
}

// The blocks of frames of these sizes, taken as they come, or all at the end. Each frame starts `gap` ticks after the
// one before it.
fn blocks_of(
    alloc: Global,
    channels: u8,
    sizes: &[u32],
    gap: u32,
    at_once: bool,
) -> Result<Vec<Said>, AllocError>
    requires some { 1 ≤ channels }
    requires few { channels ≤ 2 }
    requires gap { gap ≤ 1000 }
{
    let mut blocks = Blocks::new(alloc);
    let mut out = Vec::new(alloc);
    let mut from = 0u32;
    'frames: for i in 0..sizes.len().min(100) {
        let size = sizes[i];
        if size == 0 || size > 65535 || from > 1000000 {
            return Err(AllocError);
        }
        let pts = START + (from + i as u32 * gap) as i64;
        let frame = frame(alloc, pts, channels, from, size)?;
        feed(&mut blocks, frame)?;
        from += size;
        if at_once {
            drain(&mut blocks, channels, &mut out)?;
        }
    }
    blocks.end();
    drain(&mut blocks, channels, &mut out)?;
    Ok(out)
}

// So many blocks, the last of so many sample frames.
fn wanted(alloc: Global, channels: u8, count: u32, last: u32) -> Result<Vec<Said>, AllocError>
    requires channels { channels ≤ 2 }
    requires count { count ≤ 1000 }
    requires last { last ≤ 4096 }
{
    let mut out = Vec::new(alloc);
    for k in 0..count {
        let frames = if k + 1 == count { last } else { 4096 };
        out.push((
            START + (4096 * k) as i64,
            frames as usize * channels as usize,
            true,
        ))?;
    }
    Ok(out)
}

// Whether frames of these sizes come to so many blocks, the last of so many sample frames.
fn are(
    alloc: Global,
    channels: u8,
    sizes: &[u32],
    at_once: bool,
    count: u32,
    last: u32,
) -> Result<bool, AllocError>
    requires some { 1 ≤ channels }
    requires few { channels ≤ 2 }
    requires count { count ≤ 1000 }
    requires last { last ≤ 4096 }
{
    let wanted = wanted(alloc, channels, count, last)?;
    let blocks = blocks_of(alloc, channels, sizes, 0, at_once)?;
    Ok(blocks.as_slice() == wanted.as_slice())
}

// The same on one channel and on two, taken as they come and all at the end.
fn are_blocks(alloc: Global, sizes: &[u32], count: u32, last: u32) -> Result<bool, AllocError> {
    let count = count.min(1000);
    let last = last.min(4096);
    let one = are(alloc, 1, sizes, false, count, last)? & are(alloc, 1, sizes, true, count, last)?;
    let two = are(alloc, 2, sizes, false, count, last)? & are(alloc, 2, sizes, true, count, last)?;
    Ok(one & two)
}

#[test]
fn sizes(rt: HostRuntime) -> Result<(), AllocError> {
    let alloc = rt.alloc();
    // frames; how many blocks they are, and how long the last one is
    let rows = [
        ([].as_slice(), 0, 0),
        ([1].as_slice(), 1, 1),
        ([4095].as_slice(), 1, 4095),
        ([4096].as_slice(), 1, 4096),
        ([4097].as_slice(), 2, 1),
        ([65535].as_slice(), 16, 4095),
        ([1, 4095, 1].as_slice(), 2, 1),
        ([1024, 1024, 1024, 1024, 1024].as_slice(), 2, 1024),
        ([4095, 1, 4096, 4097].as_slice(), 4, 1),
        ([65535, 1, 65535, 4097].as_slice(), 33, 4096),
        ([4097, 4097, 65535, 4095].as_slice(), 19, 4096),
    ];
    for (sizes, count, last) in rows {
        let came = are_blocks(alloc, sizes, count, last)?;
        assert!(rt; came, "{count} blocks");
    }
    Ok(())
}

// Each block starts as many ticks after the first frame as there are sample frames before it.
#[test]
fn gaps(rt: HostRuntime) -> Result<(), AllocError> {
    let blocks = blocks_of(rt.alloc(), 1, &[4095, 2, 4096], 7, true)?;
    let wanted = [
        (START, 4096, true),
        (START + 4096, 4096, true),
        (START + 8192, 1, true),
    ];
    assert_eq!(rt; blocks.as_slice(), wanted.as_slice());
    Ok(())
}

// What the next block is, if there is one; none of the stream where memory is refused.
fn next(blocks: &mut Blocks) -> Option<Said>
    ensures ended { has_ended blocks.new ≡ has_ended blocks.old }
    ensures format { format_in blocks.new ≡ format_in blocks.old }
{
    match blocks.pull() {
        Ok(Some(block)) => Some(said(&block, 1)),
        Ok(None) => None,
        Err(_) => Some((0, 0, false)),
    }
}

// Seven pulls, after no frame, one, two and the end.
fn pulls(alloc: Global) -> Result<[Option<Said>; 7], AllocError> {
    let first = frame(alloc, START, 1, 0, 4095)?;
    let second = frame(alloc, START + 4095, 1, 4095, 2)?;
    let mut blocks = Blocks::new(alloc);
    let none = next(&mut blocks);
    feed(&mut blocks, first)?;
    let short = next(&mut blocks);
    feed(&mut blocks, second)?;
    let whole = next(&mut blocks);
    let rest = next(&mut blocks);
    blocks.end();
    let last = next(&mut blocks);
    let behind = next(&mut blocks);
    let far_behind = next(&mut blocks);
    Ok([none, short, whole, rest, last, behind, far_behind])
}

#[test]
fn none(rt: HostRuntime) -> Result<(), AllocError> {
    let wanted = [
        None,
        None,
        Some((START, 4096, true)),
        None,
        Some((START + 4096, 1, true)),
        None,
        None,
    ];
    assert_eq!(rt; pulls(rt.alloc())?, wanted);
    Ok(())
}

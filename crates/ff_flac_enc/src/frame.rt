//! A block of audio as a FLAC frame.

ghost use Rattle.std.specs.Prelude.{◌≡◌, ◌+◌, ◌-◌, ◌*◌, ◌/◌, ◌^◌, ◌<◌, ◌≤◌, ◌≢◌, ◌++◌, length, map, IfOk, OnOk, All, Some};
ghost use Rattle.std.specs.List.{flat_map, range_with_len};
ghost use Rattle.ff_frame.specs.Audio.{FitsBits};
ghost use Rattle.ff_flac_subframe.specs.rice.Least.{least};
ghost use Rattle.ff_flac_enc.specs.Head.{IsHead, opened};
ghost use Rattle.ff_flac_enc.specs.Layout.{Layout, layouts, layout_size, body};
ghost use Rattle.ff_flac_enc.specs.Channels.{channel_of, channels_in, best_bits};
ghost use Rattle.ff_flac_enc.specs.Frame.{IsBlock, IsLeast, Spells, head_of};

use crate::channels::{channel, two_channels};
use crate::head::{Head, close_frame, open_frame};
use crate::pair::write_pair;
use ff_bits::BitWriter;
use ff_flac_frame::FlacStream;
use ff_flac_subframe::write_subframe;
use ff_frame::AFrame;
use std::alloc::{AllocError, Global};

/// Writes one channel as a subframe of its own.
fn write_channel(
    alloc: Global,
    out: &mut BitWriter,
    samples: &[i32],
    n: usize,
    c: usize,
    bits: u32,
) -> Result<(), AllocError>
    requires some { 0 < n }
    requires one { c < n }
    requires few { n ≤ 8 }
    requires some_bits { 0 < bits }
    requires few_bits { bits ≤ 24 }
    requires some_samples { n ≤ length samples.now }
    requires few_samples { length samples.now ≤ 4096 * n }
    requires fits { All (FitsBits bits) samples.now }
    ensures { OnOk result (out.new ≡ out.old ++ best_bits bits (channel_of n samples.now c)) }
{
    let samples = channel(alloc, samples, n, c)?;
    write_subframe(alloc, out, &samples, bits)?;
    Ok(())
}

/// Writes each channel as a subframe of its own.
fn write_channels(
    alloc: Global,
    out: &mut BitWriter,
    samples: &[i32],
    n: usize,
    bits: u32,
) -> Result<(), AllocError>
    requires some { 0 < n }
    requires few { n ≤ 8 }
    requires some_bits { 0 < bits }
    requires few_bits { bits ≤ 24 }
    requires some_samples { n ≤ length samples.now }
    requires few_samples { length samples.now ≤ 4096 * n }
    requires fits { All (FitsBits bits) samples.now }
    ensures { OnOk result (out.new ≡ out.old ++ flat_map (λ c. best_bits bits (channel_of n samples.now c)) (range_with_len 0 n)) }
{
    for c in 0..n {
        write_channel(alloc, out, samples, n, c, bits)?;
    }
    Ok(())
}

/// The header and the subframes of channels that aren't two.
fn write_apart(
    alloc: Global,
    head: &Head,
    samples: &[i32],
    n: usize,
    bits: u32,
) -> Result<BitWriter, AllocError>
    requires head { IsHead head.now }
    requires some { 0 < n }
    requires few { n ≤ 8 }
    requires other { n ≢ 2 }
    requires some_bits { 0 < bits }
    requires few_bits { bits ≤ 24 }
    requires some_samples { n ≤ length samples.now }
    requires few_samples { length samples.now ≤ 4096 * n }
    requires fits { All (FitsBits bits) samples.now }
    ensures { IfOk result (λ out. (y : Layout) × (least (layout_size bits (channels_in n samples.now)) (layouts bits (channels_in n samples.now)) ≡ Some y)
        × (out ≡ opened head.now y.form ++ body bits (channels_in n samples.now) y)) }
{
    let mut out = open_frame(alloc, head, n as u8 - 1)?;
    write_channels(alloc, &mut out, samples, n, bits)?;
    Ok(out)
}

/// The header and the subframes of two channels.
fn write_two(
    alloc: Global,
    head: &Head,
    samples: &[i32],
    bits: u32,
) -> Result<BitWriter, AllocError>
    requires head { IsHead head.now }
    requires some_bits { 0 < bits }
    requires few_bits { bits ≤ 24 }
    requires some_samples { 2 ≤ length samples.now }
    requires few_samples { length samples.now ≤ 4096 * 2 }
    requires fits { All (FitsBits bits) samples.now }
    ensures { IfOk result (λ out. (y : Layout) × (least (layout_size bits (channels_in 2 samples.now)) (layouts bits (channels_in 2 samples.now)) ≡ Some y)
        × (out ≡ opened head.now y.form ++ body bits (channels_in 2 samples.now) y)) }
{
    let two = two_channels(alloc, samples)?;
    let out = write_pair(alloc, head, &two.0, &two.1, bits)?;
    Ok(out)
}

fn write_body(
    alloc: Global,
    head: &Head,
    samples: &[i32],
    n: usize,
    bits: u32,
) -> Result<BitWriter, AllocError>
    requires head { IsHead head.now }
    requires some { 0 < n }
    requires few { n ≤ 8 }
    requires some_bits { 0 < bits }
    requires few_bits { bits ≤ 24 }
    requires some_samples { n ≤ length samples.now }
    requires few_samples { length samples.now ≤ 4096 * n }
    requires fits { All (FitsBits bits) samples.now }
    ensures { IfOk result (λ out. (y : Layout) × (least (layout_size bits (channels_in n samples.now)) (layouts bits (channels_in n samples.now)) ≡ Some y)
        × (out ≡ opened head.now y.form ++ body bits (channels_in n samples.now) y)) }
{
    if n == 2 {
        let out = write_two(alloc, head, samples, bits)?;
        return Ok(out);
    }
    let out = write_apart(alloc, head, samples, n, bits)?;
    Ok(out)
}

/// The bytes of a block of audio as the frame with this number: the first of its shortest spellings.
pub fn encode_block(alloc: Global, frame: &AFrame, number: u32) -> Result<Vec<u8>, AllocError>
    requires block { IsBlock frame.now }
    requires number { number < 2 ^ 31 }
    ensures least { IfOk result (λ v. IsLeast frame.now number v.items) }
    ensures spells { IfOk result (λ v. Spells v.items frame.now number) }
{
    let n = frame.channels as usize;
    let samples = frame.samples.as_slice();
    let head = Head {
        stream: FlacStream {
            rate: frame.rate,
            bits: frame.bits,
            channels: frame.channels,
        },
        number,
        block: (samples.len() / n) as u32,
    };
    let out = write_body(alloc, &head, samples, n, frame.bits as u32)?;
    close_frame(out)
}

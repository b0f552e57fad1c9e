//! Samples of the bytes of packets, and bytes of the samples of frames, measured.

ghost use Rattle.std.specs.Prelude.{◌≡◌, ◌≤◌, ◌*◌, IfOk, length};
ghost use Rattle.ff_frame.specs.Audio.{IsAudio};
ghost use Rattle.ff_frame.specs.Heads.{IsFrameOf};
ghost use Rattle.ff_frame.specs.Codecs.{IsPcmCodec, sample_bytes};
ghost use Rattle.ff_pcm.specs.Frames.{IsPcmHead, HasBlocks};
ghost use Rattle.ff_pcm.specs.Samples.{depth};

use ff_frame::{AFrame, Bytes, Codec, Pkt, StreamHead};
use ff_pcm::{pcm_decode, pcm_encode};
use ff_time::Rational;
use std::alloc::{AllocError, Global};
use std::io;
use std::rt::Clock;
use std::time::{Duration, Instant};

/// How many bytes are decoded and encoded of each codec.
const BYTES: u64 = 1 << 30;

/// How many samples a packet has: 1,024 sample frames on two channels.
const SAMPLES: usize = 2048;

/// Prints the speed of decoding and encoding for each codec.
pub fn measure(rt: &(impl Print + AllocGlobal + Clock)) -> io::Result<()> {
    of_codec(rt, Codec::PcmU8, 8, 1)?;
    of_codec(rt, Codec::PcmS16le, 16, 2)?;
    of_codec(rt, Codec::PcmS24le, 24, 3)?;
    of_codec(rt, Codec::PcmS32le, 32, 4)
}

fn of_codec(
    rt: &(impl Print + AllocGlobal + Clock),
    codec: Codec,
    bits: u8,
    size: usize,
) -> io::Result<()>
    requires pcm { IsPcmCodec codec }
    requires own { bits ≡ depth codec }
    requires bytes { size ≡ sample_bytes codec }
{
    let Ok(tb) = Rational::new(1, 48000) else {
        return Ok(());
    };
    let head = StreamHead::Audio {
        tb,
        rate: 48000,
        bits,
        channels: 2,
        codec,
    };
    let bytes = noisy_bytes(rt.alloc(), SAMPLES * size)?;
    let packet = packet_of(bytes);
    let rounds = BYTES / (SAMPLES as u64 * size as u64);
    let start = Instant::now(rt)?;
    let sum = decoded_often(rt.alloc(), &head, &packet, rounds)?;
    report(rt, "pcm_decode", bits, start.elapsed(rt)?, sum)?;
    let frame = pcm_decode(rt.alloc(), &head, &packet)?;
    let start = Instant::now(rt)?;
    let sum = encoded_often(rt.alloc(), codec, &frame, rounds)?;
    report(rt, "pcm_encode", bits, start.elapsed(rt)?, sum)
}

/// Prints how many megabytes of bytes a second there were.
fn report(rt: &impl Print, name: &str, bits: u8, time: Duration, check: u64) -> io::Result<()> {
    let megabytes = BYTES as f64 / 1e6 / time.as_secs_f64();
    println!(rt; "{name} of {bits} bits: {megabytes:.0} MB/s ({check})")
}

fn packet_of(bytes: Vec<u8>) -> Pkt
    ensures { result.bytes ≡ bytes.items }
{
    Pkt {
        pts: 0,
        dts: 0,
        duration: 1024,
        pos: 44,
        bytes: Bytes::new(bytes),
    }
}

fn zeros(alloc: Global, count: usize) -> Result<Vec<u8>, AllocError>
    ensures { IfOk result (λ bytes. length bytes.items ≡ count) }
{
    vec![in alloc; 0; count]
}

/// Numbers without an order to see.
fn fill(bytes: &mut [u8]) {
    let mut state = 1u32;
    for i in 0..bytes.len() {
        state = state.wrapping_mul(1_664_525).wrapping_add(1_013_904_223);
        bytes[i] = (state >> 24) as u8;
    }
}

fn noisy_bytes(alloc: Global, count: usize) -> Result<Vec<u8>, AllocError>
    ensures { IfOk result (λ bytes. length bytes.items ≡ count) }
{
    let mut bytes = zeros(alloc, count)?;
    fill(&mut bytes);
    Ok(bytes)
}

/// The packet decoded so many times, and a sum of one sample each.
fn decoded_often(
    alloc: Global,
    head: &StreamHead,
    packet: &Pkt,
    rounds: u64,
) -> Result<u64, AllocError>
    requires head { IsPcmHead head.now }
    requires blocks { HasBlocks head.now packet.now.bytes }
{
    let mut sum = 0u64;
    for i in 0..rounds {
        let frame = pcm_decode(alloc, head, packet)?;
        let samples = frame.samples.as_slice();
        if let Some(sample) = samples.get(i as usize % SAMPLES) {
            sum = sum.wrapping_add(sample.cast_unsigned() as u64);
        }
    }
    Ok(sum)
}

/// The frame encoded so many times, and a sum of one byte each.
fn encoded_often(
    alloc: Global,
    codec: Codec,
    frame: &AFrame,
    rounds: u64,
) -> Result<u64, AllocError>
    requires frame { IsAudio frame.now.bits frame.now.channels frame.now.samples }
    requires pcm { IsPcmCodec codec }
    requires depth { frame.now.bits ≡ depth codec }
{
    let mut sum = 0u64;
    for i in 0..rounds {
        let bytes = pcm_encode(alloc, codec, frame)?;
        if let Some(byte) = bytes.as_slice().get(i as usize % SAMPLES) {
            sum = sum.wrapping_add(*byte as u64);
        }
    }
    Ok(sum)
}

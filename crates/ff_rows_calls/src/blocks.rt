//! Calls of the FLAC encoder on blocks.
ghost use Rattle.std.specs.Prelude.{◌≤◌, ◌+◌, ◌^◌, IfSome};
ghost use Rattle.ff_frame.specs.Audio.{IsAudio};
ghost use Rattle.ff_flac_enc.specs.Frame.{IsBlock};
ghost use Rattle.ff_flac_enc.specs.Totals.{counted};

use crate::made::{Kind, Later, made};
use crate::table::Stop;
use crate::told::Told;
use crate::words::Call;
use ff_flac_enc::{Counter, encode_block};
use ff_frame::{AFrame, Samples, Totals};
use ff_pcm::is_audio;

// The block of these samples, if it is one.
fn block(rate: u32, bits: u8, channels: u8, samples: Vec<i32>) -> Option<AFrame>
    ensures { IfSome result IsBlock }
{
    let count = samples.len();
    if rate >= 1048576 || bits > 24 || count > 4096 * channels as usize {
        return None;
    }
    let frame = AFrame {
        pts: 0,
        rate,
        bits,
        channels,
        samples: Samples::new(samples),
    };
    if is_audio(&frame) { Some(frame) } else { None }
}

// What a stream's arguments `RATE BITS CHANNELS` say.
#[derive(Clone, Copy)]
struct Stream {
    rate: u32,
    bits: u8,
    channels: u8,
}

fn stream_at(call: &mut Call) -> Stream {
    Stream {
        rate: call.up_to(0, 1048575) as u32,
        bits: call.up_to(1, 24) as u8,
        channels: call.up_to(2, 8) as u8,
    }
}

// The bytes of a block of these samples, with the number at the fourth place. None where there is no such block.
fn coded(call: &mut Call, samples: Vec<i32>) -> Option<Vec<u8>> {
    let stream = stream_at(call);
    let number = call.wide(3);
    let frame = block(stream.rate, stream.bits, stream.channels, samples)?;
    if number >= 0x8000_0000 {
        return None;
    }
    match encode_block(call.alloc, &frame, number) {
        Ok(bytes) => Some(bytes),
        Err(_) => {
            call.fail(Stop::Broken);
            None
        }
    }
}

/// `flac_block RATE BITS CHANNELS NUMBER SAMPLE..`: the frame of a block of samples with this number.
pub fn encoded(call: &mut Call, told: &mut Told) {
    let samples = call.samples(4);
    match coded(call, samples) {
        Some(bytes) => told.hex(bytes.as_slice()),
        None => told.text("out of range"),
    }
}

fn kind_of(call: &mut Call, name: &str) -> Kind {
    match name {
        "silence" => Kind::Silence,
        "square" => Kind::Square,
        "noise" => Kind::Noise,
        "ramp" => Kind::Ramp,
        "soft-noise" => Kind::SoftNoise,
        "ends" => Kind::Ends,
        _ => {
            call.misread();
            Kind::Silence
        }
    }
}

fn later_of(call: &mut Call, name: &str) -> Later {
    match name {
        "own" => Later::Own,
        "same" => Later::Same,
        "opposite" => Later::Opposite,
        _ => {
            call.misread();
            Later::Own
        }
    }
}

// So many sample frames that are made so, for the stream of the first arguments.
fn made_for(call: &mut Call, kind: &str, way: &str, count: &str) -> Vec<i32> {
    let Stream { bits, channels, .. } = stream_at(call);
    let (kind, way) = (kind_of(call, kind), later_of(call, way));
    let count = call.read_up_to(count, 4096) as u32;
    if channels < 1 || bits > 24 || channels > 8 {
        call.misread();
        return Vec::new(call.alloc);
    }
    match made(call.alloc, bits, u32::from(channels), kind, way, count) {
        Ok(samples) => samples,
        Err(_) => {
            call.fail(Stop::Broken);
            Vec::new(call.alloc)
        }
    }
}

/// `flac_block_made RATE BITS CHANNELS NUMBER KIND WAY COUNT`: the size of the frame of a block that is made so, and its last
/// two bytes.
pub fn encoded_made(call: &mut Call, told: &mut Told) {
    let (kind, way, count) = (call.text(4), call.text(5), call.text(6));
    let samples = made_for(call, kind, way, count);
    let Some(bytes) = coded(call, samples) else {
        return told.text("out of range");
    };
    let Some(sum) = bytes.as_slice().last_chunk::<2>() else {
        return call.misread();
    };
    told.count(bytes.len() as u64);
    told.text(" bytes, at last ");
    told.hex(sum);
}

// The sample frames of an argument: `KIND:COUNT` made so, or `SAMPLE` alone.
fn samples_of(call: &mut Call, word: &str) -> Vec<i32> {
    if let Some((kind, count)) = word.split_once(':') {
        return made_for(call, kind, "own", count);
    }
    let mut samples = Vec::new(call.alloc);
    match word.parse::<i32>() {
        Ok(sample) => {
            call.note(samples.push(sample));
        }
        Err(_) => call.misread(),
    }
    samples
}

// Counts the frame of an argument `SAMPLES=SIZE`.
fn count(call: &mut Call, word: &str, counter: &mut Counter)
    requires { counted counter.old ≤ 2 ^ 40 }
    ensures { counted counter.new ≤ counted counter.old + 65535 }
{
    let (samples, size) = word.split_once('=').unwrap_or(("", ""));
    let samples = samples_of(call, samples);
    let size = call.read_wide(size);
    let stream = stream_at(call);
    match block(stream.rate, stream.bits, stream.channels, samples) {
        Some(frame) => add(call, counter, &frame, size),
        None => call.misread(),
    }
}

fn add(call: &mut Call, counter: &mut Counter, frame: &AFrame, size: u32)
    requires sound { IsAudio frame.now.bits frame.now.channels frame.now.samples }
    requires few { counted counter.old ≤ 2 ^ 40 }
    ensures { counted counter.new ≤ counted counter.old + 65535 }
{
    call.note(counter.add(frame, size));
}

fn tell_totals(told: &mut Told, totals: &Totals) {
    let (least, greatest) = (u64::from(totals.min_frame), u64::from(totals.max_frame));
    told.counts(" ", &[least, greatest, totals.samples]);
    told.text(" ");
    told.hex(totals.md5.as_slice());
}

/// `flac_totals RATE BITS CHANNELS FRAME..`: the least and the greatest size of frames, the number of sample frames and the
/// digest of all samples. A frame is `SAMPLES=SIZE`: what it holds, and in how many bytes it was coded.
pub fn totals(call: &mut Call, told: &mut Told) {
    let mut counter = Counter::new(call.alloc);
    for i in 3..call.len().min(100) {
        let word = call.text(i);
        count(call, word, &mut counter);
    }
    tell_totals(told, &counter.totals());
}

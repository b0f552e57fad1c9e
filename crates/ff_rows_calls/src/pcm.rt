//! Calls that decode and encode linear PCM.
ghost use Rattle.std.specs.Prelude.{◌≡◌, ◌≤◌, IfSome};
ghost use Rattle.ff_frame.specs.Audio.{IsAudio};
ghost use Rattle.ff_frame.specs.Codecs.{IsPcmCodec};
ghost use Rattle.ff_pcm.specs.Frames.{IsPcmHead};

use crate::heads::codec_named;
use crate::table::Stop;
use crate::told::Told;
use crate::words::Call;
use ff_frame::{AFrame, Bytes, Codec, Coding, Pkt, Samples, StreamHead};
use ff_pcm::{depth_change, depth_of, has_blocks, is_audio, pcm_decode, pcm_encode};
use ff_time::Rational;

// The codec of linear PCM of this name.
fn codec_of(name: &str) -> Option<Codec>
    ensures { IfSome result IsPcmCodec }
{
    let codec = codec_named(name)?;
    match codec.coding() {
        Coding::Pcm(_) => Some(codec),
        Coding::Flac | Coding::RawVideo => None,
    }
}

/// Tells samples as numbers, a blank before each.
pub fn tell_samples(told: &mut Told, samples: &[i32]) {
    for sample in samples {
        told.text(" ");
        told.number(i64::from(*sample));
    }
}

fn tell_frame(told: &mut Told, frame: &AFrame) {
    told.number(frame.pts);
    tell_samples(told, frame.samples.as_slice());
}

// The head of one channel of the codec of this name, at 8,000 sample frames a second.
fn head_of(name: &str) -> Option<StreamHead>
    ensures { IfSome result IsPcmHead }
{
    let codec = codec_of(name)?;
    let tb = Rational::new(1, 8000).ok()?;
    Some(StreamHead::Audio {
        tb,
        rate: 8000,
        bits: depth_of(codec),
        channels: 1,
        codec,
    })
}

/// `pcm_samples CODEC TIME BYTES`: when a packet of one channel starts, and its samples.
pub fn samples(call: &mut Call, told: &mut Told) {
    let pts = call.signed(1);
    let packet = Pkt {
        pts,
        dts: pts,
        duration: 1,
        pos: 0,
        bytes: Bytes::new(call.bytes(2)),
    };
    let Some(head) = head_of(call.text(0)) else {
        return call.misread();
    };
    if !has_blocks(&head, &packet) {
        return told.text("out of range");
    }
    match pcm_decode(call.alloc, &head, &packet) {
        Ok(frame) => tell_frame(told, &frame),
        Err(_) => told.fail(Stop::Broken),
    }
}

// One channel of the samples from this place on, where each has so many bits.
fn frame_at(call: &mut Call, bits: u8, from: usize) -> Option<AFrame>
    ensures { IfSome result (λ f. (f.bits ≡ bits) × IsAudio f.bits f.channels f.samples) }
{
    let frame = AFrame {
        pts: 0,
        rate: 8000,
        bits,
        channels: 1,
        samples: Samples::new(call.samples(from)),
    };
    if is_audio(&frame) { Some(frame) } else { None }
}

/// `pcm_bytes CODEC SAMPLE..`: the bytes of one channel of samples.
pub fn bytes(call: &mut Call, told: &mut Told) {
    let Some(codec) = codec_of(call.text(0)) else {
        return call.misread();
    };
    match frame_at(call, depth_of(codec), 1) {
        Some(frame) => told.made_hex(pcm_encode(call.alloc, codec, &frame)),
        None => told.text("out of range"),
    }
}

// A number of bits.
fn bits_at(call: &mut Call, at: usize) -> Option<u8>
    ensures { IfSome result (λ bits. (4 ≤ bits) × (bits ≤ 32)) }
{
    let bits = call.up_to(at, 32);
    if bits < 4 {
        call.misread();
        return None;
    }
    Some(bits as u8)
}

/// `depth_change BITS OTHER SAMPLE..`: samples of so many bits at another depth.
pub fn depths(call: &mut Call, told: &mut Told) {
    let (Some(bits), Some(other)) = (bits_at(call, 0), bits_at(call, 1)) else {
        return;
    };
    match frame_at(call, bits, 2) {
        Some(frame) => {
            let mut frame = frame;
            depth_change(&mut frame, other);
            tell_frame(told, &frame);
        }
        None => told.text("out of range"),
    }
}

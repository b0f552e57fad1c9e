//! The decoder of linear PCM.
ghost use Rattle.std.specs.Prelude.{◌≡◌, ◌*◌, ◌<◌, ℕ, All, length, IfOk, pos, slice_index_or};
ghost use Rattle.ff_frame.specs.Audio.{FitsBits};
ghost use Rattle.ff_frame.specs.Heads.{IsFrameOf, IsSoundHead};
ghost use Rattle.ff_frame.specs.Codecs.{IsPcmCodec, coding_of, depth_bytes, sample_bytes};
ghost use Rattle.ff_frame.specs.declared.coding.Coding.TheVariants.{Pcm};
ghost use Rattle.ff_pcm.specs.Frames.{rate_of, channels_of, bits_of, codec_of, IsPcmHead, HasBlocks, frame_of};
ghost use Rattle.ff_pcm.specs.Samples.{depth, sample_at, sample_in, StandFor};

use crate::endian::{Big, Endian, Little};
use crate::sample::{
    Sample, Signed8, Signed16, Signed24, Signed32, Unsigned8, Unsigned16, Unsigned24, Unsigned32,
};
use ff_frame::{AFrame, ByteOrder, Codec, Coding, PcmDepth, PcmForm, Pkt, Samples, StreamHead};
use std::alloc::{AllocError, Global};

fn decode_all<S: Sample, E: Endian>(bytes: &[u8], samples: &mut [i32])
    requires { length bytes.now ≡ depth_bytes S.bits * length samples.old }
    ensures { (k : ℕ) → k < length samples.new → slice_index_or samples.new k (pos 0) ≡ sample_in S.bits S.sign E.order bytes.now k }
{
    for i in 0..samples.len() {
        samples[i] = S::read::<E>(bytes, i);
    }
}

fn decode_in<E: Endian>(depth: PcmDepth, signed: bool, bytes: &[u8], samples: &mut [i32])
    requires { length bytes.now ≡ depth_bytes depth * length samples.old }
    ensures { (k : ℕ) → k < length samples.new → slice_index_or samples.new k (pos 0) ≡ sample_in depth signed E.order bytes.now k }
{
    match (depth, signed) {
        (PcmDepth::Bits8, true) => decode_all::<Signed8, E>(bytes, samples),
        (PcmDepth::Bits8, false) => decode_all::<Unsigned8, E>(bytes, samples),
        (PcmDepth::Bits16, true) => decode_all::<Signed16, E>(bytes, samples),
        (PcmDepth::Bits16, false) => decode_all::<Unsigned16, E>(bytes, samples),
        (PcmDepth::Bits24, true) => decode_all::<Signed24, E>(bytes, samples),
        (PcmDepth::Bits24, false) => decode_all::<Unsigned24, E>(bytes, samples),
        (PcmDepth::Bits32, true) => decode_all::<Signed32, E>(bytes, samples),
        (PcmDepth::Bits32, false) => decode_all::<Unsigned32, E>(bytes, samples),
    }
}

fn decode_into(codec: Codec, bytes: &[u8], samples: &mut [i32])
    requires pcm { IsPcmCodec codec }
    requires size { length bytes.now ≡ sample_bytes codec * length samples.old }
    ensures { (k : ℕ) → k < length samples.new → slice_index_or samples.new k (pos 0) ≡ sample_at codec bytes.now k }
{
    let form = form_of(codec);
    match form.order {
        ByteOrder::LittleEndian => decode_in::<Little>(form.depth, form.signed, bytes, samples),
        ByteOrder::BigEndian => decode_in::<Big>(form.depth, form.signed, bytes, samples),
    }
}

// So many samples of silence.
fn silence(alloc: Global, count: usize) -> Result<Vec<i32>, AllocError>
    ensures { IfOk result (λ samples. length samples.items ≡ count) }
{
    vec![in alloc; 0; count]
}

/// How a PCM codec writes a sample.
pub(crate) fn form_of(codec: Codec) -> PcmForm
    requires { IsPcmCodec codec }
    ensures { coding_of codec ≡ Pcm result }
{
    match codec.coding() {
        Coding::Pcm(form) => form,
        Coding::Flac | Coding::RawVideo => unreachable!(),
    }
}

/// The bytes of one sample.
pub fn size_of_sample(codec: Codec) -> usize
    requires { IsPcmCodec codec }
    ensures { result ≡ sample_bytes codec }
{
    form_of(codec).depth.bytes()
}

/// The bits of a PCM codec's samples.
pub fn depth_of(codec: Codec) -> u8
    requires { IsPcmCodec codec }
    ensures { result ≡ depth codec }
{
    form_of(codec).depth.bits()
}

fn decoded(alloc: Global, codec: Codec, bytes: &[u8], count: usize) -> Result<Samples, AllocError>
    requires pcm { IsPcmCodec codec }
    requires size { length bytes.now ≡ sample_bytes codec * count }
    ensures stand { IfOk result (λ samples. StandFor codec bytes.now samples) }
    ensures fit { IfOk result (λ samples. All (FitsBits (depth codec)) samples) }
{
    let mut samples = silence(alloc, count)?;
    decode_into(codec, bytes, &mut samples);
    Ok(Samples::new(samples))
}

/// The rate, bits, channels and codec of an audio head.
pub(crate) fn audio_of(head: &StreamHead) -> (u32, u8, u8, Codec)
    requires { IsSoundHead head.now }
    ensures rate { result.0 ≡ rate_of head.now }
    ensures bits { result.1 ≡ bits_of head.now }
    ensures channels { result.2 ≡ channels_of head.now }
    ensures codec { result.3 ≡ codec_of head.now }
{
    match *head {
        StreamHead::Audio {
            rate,
            bits,
            channels,
            codec,
            ..
        } => (rate, bits, channels, codec),
        StreamHead::Video { .. } => unreachable!(),
    }
}

/// The frame that a packet's bytes stand for, with the packet's pts (RIFF WAVE, the data of PCM formats).
/// The packet has 1 to 65,535 whole blocks; the head is audio of a PCM codec, with the codec's own depth.
pub fn pcm_decode(alloc: Global, head: &StreamHead, packet: &Pkt) -> Result<AFrame, AllocError>
    requires head { IsPcmHead head.now }
    requires blocks { HasBlocks head.now packet.now.bytes }
    ensures value { IfOk result (λ frame. frame ≡ frame_of head.now packet.now) }
    ensures stand { IfOk result (λ frame. StandFor (codec_of head.now) packet.now.bytes frame.samples) }
    ensures sound { IfOk result (IsFrameOf (rate_of head.now) (bits_of head.now) (channels_of head.now)) }
{
    let (rate, bits, channels, codec) = audio_of(head);
    let bytes = packet.bytes.as_slice();
    let count = bytes.len() / size_of_sample(codec);
    let samples = decoded(alloc, codec, bytes, count)?;
    Ok(AFrame::make(packet.pts, rate, bits, channels, samples))
}

//! The encoder of linear PCM.
ghost use Rattle.std.specs.Prelude.{◌≡◌, ◌*◌, ◌<◌, ℕ, All, length, IfOk, pos, slice_index_or};
ghost use Rattle.ff_frame.specs.Audio.{FitsBits, IsAudio};
ghost use Rattle.ff_frame.specs.Codecs.{IsPcmCodec, depth_bytes, sample_bytes};
ghost use Rattle.ff_pcm.specs.Bytes.{bytes_of};
ghost use Rattle.ff_pcm.specs.Samples.{depth, sample_at, sample_in, StandFor};

use crate::decode::{form_of, size_of_sample};
use crate::endian::{Big, Endian, Little};
use crate::sample::{
    Sample, Signed8, Signed16, Signed24, Signed32, Unsigned8, Unsigned16, Unsigned24, Unsigned32,
};
use ff_bits::know_bytes;
use ff_frame::{AFrame, ByteOrder, Codec, PcmDepth};
use std::alloc::{AllocError, Global};

fn encode_all<S: Sample, E: Endian>(samples: &[i32], bytes: &mut [u8])
    requires size { length bytes.old ≡ depth_bytes S.bits * length samples.now }
    requires fits { All (FitsBits (8 * depth_bytes S.bits)) samples.now }
    ensures { (k : ℕ) → k < length samples.now → slice_index_or samples.now k (pos 0) ≡ sample_in S.bits S.sign E.order bytes.new k }
{
    for i in 0..samples.len() {
        S::write::<E>(bytes, i, samples[i]);
    }
}

fn encode_in<E: Endian>(depth: PcmDepth, signed: bool, samples: &[i32], bytes: &mut [u8])
    requires size { length bytes.old ≡ depth_bytes depth * length samples.now }
    requires fits { All (FitsBits (8 * depth_bytes depth)) samples.now }
    ensures { (k : ℕ) → k < length samples.now → slice_index_or samples.now k (pos 0) ≡ sample_in depth signed E.order bytes.new k }
{
    match (depth, signed) {
        (PcmDepth::Bits8, true) => encode_all::<Signed8, E>(samples, bytes),
        (PcmDepth::Bits8, false) => encode_all::<Unsigned8, E>(samples, bytes),
        (PcmDepth::Bits16, true) => encode_all::<Signed16, E>(samples, bytes),
        (PcmDepth::Bits16, false) => encode_all::<Unsigned16, E>(samples, bytes),
        (PcmDepth::Bits24, true) => encode_all::<Signed24, E>(samples, bytes),
        (PcmDepth::Bits24, false) => encode_all::<Unsigned24, E>(samples, bytes),
        (PcmDepth::Bits32, true) => encode_all::<Signed32, E>(samples, bytes),
        (PcmDepth::Bits32, false) => encode_all::<Unsigned32, E>(samples, bytes),
    }
}

fn encode_into(codec: Codec, samples: &[i32], bytes: &mut [u8])
    requires pcm { IsPcmCodec codec }
    requires size { length bytes.old ≡ sample_bytes codec * length samples.now }
    requires fits { All (FitsBits (depth codec)) samples.now }
    ensures { (k : ℕ) → k < length samples.now → slice_index_or samples.now k (pos 0) ≡ sample_at codec bytes.new k }
{
    let form = form_of(codec);
    match form.order {
        ByteOrder::LittleEndian => encode_in::<Little>(form.depth, form.signed, samples, bytes),
        ByteOrder::BigEndian => encode_in::<Big>(form.depth, form.signed, samples, bytes),
    }
}

// So many bytes 0.
fn zeros(alloc: Global, count: usize) -> Result<Vec<u8>, AllocError>
    ensures { IfOk result (λ bytes. length bytes.items ≡ count) }
{
    vec![in alloc; 0; count]
}

/// A place for the bytes of a frame's samples, at any depth, as a PCM codec writes them.
pub fn room_for(alloc: Global, codec: Codec, frame: &AFrame) -> Result<Vec<u8>, AllocError>
    requires pcm { IsPcmCodec codec }
    requires frame { IsAudio frame.now.bits frame.now.channels frame.now.samples }
    ensures { IfOk result (λ bytes. length bytes.items ≡ sample_bytes codec * length frame.now.samples) }
{
    zeros(
        alloc,
        size_of_sample(codec) * frame.samples.as_slice().len(),
    )
}

/// Writes the bytes that stand for a frame's samples (RIFF WAVE, the data of PCM formats) into a place of their size.
/// The codec is PCM of the frame's depth.
pub fn pcm_encode_into(codec: Codec, frame: &AFrame, bytes: &mut [u8])
    requires pcm { IsPcmCodec codec }
    requires frame { IsAudio frame.now.bits frame.now.channels frame.now.samples }
    requires depth { frame.now.bits ≡ depth codec }
    requires size { length bytes.old ≡ sample_bytes codec * length frame.now.samples }
    ensures stand { StandFor codec bytes.new frame.now.samples }
    ensures value { bytes.new ≡ bytes_of codec frame.now.samples }
{
    encode_into(codec, frame.samples.as_slice(), bytes);
    know_bytes(bytes);
}

/// The bytes that stand for a frame's samples (RIFF WAVE, the data of PCM formats). The codec is PCM of the frame's depth.
pub fn pcm_encode(alloc: Global, codec: Codec, frame: &AFrame) -> Result<Vec<u8>, AllocError>
    requires pcm { IsPcmCodec codec }
    requires frame { IsAudio frame.now.bits frame.now.channels frame.now.samples }
    requires depth { frame.now.bits ≡ depth codec }
    ensures stand { IfOk result (λ bytes. StandFor codec bytes.items frame.now.samples) }
    ensures value { IfOk result (λ bytes. bytes.items ≡ bytes_of codec frame.now.samples) }
{
    let mut bytes = room_for(alloc, codec, frame)?;
    pcm_encode_into(codec, frame, &mut bytes);
    Ok(bytes)
}

//! The checks whether a packet can be decoded, and a frame encoded.
ghost use Rattle.std.specs.Prelude.{◌≡◌, ◌↔◌, ◌≤◌, ◌<◌, ◌*◌, ℕ, All, length, IsTrue};
ghost use Rattle.ff_frame.specs.Audio.{FitsBits, IsAudio};
ghost use Rattle.ff_pcm.specs.Frames.{AreBlocks, IsPcmHead, HasBlocks};

use crate::decode::{audio_of, size_of_sample};
use crate::depth::lowered;
use ff_frame::{AFrame, Pkt, StreamHead};

fn are_blocks(count: usize, block: usize) -> bool
    requires { 0 < block }
    ensures { IsTrue result ↔ AreBlocks block count }
{
    if count % block != 0 {
        return false;
    }
    let blocks = count / block;
    if blocks == 0 {
        return false;
    }
    if blocks > 65535 {
        return false;
    }
    true
}

/// Whether a packet has 1 to 65,535 whole blocks of one sample for each channel, and so can be decoded.
pub fn has_blocks(head: &StreamHead, packet: &Pkt) -> bool
    requires { IsPcmHead head.now }
    ensures { IsTrue result ↔ HasBlocks head.now packet.now.bytes }
{
    let (_, _, channels, codec) = audio_of(head);
    let count = packet.bytes.as_slice().len();
    are_blocks(count, usize::from(channels) * size_of_sample(codec))
}

// Whether a sample is one of so many bits: after them all are as the sign.
fn fits_bits(sample: i32, bits: u8) -> bool
    requires some { 4 ≤ bits }
    requires few { bits ≤ 32 }
    ensures { IsTrue result ↔ FitsBits bits sample }
{
    let rest = lowered(sample, bits - 1);
    if rest == 0 {
        return true;
    }
    if rest == -1 {
        return true;
    }
    false
}

fn all_fit_bits(samples: &[i32], bits: u8) -> bool
    requires some { 4 ≤ bits }
    requires few { bits ≤ 32 }
    ensures { IsTrue result ↔ All (FitsBits bits) samples.now }
{
    // No sample ends the loop early, so that several are looked at in one step.
    let mut fits = true;
    for sample in samples {
        fits = fits & fits_bits(*sample, bits);
    }
    fits
}

/// Whether the fields of a frame agree, so that its depth can be changed and it can be encoded.
pub fn is_audio(frame: &AFrame) -> bool
    ensures { IsTrue result ↔ IsAudio frame.now.bits frame.now.channels frame.now.samples }
{
    if frame.bits < 4 {
        return false;
    }
    if frame.bits > 32 {
        return false;
    }
    if frame.channels == 0 {
        return false;
    }
    if frame.channels > 8 {
        return false;
    }
    let samples = frame.samples.as_slice();
    if !are_blocks(samples.len(), usize::from(frame.channels)) {
        return false;
    }
    all_fit_bits(samples, frame.bits)
}

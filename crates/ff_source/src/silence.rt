//! Silence.
ghost use Rattle.std.specs.Prelude.{◌≡◌, ◌*◌, ◌<◌, ◌≤◌, ◌^◌, IfOk, replicate, pos};
ghost use Rattle.std.specs.Int.{div_ceil};
ghost use Rattle.ff_source.specs.Silences.{channels_named, silence_frame, silence_head};

use ff_frame::{AFrame, Codec, Samples, StreamHead};
use ff_stream::Item;
use ff_time::Rational;
use std::alloc::{AllocError, Global};

/// The sample frames of a frame; the last one may have fewer.
const MOST: u64 = 1024;

/// The channels of a layout of this name.
pub(crate) fn read_channels(name: &str) -> Option<u8>
    ensures { result ≡ channels_named name.now }
{
    if name == "mono" {
        Some(1)
    } else if name == "stereo" {
        Some(2)
    } else {
        None
    }
}

/// Silence of 16 bits.
#[derive(Clone, Copy, Debug)]
pub struct Silence {
    /// The time base, which is one over the sample frames a second.
    pub base: Rational,
    /// Its channels.
    pub channels: u8,
    /// How many sample frames it has.
    pub count: u64,
}

// So many samples of silence.
fn zeros(alloc: Global, count: usize) -> Result<Vec<i32>, AllocError>
    ensures { IfOk result (λ samples. samples.items ≡ replicate count (pos 0)) }
{
    vec![in alloc; 0; count]
}

impl Silence {
    /// The head of its stream.
    pub(crate) fn head(&self) -> StreamHead
        ensures { result ≡ silence_head self.now.base self.now.channels }
    {
        StreamHead::Audio {
            tb: self.base,
            rate: self.base.den() as u32,
            bits: 16,
            channels: self.channels,
            codec: Codec::PcmS16le,
        }
    }

    /// How many frames it has.
    pub(crate) fn frames(&self) -> u64
        ensures { result ≡ div_ceil self.now.count 1024 }
    {
        self.count.div_ceil(MOST)
    }

    /// The frame of this number.
    pub(crate) fn frame(&self, alloc: Global, number: u64) -> Result<Item, AllocError>
        requires some { 1 ≤ self.now.channels }
        requires few { self.now.channels ≤ 2 }
        requires near { self.now.count < 2 ^ 63 }
        requires there { number * 1024 < self.now.count }
        ensures { IfOk result (λ item. item ≡ silence_frame self.now.base.den self.now.channels self.now.count number) }
    {
        let start = number * MOST;
        let length = (self.count - start).min(MOST) as usize;
        let samples = zeros(alloc, length * self.channels as usize)?;
        let frame = AFrame::make(
            start as i64,
            self.base.den() as u32,
            16,
            self.channels,
            Samples::new(samples),
        );
        Ok(Item::Audio(frame))
    }
}

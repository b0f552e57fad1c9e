//! Audio frames.
ghost use Rattle.std.specs.Prelude.{◌≡◌, ◌≤◌, ◌+◌, ◌*◌, ◌+ℤ◌, pos, length, FitsSigned, IfOk};
ghost use Rattle.std.specs.Int.{w64};
ghost use Rattle.ff_frame.specs.Audio.{IsAudio, kept_samples};

use crate::lists::Samples;
use std::alloc::{AllocError, Global};

/// A decoded audio frame: sample frames one after another, each of one signed sample per channel.
#[derive(Debug, Drop)]
pub struct AFrame {
    /// When it starts, in ticks of its stream's time base.
    pub pts: i64,
    /// Sample frames a second.
    pub rate: u32,
    /// Bits of a sample, 4 to 32.
    pub bits: u8,
    /// Channels, 1 to 8.
    pub channels: u8,
    /// The samples, interleaved by channel.
    pub samples: Samples,
}

impl AFrame {
    ghost use Rattle.ff_frame.specs.Frame.{audio_frame};

    /// The frame of these fields, which agree: 1 to 65,535 sample frames, and each sample within the bits.
    pub fn make(pts: i64, rate: u32, bits: u8, channels: u8, samples: Samples) -> AFrame
        requires { IsAudio bits channels samples }
        ensures { result ≡ audio_frame pts rate bits channels samples }
    {
        AFrame {
            pts,
            rate,
            bits,
            channels,
            samples,
        }
    }

    /// Keeps `count` sample frames from number `first` on, at least one, of those that there are. The frame then starts that
    /// many ticks later.
    pub fn keep(&mut self, first: usize, count: usize)
        requires agrees { IsAudio self.old.bits self.old.channels self.old.samples }
        requires some { 1 ≤ count }
        requires there { (first + count) * self.old.channels ≤ length self.old.samples }
        requires in_time { FitsSigned w64 (self.old.pts +ℤ pos first) }
        ensures kept { self.new ≡ audio_frame (self.old.pts +ℤ pos first) self.old.rate self.old.bits self.old.channels (kept_samples self.old.channels first count self.old.samples) }
        ensures agrees { IsAudio self.new.bits self.new.channels self.new.samples }
    {
        let channels = self.channels as usize;
        self.samples.keep(first * channels, count * channels);
        self.pts += first as i64;
    }

    /// An equal frame.
    pub fn try_copy(&self, alloc: Global) -> Result<AFrame, AllocError>
        ensures { IfOk result (λ copy. copy ≡ self.now) }
    {
        let samples = self.samples.try_copy(alloc)?;
        Ok(AFrame {
            pts: self.pts,
            rate: self.rate,
            bits: self.bits,
            channels: self.channels,
            samples,
        })
    }
}

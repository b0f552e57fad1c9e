//! The rate, depth and channels that all frames of a stream share.
ghost use Rattle.std.specs.Prelude.{◌≡◌};

use ff_frame::AFrame;

/// What all frames of a stream have in common.
#[derive(Clone, Copy, Debug, PartialEq, Eq)]
pub struct Format {
    /// Sample frames a second.
    pub rate: u32,
    /// The bits of a sample.
    pub bits: u8,
    /// The number of channels.
    pub channels: u8,
}

impl Format {
    ghost use Rattle.ff_flac_enc.specs.Gathered.{format_of};

    /// That of a frame.
    pub fn of(frame: &AFrame) -> Format
        ensures { result ≡ format_of frame.now }
    {
        Format {
            rate: frame.rate,
            bits: frame.bits,
            channels: frame.channels,
        }
    }
}

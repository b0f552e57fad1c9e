//! Codecs, and the heads of streams.
ghost use Rattle.std.specs.Prelude.{◌≡◌};
ghost use Rattle.ff_frame.specs.Codecs.{pcm_coding};

use crate::coding::{ByteOrder, Coding, PcmDepth, PcmForm};
use crate::video::Format;
use ff_time::Rational;

/// How the samples or the video frames of a stream are coded.
#[derive(Clone, Copy, Debug, PartialEq, Eq)]
pub enum Codec {
    /// Linear PCM of 8 bits: unsigned bytes with the middle 128 (RIFF WAVE).
    PcmU8,
    /// Linear PCM of 16 bits: signed, the lowest byte first (RIFF WAVE).
    PcmS16le,
    /// Linear PCM of 24 bits: signed, the lowest byte first (RIFF WAVE).
    PcmS24le,
    /// Linear PCM of 32 bits: signed, the lowest byte first (RIFF WAVE).
    PcmS32le,
    /// Linear PCM of 8 bits: signed bytes (AU's encoding 2).
    PcmS8,
    /// Linear PCM of 16 bits: signed, the highest byte first (AU's encoding 3).
    PcmS16be,
    /// Linear PCM of 24 bits: signed, the highest byte first (AU's encoding 4).
    PcmS24be,
    /// Linear PCM of 32 bits: signed, the highest byte first (AU's encoding 5).
    PcmS32be,
    /// The Free Lossless Audio Codec (RFC 9639).
    Flac,
    /// Video frames as their planes, one after the other.
    RawVideo,
}

fn pcm(depth: PcmDepth, signed: bool, order: ByteOrder) -> Coding
    ensures { result ≡ pcm_coding depth signed order }
{
    Coding::Pcm(PcmForm {
        depth,
        signed,
        order,
    })
}

impl Codec {
    ghost use Rattle.std.specs.Prelude.{◌≡◌};
    ghost use Rattle.ff_frame.specs.Codecs.{codec_name, coding_of};

    // The row of a codec: its name, and how it codes.
    fn row(self) -> (&'static str, Coding)
        ensures name { result.0.now ≡ codec_name self }
        ensures coding { result.1 ≡ coding_of self }
    {
        use ByteOrder::{BigEndian, LittleEndian};
        use PcmDepth::{Bits8, Bits16, Bits24, Bits32};
        match self {
            Codec::PcmU8 => ("pcm_u8", pcm(Bits8, false, LittleEndian)),
            Codec::PcmS16le => ("pcm_s16le", pcm(Bits16, true, LittleEndian)),
            Codec::PcmS24le => ("pcm_s24le", pcm(Bits24, true, LittleEndian)),
            Codec::PcmS32le => ("pcm_s32le", pcm(Bits32, true, LittleEndian)),
            Codec::PcmS8 => ("pcm_s8", pcm(Bits8, true, BigEndian)),
            Codec::PcmS16be => ("pcm_s16be", pcm(Bits16, true, BigEndian)),
            Codec::PcmS24be => ("pcm_s24be", pcm(Bits24, true, BigEndian)),
            Codec::PcmS32be => ("pcm_s32be", pcm(Bits32, true, BigEndian)),
            Codec::Flac => ("flac", Coding::Flac),
            Codec::RawVideo => ("rawvideo", Coding::RawVideo),
        }
    }

    /// Its name, as command lines and listings have it.
    pub fn name(self) -> &'static str
        ensures { result.now ≡ codec_name self }
    {
        self.row().0
    }

    /// How it codes what it is given.
    pub fn coding(self) -> Coding
        ensures { result ≡ coding_of self }
    {
        self.row().1
    }
}

/// What is known of a stream before its first packet.
#[derive(Clone, Copy, Debug, PartialEq, Eq)]
pub enum StreamHead {
    /// Audio: ticks of `tb` seconds, `rate` sample frames a second, signed samples of `bits` bits for each of `channels`.
    Audio {
        tb: Rational,
        rate: u32,
        bits: u8,
        channels: u8,
        codec: Codec,
    },
    /// Video: ticks of `tb` seconds, `width` columns and `height` rows of `format`. The width of a sample stands to its
    /// height as `sar_num` to `sar_den`; where one of them is 0 that isn't known.
    Video {
        tb: Rational,
        format: Format,
        width: u32,
        height: u32,
        sar_num: u32,
        sar_den: u32,
    },
}

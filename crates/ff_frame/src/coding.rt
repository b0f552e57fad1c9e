//! The ways in which codecs code samples.

/// In which order the bytes of a sample stand.
#[derive(Clone, Copy, Debug, PartialEq, Eq)]
pub enum ByteOrder {
    /// The lowest byte first.
    LittleEndian,
    /// The highest byte first.
    BigEndian,
}

/// The bits of a sample of linear PCM, whole bytes.
#[derive(Clone, Copy, Debug, PartialEq, Eq)]
pub enum PcmDepth {
    /// One byte.
    Bits8,
    /// Two bytes.
    Bits16,
    /// Three bytes.
    Bits24,
    /// Four bytes.
    Bits32,
}

impl PcmDepth {
    ghost use Rattle.std.specs.Prelude.{◌≡◌, ◌*◌};
    ghost use Rattle.ff_frame.specs.Codecs.{depth_bytes};

    /// The bytes of a sample.
    pub fn bytes(self) -> usize
        ensures { result ≡ depth_bytes self }
    {
        match self {
            PcmDepth::Bits8 => 1,
            PcmDepth::Bits16 => 2,
            PcmDepth::Bits24 => 3,
            PcmDepth::Bits32 => 4,
        }
    }

    /// The bits of a sample.
    pub fn bits(self) -> u8
        ensures { result ≡ 8 * depth_bytes self }
    {
        match self {
            PcmDepth::Bits8 => 8,
            PcmDepth::Bits16 => 16,
            PcmDepth::Bits24 => 24,
            PcmDepth::Bits32 => 32,
        }
    }
}

/// How linear PCM writes a sample.
#[derive(Clone, Copy, Debug, PartialEq, Eq)]
pub struct PcmForm {
    /// The bits of a sample.
    pub depth: PcmDepth,
    /// Whether a sample is signed, in two's complement. Else the middle of its range stands for 0.
    pub signed: bool,
    /// The order of its bytes.
    pub order: ByteOrder,
}

/// How a codec codes what it is given.
#[derive(Clone, Copy, Debug, PartialEq, Eq)]
pub enum Coding {
    /// Linear PCM: each sample by itself, in this form.
    Pcm(PcmForm),
    /// The Free Lossless Audio Codec (RFC 9639).
    Flac,
    /// Video frames as their planes, one after the other.
    RawVideo,
}

//! The formats, a row each.
ghost use Rattle.std.specs.Prelude.{◌≡◌, ◌≤◌};
ghost use Rattle.ff_format.specs.Formats.{same_order, same_form, signed_so, samples_alone as samples_alone_of};

use ff_frame::{ByteOrder, Codec, Coding, HashKind, PcmDepth, PcmForm};

/// A format of files.
#[derive(Clone, Copy, Debug, PartialEq, Eq)]
pub enum FileFormat {
    /// WAV (RIFF WAVE).
    Wav,
    /// AU (the audio file format of NeXT and Sun).
    Au,
    /// FLAC (RFC 9639).
    Flac,
    /// YUV4MPEG2.
    Y4m,
    /// AVI (AVI RIFF File Reference), for inputs alone.
    Avi,
    /// Samples of one unsigned byte and nothing else, for outputs alone, as the seven that follow.
    U8,
    /// Samples of one signed byte.
    S8,
    /// Signed samples of two bytes, the lowest first.
    S16le,
    /// Signed samples of two bytes, the highest first.
    S16be,
    /// Signed samples of three bytes, the lowest first.
    S24le,
    /// Signed samples of three bytes, the highest first.
    S24be,
    /// Signed samples of four bytes, the lowest first.
    S32le,
    /// Signed samples of four bytes, the highest first.
    S32be,
    /// Pictures and nothing else, for outputs alone.
    RawVideo,
    /// Digests of packets, for outputs alone.
    FrameHash,
    /// The same, by MD5 where no digest is asked for.
    FrameMd5,
    /// Adler-32 sums of packets, for outputs alone.
    FrameCrc,
    /// One digest of the bytes of all packets, for outputs alone.
    Hash,
    /// The same, by MD5 where no digest is asked for.
    Md5,
    /// A digest of the bytes of each stream's packets, for outputs alone.
    StreamHash,
    /// One Adler-32 sum of the bytes of all packets, for outputs alone.
    Crc,
    /// Nothing: packets that are made and go nowhere, for outputs alone. It has no file.
    Null,
}

/// The values of `-f`, each with how the names of such files end (empty where no ending tells). Beside them stands
/// whether an input and an output may have it.
pub static FORMATS: [(&'static str, &'static str, FileFormat, bool, bool); 22] = [
    ("wav", ".wav", FileFormat::Wav, true, true),
    ("au", ".au", FileFormat::Au, true, true),
    ("flac", ".flac", FileFormat::Flac, true, true),
    ("yuv4mpegpipe", ".y4m", FileFormat::Y4m, true, true),
    ("avi", "", FileFormat::Avi, true, false),
    ("u8", "", FileFormat::U8, false, true),
    ("s8", "", FileFormat::S8, false, true),
    ("s16le", "", FileFormat::S16le, false, true),
    ("s16be", "", FileFormat::S16be, false, true),
    ("s24le", "", FileFormat::S24le, false, true),
    ("s24be", "", FileFormat::S24be, false, true),
    ("s32le", "", FileFormat::S32le, false, true),
    ("s32be", "", FileFormat::S32be, false, true),
    ("rawvideo", "", FileFormat::RawVideo, false, true),
    ("framehash", "", FileFormat::FrameHash, false, true),
    ("framemd5", "", FileFormat::FrameMd5, false, true),
    ("framecrc", "", FileFormat::FrameCrc, false, true),
    ("hash", "", FileFormat::Hash, false, true),
    ("md5", "", FileFormat::Md5, false, true),
    ("streamhash", "", FileFormat::StreamHash, false, true),
    ("crc", "", FileFormat::Crc, false, true),
    ("null", "", FileFormat::Null, false, true),
];

/// Which audio an output takes, by how it is coded.
#[derive(Clone, Copy, Debug, PartialEq, Eq)]
pub enum SoundTaken {
    /// None.
    Nothing,
    /// Linear PCM in any form.
    Pcm,
    /// Linear PCM in this order of bytes: samples of one byte signed or not, longer ones signed.
    PcmIn {
        order: ByteOrder,
        signed_bytes: bool,
    },
    /// Linear PCM of this form alone.
    PcmOf(PcmForm),
    /// FLAC, of a rate of at most 1,048,575.
    Flac,
}

impl SoundTaken {
    ghost use Rattle.ff_format.specs.Formats.{is_some_sound, takes_sound};

    /// Whether it is any audio at all.
    pub fn is_some(self) -> bool
        ensures { result ≡ is_some_sound self }
    {
        match self {
            SoundTaken::Nothing => false,
            SoundTaken::Pcm | SoundTaken::PcmIn { .. } | SoundTaken::PcmOf(_) | SoundTaken::Flac =>
                true,
        }
    }

    /// Whether audio of this codec and rate is among it.
    pub fn takes(self, codec: Codec, rate: u32) -> bool
        ensures { result ≡ takes_sound self codec rate }
    {
        match (self, codec.coding()) {
            (SoundTaken::Pcm, Coding::Pcm(_)) => true,
            (
                SoundTaken::PcmIn {
                    order,
                    signed_bytes,
                },
                Coding::Pcm(form),
            ) => is_order(order, form.order) && is_signed_so(form, signed_bytes),
            (SoundTaken::PcmOf(own), Coding::Pcm(form)) => is_form(own, form),
            (SoundTaken::Flac, Coding::Flac) => rate <= 1_048_575,
            _ => false,
        }
    }
}

// Whether two orders of bytes are one.
fn is_order(a: ByteOrder, b: ByteOrder) -> bool
    ensures { result ≡ same_order a b }
{
    match (a, b) {
        (ByteOrder::LittleEndian, ByteOrder::LittleEndian) => true,
        (ByteOrder::BigEndian, ByteOrder::BigEndian) => true,
        (ByteOrder::LittleEndian, ByteOrder::BigEndian) => false,
        (ByteOrder::BigEndian, ByteOrder::LittleEndian) => false,
    }
}

// Whether two forms are one.
fn is_form(a: PcmForm, b: PcmForm) -> bool
    ensures { result ≡ same_form a b }
{
    is_order(a.order, b.order) && a.depth.bytes() == b.depth.bytes() && a.signed == b.signed
}

// Whether samples are signed so: those of one byte as told, longer ones always.
fn is_signed_so(form: PcmForm, signed_bytes: bool) -> bool
    ensures { result ≡ signed_so signed_bytes form.depth form.signed }
{
    match form.depth {
        PcmDepth::Bits8 => if signed_bytes {
            form.signed
        } else {
            !form.signed
        },
        PcmDepth::Bits16 | PcmDepth::Bits24 | PcmDepth::Bits32 => form.signed,
    }
}

/// What an output of a format takes.
#[derive(Clone, Copy, Debug, PartialEq, Eq)]
pub struct Taken {
    /// The audio that it takes.
    pub sound: SoundTaken,
    /// Whether it takes video.
    pub pictures: bool,
    /// The audio codec where none is asked for.
    pub codec: Codec,
    /// How many streams at most.
    pub streams: usize,
}

// Audio of this codec, one stream of it.
fn samples_alone(codec: Codec) -> Taken
    ensures { result ≡ samples_alone_of codec }
{
    let sound = match codec.coding() {
        Coding::Pcm(form) => SoundTaken::PcmOf(form),
        Coding::Flac | Coding::RawVideo => SoundTaken::Nothing,
    };
    Taken {
        sound,
        pictures: false,
        codec,
        streams: 1,
    }
}

impl FileFormat {
    ghost use Rattle.ff_format.specs.Formats.{taken_by, default_hash, has_file};

    /// What an output of it takes: WAV takes linear PCM with the lowest byte first, unsigned where a sample has one
    /// byte and signed else. AU takes signed linear PCM with the highest byte first. FLAC takes what is coded so,
    /// YUV4MPEG2 and `RawVideo` video, a format of samples its own codec, each of one stream. Digests and `Null` take
    /// any linear PCM and video, of up to 16 streams.
    pub fn taken(self) -> Taken
        ensures row { result ≡ taken_by self }
        ensures few { result.streams ≤ 16 }
    {
        match self {
            FileFormat::Wav => Taken {
                sound: SoundTaken::PcmIn {
                    order: ByteOrder::LittleEndian,
                    signed_bytes: false,
                },
                pictures: false,
                codec: Codec::PcmS16le,
                streams: 1,
            },
            FileFormat::Au => Taken {
                sound: SoundTaken::PcmIn {
                    order: ByteOrder::BigEndian,
                    signed_bytes: true,
                },
                pictures: false,
                codec: Codec::PcmS16be,
                streams: 1,
            },
            FileFormat::Flac => Taken {
                sound: SoundTaken::Flac,
                pictures: false,
                codec: Codec::Flac,
                streams: 1,
            },
            FileFormat::U8 => samples_alone(Codec::PcmU8),
            FileFormat::S8 => samples_alone(Codec::PcmS8),
            FileFormat::S16le => samples_alone(Codec::PcmS16le),
            FileFormat::S16be => samples_alone(Codec::PcmS16be),
            FileFormat::S24le => samples_alone(Codec::PcmS24le),
            FileFormat::S24be => samples_alone(Codec::PcmS24be),
            FileFormat::S32le => samples_alone(Codec::PcmS32le),
            FileFormat::S32be => samples_alone(Codec::PcmS32be),
            FileFormat::Y4m | FileFormat::RawVideo => Taken {
                sound: SoundTaken::Nothing,
                pictures: true,
                codec: Codec::PcmS16le,
                streams: 1,
            },
            FileFormat::Avi => Taken {
                sound: SoundTaken::Nothing,
                pictures: false,
                codec: Codec::PcmS16le,
                streams: 0,
            },
            FileFormat::FrameHash
            | FileFormat::FrameMd5
            | FileFormat::FrameCrc
            | FileFormat::Hash
            | FileFormat::Md5
            | FileFormat::StreamHash
            | FileFormat::Crc
            | FileFormat::Null => Taken {
                sound: SoundTaken::Pcm,
                pictures: true,
                codec: Codec::PcmS16le,
                streams: 16,
            },
        }
    }

    /// Whether an output of it is a file.
    pub fn has_file(self) -> bool
        ensures { result ≡ has_file self }
    {
        match self {
            FileFormat::Null => false,
            _ => true,
        }
    }

    /// The digest where none is asked for, of a format that has one.
    pub fn default_hash(self) -> HashKind
        ensures { result ≡ default_hash self }
    {
        match self {
            FileFormat::FrameMd5 | FileFormat::Md5 => HashKind::Md5,
            _ => HashKind::Sha256,
        }
    }
}

/// When a WAV output is of the form RF64, which holds bodies past 4 GiB (EBU Tech 3306).
#[derive(Clone, Copy, Debug, PartialEq, Eq)]
pub enum Rf64 {
    /// Never: a longer body is refused.
    Never,
    /// Where its sizes don't fit in 32 bits.
    Auto,
    /// Always.
    Always,
}

/// What the options of an output say to its format.
#[derive(Clone, Copy, Debug, PartialEq, Eq)]
pub struct OutputOptions {
    /// Which digest stands for bytes of packets, where the format has one.
    pub hash: HashKind,
    /// When it is RF64, where it is WAV.
    pub rf64: Rf64,
    /// Whether it goes to a stream, which nothing can replace bytes of afterwards. Then it has its header as it is first
    /// written, and WAV has no sizes and no pad byte; no body is too large.
    pub streamed: bool,
}

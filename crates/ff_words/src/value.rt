//! The values of options and file names.
ghost use Rattle.std.specs.Prelude.{◌≤◌, ◌^◌};

use crate::job::{Size, Solo};
use crate::maps::MapSpec;
use ff_format::{FileFormat, Rf64};
use ff_frame::{Codec, Format, HashKind};
use ff_lang::{Graph, Text};
use ff_time::Rational;

/// Microseconds of a cut.
#[derive(Clone, Copy, Debug)]
pub struct Micros {
    /// How many there are, at most 10^15.
    pub us: u64,
    pub ghost bound: { us ≤ 10 ^ 15 },
}

/// What an option or a file's name reads as.
#[derive(Debug, Drop)]
pub enum Value {
    /// It has no effect.
    Nothing,
    /// Whether a file that is there is kept.
    Keeps(bool),
    /// The output has no video.
    NoVideo,
    /// The output has no audio.
    NoAudio,
    /// The output ends with the shortest of its streams.
    Shortest,
    /// A complex graph.
    Complex(Graph),
    /// The size of every queue.
    Queue(u32),
    /// The name of the file that gets the scheduler's history.
    Trace(Text),
    /// What an option asks for that stands alone.
    Solo(Solo),
    /// A format, and whether an input and an output may have it.
    Format {
        format: FileFormat,
        read: bool,
        written: bool,
    },
    /// The start of a cut.
    Start(Micros),
    /// The length of a cut.
    Length(Micros),
    /// The end of a cut, and how many bytes its argument has.
    End {
        end: Micros,
        len: usize,
    },
    /// The name of an input.
    Input(Text),
    /// A map.
    Map(MapSpec),
    /// An audio codec.
    AudioCodec(Codec),
    /// A video codec.
    VideoCodec(Codec),
    /// A simple graph for video.
    VideoGraph(Graph),
    /// A simple graph for audio.
    AudioGraph(Graph),
    /// How many frames a video stream has at most.
    Frames(u32),
    /// The sample frames a second that audio is asked to have.
    Rate(u32),
    /// The channels that audio is asked to have.
    Channels(u32),
    /// The format that video is asked to have.
    Pixels(Format),
    /// The time base that video is asked to have.
    FrameRate(Rational),
    /// The columns and rows that video is asked to have.
    Size(Size),
    /// A digest.
    Hash(HashKind),
    /// When an output is RF64.
    Rf64(Rf64),
    /// The word that names an output, and the format that its ending tells.
    Output(Text, Option<FileFormat>),
}

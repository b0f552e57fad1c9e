//! The command that a command line asks for.
use crate::maps::MapSpec;
use ff_format::{FileFormat, Rf64};
use ff_frame::{Codec, Format, HashKind};
use ff_lang::{Graph, Sequence, Text};
use ff_time::{Rational, TimeCut};

/// An input with its options.
#[derive(Debug, Drop)]
pub struct InputJob {
    /// The name of its file.
    pub name: Text,
    /// Without one the first bytes of the file tell it.
    pub format: Option<FileFormat>,
    /// The cut by `-ss` and `-t`.
    pub cut: TimeCut,
}

/// Columns and rows, each 1 to 16,384.
#[derive(Clone, Copy, Debug, PartialEq, Eq)]
pub struct Size {
    /// The columns.
    pub width: u32,
    /// The rows.
    pub height: u32,
}

/// What the streams of an output are asked to be already. Nothing is made so: a stream that is otherwise is refused.
#[derive(Clone, Copy, Debug)]
pub struct Asked {
    /// The sample frames a second of its audio, by `-ar`.
    pub rate: Option<u32>,
    /// The channels of its audio, by `-ac`.
    pub channels: Option<u32>,
    /// The format of its video, by `-pix_fmt`.
    pub pixels: Option<Format>,
    /// The time base of its video, which is one over the frames a second, by `-r`.
    pub base: Option<Rational>,
    /// The columns and rows of its video, by `-s`.
    pub size: Option<Size>,
}

/// An output with its options.
#[derive(Debug, Drop)]
pub struct OutputJob {
    /// The name of its file; of a format that has no file any word that stands in its place.
    pub name: Text,
    /// Its format, by `-f` or by the ending of its name.
    pub format: FileFormat,
    /// The maps by `-map`, in their order.
    pub maps: Sequence<MapSpec>,
    /// The audio codec by `-c:a`.
    pub audio: Option<Codec>,
    /// The video codec by `-c:v`.
    pub video: Option<Codec>,
    /// The simple graphs of its video and of its audio streams.
    pub vf: Option<Graph>,
    /// The graph by `-af`, for each of its audio streams.
    pub af: Option<Graph>,
    /// Whether `-an` drops its audio.
    pub no_audio: bool,
    /// Whether `-vn` drops its video.
    pub no_video: bool,
    /// The cut by `-ss` and `-t`.
    pub cut: TimeCut,
    /// How many frames each of its video streams has at most, by `-frames:v`.
    pub frames: Option<u32>,
    /// What its streams are asked to be already, by `-ar`, `-ac`, `-pix_fmt`, `-r` and `-s`.
    pub asked: Asked,
    /// Whether `-shortest` ends all of its streams with the shortest.
    pub shortest: bool,
    /// The digest by `-hash`; without it that of the format.
    pub hash: HashKind,
    /// When it is RF64, by `-rf64`.
    pub rf64: Rf64,
}

/// What a command reads and writes.
#[derive(Debug, Drop)]
pub struct Job {
    /// The size of every queue, 1 to 1,024.
    pub queue: u32,
    /// The file that gets the scheduler's history.
    pub trace: Option<Text>,
    /// Whether outputs that are there are kept, by `-n`; else they are replaced.
    pub keeps: bool,
    /// The complex graphs.
    pub graphs: Sequence<Graph>,
    /// The inputs in their order.
    pub inputs: Sequence<InputJob>,
    /// The outputs in their order.
    pub outputs: Sequence<OutputJob>,
}

/// What an option asks for that stands alone, with its value: it names no file.
#[derive(Clone, Copy, Debug, PartialEq, Eq)]
pub enum Solo {
    /// How the command is used.
    Help,
    /// Which program it is.
    Version,
    /// The job over the generated input of so many seconds, 0 to 3,600.
    SelfRun(u32),
}

/// What arguments ask for.
#[derive(Debug, Drop)]
pub enum Command {
    /// A job over files.
    Run(Job),
    /// What an option asks for that stands alone.
    Solo(Solo),
}

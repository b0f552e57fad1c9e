//! The options of the command line as one list, and the lists of their values. A further option is a line here; where its
//! kind of value is new, that is a case in `Kind`, `Value` and what reads it.
ghost use Rattle.std.specs.Prelude.{◌≡◌};
ghost use Rattle.ff_words.specs.Table.{lines, formats, names, rule_in, option_named, format_in};
ghost use Rattle.ff_words.specs.Table.{format_named, ending_in, format_ending as named_by_ending, codec_in, audio_codec as audio_codec_named};
ghost use Rattle.ff_words.specs.Table.{video_codec as video_codec_named, is_in, is_level as level_named};
ghost use Rattle.ff_words.specs.Table.{is_frame_mode as frame_mode_named, is_sync_mode as sync_mode_named};

use ff_format::{FORMATS, FileFormat};
use ff_frame::Codec;

/// Whom an option concerns.
#[derive(Clone, Copy, Debug, PartialEq, Eq)]
pub enum Concern {
    /// The whole command, wherever it stands.
    All,
    /// The whole command, and nothing else may stand beside it.
    Alone,
    /// The input or the output after it.
    File,
    /// The output after it.
    Output,
    /// It is a file itself.
    Itself,
}

/// Which kind of value an option has; the first nine have none.
#[derive(Clone, Copy, Debug, PartialEq, Eq)]
pub enum Kind {
    /// It is read and has no effect.
    Nothing,
    /// A file that is there is kept.
    Keeps,
    /// A file that is there is replaced.
    Replaces,
    /// Nothing on standard error says how far the run is; the job is the same.
    NoStats,
    /// The output has no video.
    NoVideo,
    /// The output has no audio.
    NoAudio,
    /// The output ends with the shortest of its streams.
    Shortest,
    /// How the command is used is asked for.
    Help,
    /// Which program it is is asked for.
    Version,
    /// How much is said on standard error; the job is the same.
    Level,
    /// Any word, which has no effect.
    Word,
    /// A whole number, which has no effect.
    Number,
    /// How frames get their times, which has no effect.
    FrameMode,
    /// The same by its older name.
    SyncMode,
    /// A filtergraph over several streams.
    Complex,
    /// The size of every queue.
    Queue,
    /// The name of the file that gets the scheduler's history.
    Trace,
    /// Seconds of the generated input.
    SelfRun,
    /// A format of files.
    Format,
    /// The time at which the cut of a file starts.
    Start,
    /// The length of the cut of a file.
    Length,
    /// The time at which it ends.
    End,
    /// The name of an input.
    Input,
    /// A map.
    Map,
    /// The audio codec of an output.
    AudioCodec,
    /// The video codec of an output.
    VideoCodec,
    /// A filtergraph over the video streams of an output, each by itself.
    VideoGraph,
    /// The same over its audio streams.
    AudioGraph,
    /// How many frames each video stream of an output has at most.
    Frames,
    /// The sample frames a second that the audio of an output is asked to have.
    Rate,
    /// The channels that it is asked to have.
    Channels,
    /// The format that the video of an output is asked to have.
    Pixels,
    /// The frames a second that it is asked to have.
    FrameRate,
    /// The columns and rows that it is asked to have.
    Size,
    /// The digest of an output.
    Hash,
    /// When an output is RF64.
    Rf64,
}

/// What an option is.
#[derive(Clone, Copy, Debug)]
pub struct Rule {
    /// Whom it concerns.
    pub concern: Concern,
    /// The kind of its value.
    pub kind: Kind,
}

/// A format of files, and whether an input or an output may have it.
#[derive(Clone, Copy, Debug)]
pub struct Named {
    /// The format.
    pub format: FileFormat,
    /// Whether an input may have it.
    pub read: bool,
    /// Whether an output may have it.
    pub written: bool,
}

/// Each option, whom it concerns, and its kind of value.
pub static OPTIONS: [(&'static str, Concern, Kind); 61] = [
    ("-n", Concern::All, Kind::Keeps),
    ("-y", Concern::All, Kind::Replaces),
    ("-hide_banner", Concern::All, Kind::Nothing),
    ("-nostdin", Concern::All, Kind::Nothing),
    ("-bitexact", Concern::All, Kind::Nothing),
    ("-stats", Concern::All, Kind::Nothing),
    ("-sn", Concern::All, Kind::Nothing),
    ("-dn", Concern::All, Kind::Nothing),
    ("-xerror", Concern::All, Kind::Nothing),
    ("-nostats", Concern::All, Kind::NoStats),
    ("-loglevel", Concern::All, Kind::Level),
    ("-v", Concern::All, Kind::Level),
    ("-fflags", Concern::All, Kind::Word),
    ("-flags", Concern::All, Kind::Word),
    ("-flags:a", Concern::All, Kind::Word),
    ("-flags:v", Concern::All, Kind::Word),
    ("-map_metadata", Concern::All, Kind::Word),
    ("-map_chapters", Concern::All, Kind::Word),
    ("-metadata", Concern::All, Kind::Word),
    ("-strict", Concern::All, Kind::Word),
    ("-threads", Concern::All, Kind::Number),
    ("-filter_threads", Concern::All, Kind::Number),
    ("-filter_complex_threads", Concern::All, Kind::Number),
    ("-max_muxing_queue_size", Concern::All, Kind::Number),
    ("-fps_mode", Concern::All, Kind::FrameMode),
    ("-vsync", Concern::All, Kind::SyncMode),
    ("-filter_complex", Concern::All, Kind::Complex),
    ("-lavfi", Concern::All, Kind::Complex),
    ("-thread_queue_size", Concern::All, Kind::Queue),
    ("-sched_trace", Concern::All, Kind::Trace),
    ("-h", Concern::Alone, Kind::Help),
    ("-version", Concern::Alone, Kind::Version),
    ("-selfrun", Concern::Alone, Kind::SelfRun),
    ("-f", Concern::File, Kind::Format),
    ("-ss", Concern::File, Kind::Start),
    ("-t", Concern::File, Kind::Length),
    ("-to", Concern::File, Kind::End),
    ("-i", Concern::Itself, Kind::Input),
    ("-map", Concern::Output, Kind::Map),
    ("-c:a", Concern::Output, Kind::AudioCodec),
    ("-codec:a", Concern::Output, Kind::AudioCodec),
    ("-acodec", Concern::Output, Kind::AudioCodec),
    ("-c:v", Concern::Output, Kind::VideoCodec),
    ("-codec:v", Concern::Output, Kind::VideoCodec),
    ("-vcodec", Concern::Output, Kind::VideoCodec),
    ("-vf", Concern::Output, Kind::VideoGraph),
    ("-filter:v", Concern::Output, Kind::VideoGraph),
    ("-af", Concern::Output, Kind::AudioGraph),
    ("-filter:a", Concern::Output, Kind::AudioGraph),
    ("-vn", Concern::Output, Kind::NoVideo),
    ("-an", Concern::Output, Kind::NoAudio),
    ("-shortest", Concern::Output, Kind::Shortest),
    ("-frames:v", Concern::Output, Kind::Frames),
    ("-vframes", Concern::Output, Kind::Frames),
    ("-ar", Concern::Output, Kind::Rate),
    ("-ac", Concern::Output, Kind::Channels),
    ("-pix_fmt", Concern::Output, Kind::Pixels),
    ("-r", Concern::Output, Kind::FrameRate),
    ("-s", Concern::Output, Kind::Size),
    ("-hash", Concern::Output, Kind::Hash),
    ("-rf64", Concern::Output, Kind::Rf64),
];

/// The audio codecs.
pub static AUDIO_CODECS: [Codec; 9] = [
    Codec::PcmU8,
    Codec::PcmS16le,
    Codec::PcmS24le,
    Codec::PcmS32le,
    Codec::PcmS8,
    Codec::PcmS16be,
    Codec::PcmS24be,
    Codec::PcmS32be,
    Codec::Flac,
];

/// The video codecs.
pub static VIDEO_CODECS: [Codec; 1] = [Codec::RawVideo];

/// The levels that `-loglevel` takes by name.
pub static LEVELS: [&'static str; 9] = [
    "quiet", "panic", "fatal", "error", "warning", "info", "verbose", "debug", "trace",
];

/// The values of `-fps_mode`: each frame keeps its time.
pub static FRAME_MODES: [&'static str; 1] = ["passthrough"];

/// The values of `-vsync`.
pub static SYNC_MODES: [&'static str; 2] = ["passthrough", "0"];

fn find_rule(list: &[(&'static str, Concern, Kind)], word: &str) -> Option<Rule>
    ensures { result ≡ rule_in (lines list.now) word.now }
{
    for (name, concern, kind) in list.iter() {
        if *name == word {
            return Some(Rule {
                concern: *concern,
                kind: *kind,
            });
        }
    }
    None
}

/// The option of this name.
#[tactic(auto, unfolding(crate::specs::Table::option_named))]
pub fn find_option(word: &str) -> Option<Rule>
    ensures { result ≡ option_named word.now }
{
    find_rule(&OPTIONS, word)
}

fn find_format(
    list: &[(&'static str, &'static str, FileFormat, bool, bool)],
    word: &str,
) -> Option<Named>
    ensures { result ≡ format_in (formats list.now) word.now }
{
    for (name, _ending, format, read, written) in list.iter() {
        if *name == word {
            return Some(Named {
                format: *format,
                read: *read,
                written: *written,
            });
        }
    }
    None
}

/// The format of this name.
#[tactic(auto, unfolding(crate::specs::Table::format_named))]
pub fn format_of(word: &str) -> Option<Named>
    ensures { result ≡ format_named word.now }
{
    find_format(&FORMATS, word)
}

fn find_ending(
    list: &[(&'static str, &'static str, FileFormat, bool, bool)],
    name: &str,
) -> Option<FileFormat>
    ensures { result ≡ ending_in (formats list.now) name.now }
{
    for (_name, ending, format, _read, written) in list.iter() {
        let told = 0 < ending.len() && name.as_bytes().ends_with(ending.as_bytes());
        if *written && told {
            return Some(*format);
        }
    }
    None
}

/// The format that is written to a file with a name that ends so.
#[tactic(auto, unfolding(crate::specs::Table::format_ending))]
pub fn format_ending(name: &str) -> Option<FileFormat>
    ensures { result ≡ named_by_ending name.now }
{
    find_ending(&FORMATS, name)
}

fn find_codec(list: &[Codec], word: &str) -> Option<Codec>
    ensures { result ≡ codec_in list.now word.now }
{
    for codec in list.iter() {
        if codec.name() == word {
            return Some(*codec);
        }
    }
    None
}

/// The audio codec of this name.
#[tactic(auto, unfolding(crate::specs::Table::audio_codec))]
pub fn audio_codec(word: &str) -> Option<Codec>
    ensures { result ≡ audio_codec_named word.now }
{
    find_codec(&AUDIO_CODECS, word)
}

/// The video codec of this name.
#[tactic(auto, unfolding(crate::specs::Table::video_codec))]
pub fn video_codec(word: &str) -> Option<Codec>
    ensures { result ≡ video_codec_named word.now }
{
    find_codec(&VIDEO_CODECS, word)
}

fn is_listed(list: &[&'static str], word: &str) -> bool
    ensures { result ≡ is_in (names list.now) word.now }
{
    for name in list.iter() {
        if *name == word {
            return true;
        }
    }
    false
}

/// Whether an argument says how much is logged.
#[tactic(auto, unfolding(crate::specs::Table::is_level))]
pub fn is_level(word: &str) -> bool
    ensures { result ≡ level_named word.now }
{
    is_listed(&LEVELS, word)
}

/// Whether an argument is a value of `-fps_mode`.
#[tactic(auto, unfolding(crate::specs::Table::is_frame_mode))]
pub fn is_frame_mode(word: &str) -> bool
    ensures { result ≡ frame_mode_named word.now }
{
    is_listed(&FRAME_MODES, word)
}

/// Whether an argument is a value of `-vsync`.
#[tactic(auto, unfolding(crate::specs::Table::is_sync_mode))]
pub fn is_sync_mode(word: &str) -> bool
    ensures { result ≡ sync_mode_named word.now }
{
    is_listed(&SYNC_MODES, word)
}

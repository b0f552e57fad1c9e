//! The strings of `-h` and `-version`, made of the lists by which the command line is read.
ghost use Rattle.std.specs.Prelude.{◌≡◌, ◌++◌, OnOk, IfOk, ℕ, codes};
ghost use Rattle.ff_lists.specs.Text.{line};
ghost use Rattle.ff_words.specs.Table.{lines, formats, names};
ghost use Rattle.ff_command.specs.Help.{left, all_lines, concerned, taken, effect as effect_of, option_line, option_lines, ways, format_line, format_lines};
ghost use Rattle.ff_command.specs.Help.{codec_lines, filter_line, filters, filter_lines, filters_text, help_text, version_text};

use ff_filters::{FILTERS, FilterName, takes_sound};
use ff_format::{FORMATS, FileFormat};
use ff_frame::Codec;
use ff_words::{AUDIO_CODECS, Concern, Kind, OPTIONS, VIDEO_CODECS};
use std::alloc::{AllocError, Global};

/// What stands before the options.
pub static USAGE: [&'static str; 5] = [
    "ffmpeg [options] {[options of an input] -i INPUT} .. {[options of an output] OUTPUT} ..",
    "An output that is there already is replaced, and nothing is asked.",
    "",
    "Options, and what each concerns: all of the command, the file or the output after it,",
    "an input itself; or it stands alone:",
];

/// What stands after the filters.
pub static STATUSES: [&'static str; 10] = [
    "Statuses, each but 0 with a line that names its cause:",
    "  0  all was done",
    "  1  the command line was refused",
    "  2  the inputs can't give the streams or filters that were asked for",
    "  3  a file couldn't be opened, read, created, written or closed",
    "  4  an input breaks its format",
    "  5  a stream has more packets than it may have, or lasts too long",
    "  6  an input isn't of a kind that is read",
    "  7  an output passes the greatest size of its format",
    "  9  memory ran out",
];

/// The name, what it is proved with, and the profile.
pub static PROGRAM: [&'static str; 3] = [
    "zofimanga 0.1.0 for x86-64 Linux: an ffmpeg whose bytes are proved",
    "proved with Rattle, logic dac8208d650f15bf",
    "profile zofimanga of ffmpeg 7: WAV, AU, AVI, YUV4MPEG2, FLAC, raw formats and digests",
];

fn concern_text(concern: Concern) -> &'static str
    ensures { result.now ≡ concerned concern }
{
    match concern {
        Concern::All => "all",
        Concern::Alone => "alone",
        Concern::File => "file",
        Concern::Output => "output",
        Concern::Itself => "input",
    }
}

fn value_text(kind: Kind) -> &'static str
    ensures { result.now ≡ taken kind }
{
    match kind {
        Kind::Level => " LEVEL",
        Kind::Word => " WORD",
        Kind::Number | Kind::Frames => " N",
        Kind::Rate | Kind::FrameRate => " R",
        Kind::Channels => " C",
        Kind::Size => " WxH",
        Kind::FrameMode | Kind::SyncMode => " MODE",
        Kind::Complex | Kind::VideoGraph | Kind::AudioGraph => " GRAPH",
        Kind::Queue => " SIZE",
        Kind::Trace | Kind::Input => " NAME",
        Kind::SelfRun => " SECONDS",
        Kind::Format | Kind::Pixels => " FORMAT",
        Kind::Start | Kind::Length | Kind::End => " TIME",
        Kind::Map => " MAP",
        Kind::AudioCodec | Kind::VideoCodec => " CODEC",
        Kind::Hash => " DIGEST",
        Kind::Rf64 => " WHEN",
        _ => "",
    }
}

fn effect(kind: Kind) -> &'static str
    ensures { result.now ≡ effect_of kind }
{
    match kind {
        Kind::Nothing => "no effect",
        Kind::Keeps => "an output or a trace that is there is kept, and the status is 3",
        Kind::Replaces =>
            "an output that is there is replaced, as without -n; of both the later counts",
        Kind::NoStats => "no line on standard error says how far the run has come",
        Kind::Level =>
            "how much standard error has: quiet, panic, fatal, error, warning, info, verbose, debug, trace or a number",
        Kind::Word => "no effect",
        Kind::Number => "no effect: a whole number of 1 to 9 digits",
        Kind::FrameMode => "no effect: passthrough",
        Kind::SyncMode => "no effect: passthrough or 0",
        Kind::Complex => "a filtergraph over several streams",
        Kind::Queue => "the size of every queue, 1 to 1024 items; 8 without it",
        Kind::Trace => "the file that gets the scheduler's history",
        Kind::Help => "this text",
        Kind::Version => "which program this is",
        Kind::SelfRun => "the job over 0 to 3600 seconds of generated input",
        Kind::Format => "the format of the file",
        Kind::Start => "where the cut starts",
        Kind::Length => "how long the cut is",
        Kind::End => "where the cut ends; -t counts instead where both stand",
        Kind::Input => "an input, which the options before it concern",
        Kind::Map => "streams: F, F:N, F:v, F:a, F:v:N or F:a:N, with ? where there may be none",
        Kind::AudioCodec => "how audio is coded",
        Kind::VideoCodec => "how video is coded",
        Kind::VideoGraph => "a filtergraph for each video stream by itself",
        Kind::AudioGraph => "a filtergraph for each audio stream by itself",
        Kind::NoVideo => "no video from the inputs",
        Kind::NoAudio => "no audio from the inputs",
        Kind::Shortest => "all streams end where the shortest does",
        Kind::Frames => "each video stream ends after N frames, 0 to 999999999",
        Kind::Rate =>
            "audio has R sample frames a second already, 1 to 999999999, or the plan is refused",
        Kind::Channels => "audio has C channels already, 1 to 8, or the plan is refused",
        Kind::Pixels =>
            "video has this format already, or the plan is refused: yuv420p, yuv422p, yuv444p or gray",
        Kind::FrameRate => "video has R frames a second already, N or N/D, or the plan is refused",
        Kind::Size => "video has W columns and H rows already, or the plan is refused",
        Kind::Hash => "the digest of packets, SHA256 or MD5; without it that of the format",
        Kind::Rf64 => "whether a WAV is RF64, never, auto (past 4 GiB) or always; never without it",
    }
}

fn way_text(read: bool, written: bool) -> &'static str
    ensures { result.now ≡ ways read written }
{
    if !read {
        "written"
    } else if written {
        "read, written"
    } else {
        "read"
    }
}

fn push(out: &mut Vec<u8>, text: &str) -> Result<(), AllocError>
    ensures { OnOk result (out.new.items ≡ out.old.items ++ text.now) }
{
    out.extend_from_slice(text.as_bytes())
}

// A string before blanks that fill so many places.
fn push_left(alloc: Global, out: &mut Vec<u8>, width: usize, text: &[u8]) -> Result<(), AllocError>
    ensures { OnOk result (out.new.items ≡ out.old.items ++ left width text.now) }
{
    let blanks = vec![in alloc; b' '; width.saturating_sub(text.len())]?;
    out.extend_from_slice(text)?;
    out.extend_from_slice(&blanks)
}

// What stands at the left of a line.
fn head_of(alloc: Global, name: &str, behind: &str) -> Result<Vec<u8>, AllocError>
    ensures { IfOk result (λ text. text.items ≡ codes "  " ++ name.now ++ behind.now) }
{
    let head = format!(in alloc; "  {name}{behind}")?;
    Ok(head.into_bytes())
}

fn indented(alloc: Global, name: &str) -> Result<Vec<u8>, AllocError>
    ensures { IfOk result (λ text. text.items ≡ codes "  " ++ name.now) }
{
    let head = format!(in alloc; "  {name}")?;
    Ok(head.into_bytes())
}

fn push_line(out: &mut Vec<u8>, text: &str) -> Result<(), AllocError>
    ensures { OnOk result (out.new.items ≡ out.old.items ++ line text.now) }
{
    push(out, text)?;
    push(out, "\n")
}

fn push_option(
    alloc: Global,
    out: &mut Vec<u8>,
    name: &str,
    concern: Concern,
    kind: Kind,
) -> Result<(), AllocError>
    ensures { OnOk result (out.new.items ≡ out.old.items ++ option_line name.now concern kind) }
{
    let head = head_of(alloc, name, value_text(kind))?;
    push_left(alloc, out, 28, &head)?;
    push_left(alloc, out, 8, concern_text(concern).as_bytes())?;
    push_line(out, effect(kind))
}

fn push_format(
    alloc: Global,
    out: &mut Vec<u8>,
    name: &str,
    read: bool,
    written: bool,
) -> Result<(), AllocError>
    ensures { OnOk result (out.new.items ≡ out.old.items ++ format_line name.now read written) }
{
    let head = indented(alloc, name)?;
    push_left(alloc, out, 26, &head)?;
    push_line(out, way_text(read, written))
}

fn push_codec(alloc: Global, out: &mut Vec<u8>, name: &str) -> Result<(), AllocError>
    ensures { OnOk result (out.new.items ≡ out.old.items ++ line (codes "  " ++ name.now)) }
{
    push(out, "  ")?;
    push_line(out, name)
}

fn push_filter(
    alloc: Global,
    out: &mut Vec<u8>,
    name: &str,
    arguments: &str,
    effect: &str,
) -> Result<(), AllocError>
    ensures { OnOk result (out.new.items ≡ out.old.items ++ filter_line name.now arguments.now effect.now) }
{
    let head = head_of(alloc, name, arguments)?;
    push_left(alloc, out, 28, &head)?;
    push_line(out, effect)
}

fn push_lines(out: &mut Vec<u8>, list: &[&'static str]) -> Result<(), AllocError>
    ensures { OnOk result (out.new.items ≡ out.old.items ++ all_lines (names list.now)) }
{
    for text in list.iter() {
        push_line(out, text)?;
    }
    Ok(())
}

fn push_options(
    alloc: Global,
    out: &mut Vec<u8>,
    list: &[(&'static str, Concern, Kind)],
) -> Result<(), AllocError>
    ensures { OnOk result (out.new.items ≡ out.old.items ++ option_lines (lines list.now)) }
{
    for (name, concern, kind) in list.iter() {
        push_option(alloc, out, name, *concern, *kind)?;
    }
    Ok(())
}

fn push_formats(
    alloc: Global,
    out: &mut Vec<u8>,
    list: &[(&'static str, &'static str, FileFormat, bool, bool)],
) -> Result<(), AllocError>
    ensures { OnOk result (out.new.items ≡ out.old.items ++ format_lines (formats list.now)) }
{
    for (name, _ending, _format, read, written) in list.iter() {
        push_format(alloc, out, name, *read, *written)?;
    }
    Ok(())
}

fn push_codecs(alloc: Global, out: &mut Vec<u8>, list: &[Codec]) -> Result<(), AllocError>
    ensures { OnOk result (out.new.items ≡ out.old.items ++ codec_lines list.now) }
{
    for codec in list.iter() {
        push_codec(alloc, out, codec.name())?;
    }
    Ok(())
}

// The filters whose first input takes audio, or those whose first input takes video, by their names alone.
fn push_filters(
    alloc: Global,
    out: &mut Vec<u8>,
    sound: bool,
    list: &[(&'static str, FilterName, &'static str, &'static str)],
) -> Result<(), AllocError>
    ensures { OnOk result (out.new.items ≡ out.old.items ++ filter_lines sound (filters list.now)) }
{
    for (name, filter, arguments, effect) in list.iter() {
        if takes_sound(*filter, &[], 0) == sound {
            push_filter(alloc, out, name, arguments, effect)?;
        }
    }
    Ok(())
}

fn push_all_filters(alloc: Global, out: &mut Vec<u8>) -> Result<(), AllocError>
    ensures { OnOk result (out.new.items ≡ out.old.items ++ filters_text) }
{
    push_line(out, "Video filters, each with its arguments:")?;
    push_filters(alloc, out, false, &FILTERS)?;
    push_line(out, "Audio filters:")?;
    push_filters(alloc, out, true, &FILTERS)?;
    Ok(())
}

/// What `-h` asks for.
#[tactic(auto, unfolding(crate::specs::Help::help_text))]
pub(crate) fn help(alloc: Global) -> Result<Vec<u8>, AllocError>
    ensures { IfOk result (λ text. text.items ≡ help_text) }
{
    let mut out = Vec::new(alloc);
    push_lines(&mut out, &USAGE)?;
    push_options(alloc, &mut out, &OPTIONS)?;
    push_line(&mut out, "Formats:")?;
    push_formats(alloc, &mut out, &FORMATS)?;
    push_line(&mut out, "Audio codecs:")?;
    push_codecs(alloc, &mut out, &AUDIO_CODECS)?;
    push_line(&mut out, "Video codecs:")?;
    push_codecs(alloc, &mut out, &VIDEO_CODECS)?;
    push_all_filters(alloc, &mut out)?;
    push_lines(&mut out, &STATUSES)?;
    Ok(out)
}

/// What `-version` asks for.
#[tactic(auto, unfolding(crate::specs::Help::version_text))]
pub(crate) fn version(alloc: Global) -> Result<Vec<u8>, AllocError>
    ensures { IfOk result (λ text. text.items ≡ version_text) }
{
    let mut out = Vec::new(alloc);
    push_lines(&mut out, &PROGRAM)?;
    Ok(out)
}

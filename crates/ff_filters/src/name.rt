//! The filters by their names, and what a graph has to know of each before it knows any head.
ghost use Rattle.std.specs.Prelude.{◌≡◌};
ghost use Rattle.ff_filters.specs.Names.{named_in, named_lines, filter_named};
ghost use Rattle.ff_filters.specs.Pads.{inputs_of, outputs_of, is_apart as stands_apart, is_source as makes_its_own, takes_sound as sound_taken};

use ff_concat::Asked;
use ff_filter::SplitSettings;
use ff_fsync::count_inputs;
use ff_joins::{JoinSettings, last_number};
use ff_lang::Arg;

/// The filters that there are.
#[derive(Clone, Copy, Debug, PartialEq, Eq)]
pub enum FilterName {
    /// `null`: the same video stream.
    Null,
    /// `trim`: the frames of a range of times.
    Trim,
    /// `setpts`: frames from time 0 on.
    SetPts,
    /// `crop`: a part of each frame.
    Crop,
    /// `pad`: each frame on black.
    Pad,
    /// `hflip`: each frame mirrored left to right.
    HFlip,
    /// `vflip`: each frame mirrored top to bottom.
    VFlip,
    /// `fps`: frames at an even rate.
    Fps,
    /// `split`: the same frames on several outputs.
    Split,
    /// `anull`: the same audio stream.
    ANull,
    /// `atrim`: the audio of a range of times.
    ATrim,
    /// `asetpts`: audio from time 0 on.
    ASetPts,
    /// `asplit`: the same audio on several outputs.
    ASplit,
    /// `channelsplit`: one channel on each output.
    ChannelSplit,
    /// `hstack`: frames side by side.
    HStack,
    /// `vstack`: frames one below the other.
    VStack,
    /// `concat`: segments one after another.
    Concat,
    /// `join`: audio streams side by side.
    Join,
    /// `color`: pictures of one colour, which no file has.
    Color,
    /// `anullsrc`: silence, which no file has.
    ANullSrc,
}

/// Each filter: its name in a filtergraph, what it is, which arguments it takes, and what it does. Graphs are read by this list, and
/// `-h` tells it in this order.
pub static FILTERS: [(&'static str, FilterName, &'static str, &'static str); 20] = [
    ("null", FilterName::Null, "", "no effect"),
    (
        "trim",
        FilterName::Trim,
        "=start:end",
        "the pictures from one time to before another, or for a duration",
    ),
    (
        "setpts",
        FilterName::SetPts,
        "=PTS-STARTPTS",
        "times from 0 on",
    ),
    (
        "crop",
        FilterName::Crop,
        "=w:h:x:y",
        "a part of each picture",
    ),
    (
        "pad",
        FilterName::Pad,
        "=w:h:x:y",
        "each picture on a larger black one",
    ),
    ("hflip", FilterName::HFlip, "", "left and right changed"),
    ("vflip", FilterName::VFlip, "", "top and bottom changed"),
    ("fps", FilterName::Fps, "=fps", "so many pictures a second"),
    (
        "split",
        FilterName::Split,
        "=outputs",
        "the same pictures several times",
    ),
    (
        "hstack",
        FilterName::HStack,
        "=inputs:shortest",
        "pictures of several inputs side by side",
    ),
    (
        "vstack",
        FilterName::VStack,
        "=inputs:shortest",
        "pictures of several inputs one below the other",
    ),
    (
        "concat",
        FilterName::Concat,
        "=n:v:a",
        "segments one after another, of video, audio or both",
    ),
    (
        "color",
        FilterName::Color,
        "=c:s:r:d",
        "pictures of a colour, size, rate and duration, of no input",
    ),
    ("anull", FilterName::ANull, "", "no effect"),
    (
        "atrim",
        FilterName::ATrim,
        "=start:end",
        "the samples from one time to before another, or for a duration",
    ),
    (
        "asetpts",
        FilterName::ASetPts,
        "=PTS-STARTPTS",
        "times from 0 on",
    ),
    (
        "asplit",
        FilterName::ASplit,
        "=outputs",
        "the same sound several times",
    ),
    (
        "channelsplit",
        FilterName::ChannelSplit,
        "",
        "each channel by itself",
    ),
    (
        "join",
        FilterName::Join,
        "=inputs",
        "the channels of several inputs beside each other",
    ),
    (
        "anullsrc",
        FilterName::ANullSrc,
        "=cl:r:d",
        "silence of a layout, rate and duration, of no input",
    ),
];

fn find(
    list: &[(&'static str, FilterName, &'static str, &'static str)],
    name: &str,
) -> Option<FilterName>
    ensures { result ≡ named_in (named_lines list.now) name.now }
{
    for (own, filter, _arguments, _effect) in list.iter() {
        if name == *own {
            return Some(*filter);
        }
    }
    None
}

/// The filter of this name, as it is written in a filtergraph. None where no filter has it.
pub fn named(name: &str) -> Option<FilterName>
    ensures { result ≡ filter_named name.now }
{
    find(&FILTERS, name)
}

/// How many input pads a filter has by its arguments. The last that says so counts; where that one is refused, as many as
/// where none says so.
pub fn inputs(name: FilterName, args: &[Arg]) -> usize
    ensures { result ≡ inputs_of name args.now }
{
    match name {
        FilterName::HStack | FilterName::VStack => count_inputs(args),
        FilterName::Concat => Asked::by(args).inputs(),
        FilterName::Join => last_number::<JoinSettings>(args, 0, 2, 8, 2) as usize,
        _ => 1,
    }
}

/// How many output pads a filter has by its arguments that may be linked without a label. Those of channelsplit are linked by
/// labels alone.
pub fn outputs(name: FilterName, args: &[Arg]) -> usize
    ensures { result ≡ outputs_of name args.now }
{
    match name {
        FilterName::Split | FilterName::ASplit => {
            last_number::<SplitSettings>(args, 0, 1, 16, 2) as usize
        }
        FilterName::Concat => Asked::by(args).streams(),
        FilterName::ChannelSplit => 0,
        _ => 1,
    }
}

/// Whether the output pads of a filter are as many as its input has channels, and are linked by labels alone.
pub fn is_apart(name: FilterName) -> bool
    ensures { result ≡ stands_apart name }
{
    match name {
        FilterName::ChannelSplit => true,
        _ => false,
    }
}

/// Whether a filter is a source filter: its arguments alone say the stream that comes to its only input pad.
pub fn is_source(name: FilterName) -> bool
    ensures { result ≡ makes_its_own name }
{
    match name {
        FilterName::Color | FilterName::ANullSrc => true,
        _ => false,
    }
}

/// Whether the input pad of this number takes audio; else it takes video.
pub fn takes_sound(name: FilterName, args: &[Arg], pad: usize) -> bool
    ensures { result ≡ sound_taken name args.now pad }
{
    match name {
        FilterName::ANull
        | FilterName::ATrim
        | FilterName::ASetPts
        | FilterName::ASplit
        | FilterName::ChannelSplit
        | FilterName::Join
        | FilterName::ANullSrc => true,
        FilterName::Concat => Asked::by(args).takes_audio(pad),
        _ => false,
    }
}

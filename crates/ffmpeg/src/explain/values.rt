//! What an option takes, in words.
use crate::explain::quoted::tell_listed;
use crate::explain::told::Told;
use ff_format::FORMATS;
use ff_frame::Codec;
use ff_words::{AUDIO_CODECS, FRAME_MODES, Kind, SYNC_MODES, VIDEO_CODECS};

/// The formats that an input may have.
pub(crate) fn read_formats(told: &mut Told) -> Vec<&'static str> {
    let mut names = Vec::new(told.alloc);
    for (name, _ending, _format, read, _written) in FORMATS.iter() {
        if *read {
            told.note(names.push(*name));
        }
    }
    names
}

/// The formats that an output may have.
pub(crate) fn written_formats(told: &mut Told) -> Vec<&'static str> {
    let mut names = Vec::new(told.alloc);
    for (name, _ending, _format, _read, written) in FORMATS.iter() {
        if *written {
            told.note(names.push(*name));
        }
    }
    names
}

/// The endings that tell an output's format.
pub(crate) fn endings(told: &mut Told) -> Vec<&'static str> {
    let mut names = Vec::new(told.alloc);
    for (_name, ending, _format, _read, written) in FORMATS.iter() {
        if *written && !ending.is_empty() {
            told.note(names.push(*ending));
        }
    }
    names
}

fn all_formats(told: &mut Told) -> Vec<&'static str> {
    let mut names = Vec::new(told.alloc);
    for (name, _ending, _format, _read, _written) in FORMATS.iter() {
        told.note(names.push(*name));
    }
    names
}

fn codecs(told: &mut Told, list: &[Codec]) -> Vec<&'static str> {
    let mut names = Vec::new(told.alloc);
    for codec in list.iter() {
        told.note(names.push(codec.name()));
    }
    names
}

// These names.
fn names(told: &mut Told, list: &[&'static str]) -> Vec<&'static str> {
    let mut names = Vec::new(told.alloc);
    for name in list.iter() {
        told.note(names.push(*name));
    }
    names
}

/// The values that an option of this kind has by name; nothing where they aren't a list.
pub(crate) fn named_values(told: &mut Told, kind: Kind) -> Vec<&'static str> {
    match kind {
        Kind::Format => all_formats(told),
        Kind::AudioCodec => codecs(told, &AUDIO_CODECS),
        Kind::VideoCodec => codecs(told, &VIDEO_CODECS),
        Kind::FrameMode => names(told, &FRAME_MODES),
        Kind::SyncMode => names(told, &SYNC_MODES),
        Kind::Hash => names(told, &["SHA256", "MD5"]),
        Kind::Rf64 => names(told, &["never", "auto", "always"]),
        Kind::Pixels => names(told, &["yuv420p", "yuv422p", "yuv444p", "gray"]),
        _ => names(told, &[]),
    }
}

// What an option takes whose values are no list.
fn described(kind: Kind) -> &'static str {
    match kind {
        Kind::Level =>
            "quiet, panic, fatal, error, warning, info, verbose, debug, trace or a number",
        Kind::Word => "any word",
        Kind::Number | Kind::Frames => "a whole number of 1 to 9 digits",
        Kind::Rate => "a whole number from 1 to 999999999",
        Kind::Channels => "a whole number from 1 to 8",
        Kind::FrameRate => "frames a second, as 25 or 30000/1001",
        Kind::Size => "columns and rows from 1 to 16384, as 320x240",
        Kind::Queue => "a whole number from 1 to 1024",
        Kind::SelfRun => "a whole number of seconds from 0 to 3600",
        Kind::Start | Kind::Length | Kind::End => "a time, as 90, 1:30, 2.5 or 500ms",
        Kind::Map => "a map, as 0, 0:1, 0:a, 0:v:0? or [LABEL]",
        Kind::Complex | Kind::VideoGraph | Kind::AudioGraph => "a filtergraph, as crop=3:2,hflip",
        Kind::Input | Kind::Trace => "the name of a file",
        _ => "what ffmpeg -h says of it",
    }
}

/// Tells what an option of this kind takes.
pub(crate) fn tell_taken(told: &mut Told, kind: Kind) {
    let names = named_values(told, kind);
    if names.is_empty() {
        told.text(described(kind));
    } else {
        tell_listed(told, names.as_slice(), " or ");
    }
}

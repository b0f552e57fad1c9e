//! Why there is no plan.
use crate::explain::filter::tell_filter;
use crate::explain::line::{CommandLine, FilePlace};
use crate::explain::quoted::{tell_clipped, tell_listed, tell_quoted};
use crate::explain::told::Told;
use ff_format::{FORMATS, FileFormat, SoundTaken};
use ff_plan_layout::PlanError;
use ff_words::{AUDIO_CODECS, Kind};

// The name of a file of the command line.
fn tell_name(told: &mut Told, line: &CommandLine, file: Option<FilePlace>) {
    match file {
        Some(file) => tell_quoted(told, line.word(file.name)),
        None => told.text("an output"),
    }
}

// The format of an output, by its `-f` or by the ending of its name.
fn format_of(line: &CommandLine, file: FilePlace) -> Option<(&'static str, FileFormat)> {
    let asked = line.last_value(file, Kind::Format);
    for (name, ending, format, _read, written) in FORMATS.iter() {
        let is_it = match asked {
            Some(asked) => asked == *name,
            None => *written && !ending.is_empty() && line.word(file.name).ends_with(*ending),
        };
        if is_it {
            return Some((*name, *format));
        }
    }
    None
}

// The audio codecs that are among these.
fn tell_sound_codecs(told: &mut Told, sound: SoundTaken) {
    let mut names = Vec::new(told.alloc);
    for codec in AUDIO_CODECS.iter() {
        if sound.takes(*codec, 1) {
            told.note(names.push(codec.name()));
        }
    }
    tell_listed(told, names.as_slice(), " or ");
}

// What an output of a format takes.
fn tell_taken_by(told: &mut Told, format: FileFormat) {
    let taken = format.taken();
    if !taken.sound.is_some() {
        return told.text("one stream of video");
    }
    if taken.pictures {
        told.text("up to ");
        told.number(taken.streams as u64);
        told.text(" streams, of video and of audio as ");
    } else {
        told.text("one stream of audio, as ");
    }
    tell_sound_codecs(told, taken.sound);
}

// An output whose streams aren't such as its format takes.
fn tell_not_so(told: &mut Told, line: &CommandLine, output: u32, what: &str) {
    let file = line.output(output);
    tell_name(told, line, file);
    told.texts(&[" ", what]);
    if let Some((format, found)) = file.and_then(|file| format_of(line, file)) {
        told.texts(&[": ", format, " takes "]);
        tell_taken_by(told, found);
    }
}

// What an output asks of its streams, by the last option of each kind.
fn tell_asked(told: &mut Told, line: &CommandLine, file: FilePlace) {
    let asking = [
        ("-ar", Kind::Rate),
        ("-ac", Kind::Channels),
        ("-pix_fmt", Kind::Pixels),
        ("-r", Kind::FrameRate),
        ("-s", Kind::Size),
    ];
    for (name, kind) in asking.iter() {
        if let Some(value) = line.last_value(file, *kind) {
            told.texts(&["; ", name, " asks that it has "]);
            tell_quoted(told, value);
            told.text(" already");
        }
    }
}

// An output that can't have a stream.
fn tell_not_taken(told: &mut Told, line: &CommandLine, output: u32, stream: u32) {
    let mut what = Told::new(told.alloc);
    what.text("can't have its stream ");
    what.number(u64::from(stream));
    match what.finish() {
        Ok(what) => tell_not_so(told, line, output, what.as_str()),
        Err(_) => return told.fail(),
    }
    if let Some(file) = line.output(output) {
        tell_asked(told, line, file);
    }
}

fn tell_no_stream(told: &mut Told, line: &CommandLine, output: u32, map: u32) {
    let file = line.output(output);
    match file.and_then(|file| line.own_value(file, Kind::Map, map)) {
        Some(map) => {
            told.text("-map ");
            tell_quoted(told, map);
            told.text(" of ");
            tell_name(told, line, file);
            told.text(" names no stream of the inputs; with ? at its end it may");
        }
        None => {
            told.text("map ");
            told.number(u64::from(map));
            told.text(" of ");
            tell_name(told, line, file);
            told.text(" names no stream of the inputs");
        }
    }
}

fn tell_label(told: &mut Told, label: &str, what: &str) {
    told.text("[");
    tell_clipped(told, label);
    told.texts(&["] ", what]);
}

fn tell_loop(told: &mut Told, line: &CommandLine, graph: u32) {
    told.text("the filters of ");
    match line.value(Kind::Complex, graph) {
        Some(text) => {
            tell_quoted(told, text);
            told.text(" feed each other in a circle, or those of several graphs do");
        }
        None => {
            told.text("graph ");
            told.number(u64::from(graph));
            told.text(" feed each other in a circle");
        }
    }
}

/// Tells why there is no plan.
pub(crate) fn tell_plan(told: &mut Told, line: &CommandLine, why: &PlanError) {
    match why {
        PlanError::NoStream { output, map } => tell_no_stream(told, line, *output, *map),
        PlanError::NoStreams { output } => {
            tell_not_so(told, line, *output, "gets no stream of the inputs");
        }
        PlanError::UnknownLabel { label } => tell_label(
            told,
            label.as_str(),
            "is no output of a graph, and names no stream of an input",
        ),
        PlanError::UnusedLabel { label } => tell_label(
            told,
            label.as_str(),
            "is an output of a graph that no -map and no graph takes",
        ),
        PlanError::LabelTwice { label } => {
            tell_label(told, label.as_str(), "is given twice, or taken twice");
        }
        PlanError::Loop { graph } => tell_loop(told, line, *graph),
        PlanError::Config {
            graph,
            filter,
            kind,
        } => tell_filter(told, line, *graph, *filter, *kind),
        PlanError::Takes { output, stream } => tell_not_taken(told, line, *output, *stream),
        PlanError::TooManyStreams => {
            told.text("the outputs have more than 16 streams together");
        }
        PlanError::TooManyGraphs => {
            told.text("there are more than 16 graphs; each stream of an output has one, too");
        }
        PlanError::TooManySources => {
            told.text("there are more than 16 inputs and source filters together");
        }
        PlanError::NoMemory => told.text("memory ran out"),
    }
}

//! Why a filter can't be had.
use crate::explain::graphs::{Takes, Written, filter_of};
use crate::explain::line::CommandLine;
use crate::explain::nearest::nearest;
use crate::explain::quoted::{tell_clipped, tell_quoted};
use crate::explain::told::Told;
use ff_filters::FILTERS;
use ff_frame::ConfigError;

fn filter_names(told: &mut Told) -> Vec<&'static str> {
    let mut names = Vec::new(told.alloc);
    for (name, _filter, _arguments, _effect) in FILTERS.iter() {
        told.note(names.push(*name));
    }
    names
}

// How a filter is written with its arguments.
fn arguments_of(name: &str) -> &'static str {
    for (own, _filter, arguments, _effect) in FILTERS.iter() {
        if *own == name {
            return *arguments;
        }
    }
    ""
}

fn tell_unknown(told: &mut Told, filter: &Written) {
    let names = filter_names(told);
    told.text("there is no filter ");
    tell_quoted(told, filter.name.as_str());
    match nearest(told, filter.name.as_str(), names.as_slice()) {
        Some(near) => told.texts(&["; the nearest is ", near]),
        None => told.text("; ffmpeg -h lists them"),
    }
}

// What a filter takes instead.
fn tell_arguments(told: &mut Told, filter: &Written, what: &str) {
    let arguments = arguments_of(filter.name.as_str());
    tell_quoted(told, filter.text.as_str());
    told.texts(&[": ", what]);
    if arguments.is_empty() {
        told.text("; ");
        tell_clipped(told, filter.name.as_str());
        told.text(" has no arguments");
    } else {
        told.text("; it is written ");
        tell_clipped(told, filter.name.as_str());
        told.text(arguments);
    }
}

// The kinds of its inputs.
fn kinds(takes: Option<Takes>) -> &'static str {
    match takes {
        Some(Takes::Audio) => "it takes audio, and an input of it is video",
        Some(Takes::InTurn) => "its inputs are video and audio in turn",
        _ => "it takes video, and an input of it is audio",
    }
}

// Why a value is refused, or one that has to be there.
fn bad_option(is_source: bool) -> &'static str {
    if is_source {
        "it has no duration, or doesn't take a value that stands there"
    } else {
        "it doesn't take a value that stands there"
    }
}

// Why pads are refused.
fn bad_pads(is_source: bool) -> &'static str {
    if is_source {
        "it has no input, and one output: it begins a chain of a -filter_complex"
    } else {
        "it has too many labels, or too few inputs or outputs"
    }
}

// What is wrong with a filter.
fn tell_wrong(told: &mut Told, filter: &Written, what: &str) {
    tell_quoted(told, filter.text.as_str());
    told.texts(&[": ", what]);
}

fn tell_of(told: &mut Told, filter: &Written, kind: ConfigError) {
    match kind {
        ConfigError::UnknownFilter => tell_unknown(told, filter),
        ConfigError::UnknownOption => {
            tell_arguments(told, filter, "it has no argument of such a name");
        }
        ConfigError::BadOption => tell_arguments(told, filter, bad_option(filter.is_source)),
        ConfigError::Kind => tell_wrong(told, filter, kinds(filter.takes)),
        ConfigError::Pads => tell_wrong(told, filter, bad_pads(filter.is_source)),
        ConfigError::Mismatch => tell_wrong(
            told,
            filter,
            "its inputs differ where they have to be alike",
        ),
        ConfigError::BadSize => tell_wrong(
            told,
            filter,
            "a frame would be too small or too large, or cut from outside of one",
        ),
        ConfigError::NoMemory => tell_wrong(told, filter, "memory ran out"),
    }
}

/// Tells why a filter of a graph can't be had.
pub(crate) fn tell_filter(
    told: &mut Told,
    line: &CommandLine,
    graph: u32,
    number: u32,
    kind: ConfigError,
) {
    let is_named = kind != ConfigError::UnknownFilter;
    match filter_of(told.alloc, line, graph, number, is_named) {
        Ok(Some(filter)) => tell_of(told, &filter, kind),
        Ok(None) => {
            told.text("filter ");
            told.number(u64::from(number));
            told.text(" of graph ");
            told.number(u64::from(graph));
            told.text(" can't be had; both count from 0");
        }
        Err(_) => told.fail(),
    }
}

//! The faults of a command line.
use crate::explain::line::CommandLine;
use crate::explain::nearest::nearest;
use crate::explain::quoted::{rest_of, tell_clipped, tell_listed, tell_quoted};
use crate::explain::roles::Role;
use crate::explain::told::Told;
use crate::explain::values::{endings, named_values, read_formats, tell_taken};
use ff_time::{TimeError, read_duration};
use ff_words::{Concern, Kind, OPTIONS, WordKind};

fn option_names(told: &mut Told) -> Vec<&'static str> {
    let mut names = Vec::new(told.alloc);
    for (name, _concern, _kind) in OPTIONS.iter() {
        told.note(names.push(*name));
    }
    names
}

fn tell_unknown(told: &mut Told, word: &str) {
    let names = option_names(told);
    tell_clipped(told, word);
    told.text(" isn't an option");
    match nearest(told, word, names.as_slice()) {
        Some(name) => told.texts(&["; the nearest is ", name]),
        None => told.text("; ffmpeg -h lists them"),
    }
}

fn tell_missing(told: &mut Told, line: &CommandLine, place: usize) {
    told.texts(&[line.word(place), " needs a value after it"]);
    if let Some(Role::Named(_, kind)) = line.role(place) {
        told.text(": ");
        tell_taken(told, kind);
    }
}

// A format that is only written, before an input.
fn tell_unread(told: &mut Told, format: &str) {
    let read = read_formats(told);
    told.texts(&[format, " is only written; an input is "]);
    tell_listed(told, read.as_slice(), " or ");
}

fn tell_bad_value(told: &mut Told, line: &CommandLine, place: usize, kind: Kind) {
    let (option, value) = (line.option_of(place), line.word(place));
    let names = named_values(told, kind);
    if kind == Kind::Format && names.contains(&value) {
        return tell_unread(told, value);
    }
    match nearest(told, value, names.as_slice()) {
        Some(name) => {
            told.texts(&[option, " doesn't take "]);
            tell_quoted(told, value);
            told.texts(&["; the nearest is ", name]);
        }
        None => {
            told.texts(&[option, " takes "]);
            tell_taken(told, kind);
            told.text(", not ");
            tell_quoted(told, value);
        }
    }
}

// Whether a word begins with `pipe:` or a protocol, and names no file.
fn is_foreign(word: &str) -> bool {
    match word.split_once("://") {
        Some((scheme, _)) => !scheme.is_empty() && !scheme.contains('/'),
        None => word.starts_with("pipe:"),
    }
}

// The name of an output that is no file, or has no format.
fn tell_bad_output(told: &mut Told, line: &CommandLine, place: usize) {
    let (word, name) = (line.word(place), line.named(place));
    if name.is_empty() {
        return told.text("an output has an empty name");
    }
    told.text("output ");
    tell_quoted(told, word);
    if name == word && is_foreign(word) {
        return told.text(" is no file: an output is a file, or - for standard output");
    }
    told.text(" tells no format: it doesn't end in ");
    let endings = endings(told);
    tell_listed(told, endings.as_slice(), " or ");
    told.text(", and no -f stands before it");
}

fn tell_bad(told: &mut Told, line: &CommandLine, place: usize) {
    match line.role(place) {
        Some(Role::Value(kind)) => tell_bad_value(told, line, place, kind),
        _ => tell_bad_output(told, line, place),
    }
}

// A value that leaves its language at a byte.
fn tell_leaves(told: &mut Told, line: &CommandLine, place: usize, at: usize, what: &str) {
    let value = line.word(place);
    told.texts(&[line.option_of(place), " takes "]);
    told.texts(&[what, "; "]);
    tell_quoted(told, value);
    match rest_of(value, at) {
        None => told.text(" ends too early"),
        Some(rest) => {
            told.text(" is none from ");
            tell_quoted(told, rest);
            told.text(" on");
        }
    }
}

fn tell_bad_time(told: &mut Told, line: &CommandLine, place: usize, at: usize) {
    let (option, value) = (line.option_of(place), line.word(place));
    match read_duration(value.as_bytes()) {
        Ok(_) => told.texts(&[option, " ", value, " isn't after the start of its cut"]),
        Err(TimeError::TooBig) => {
            told.texts(&[option, " takes at most 1000000000 seconds, not "]);
            tell_quoted(told, value);
        }
        Err(_) => tell_leaves(told, line, place, at, "a time, as 90, 1:30, 2.5 or 500ms"),
    }
}

fn tell_misplaced(told: &mut Told, line: &CommandLine, place: usize) {
    told.text(line.word(place));
    told.text(match line.role(place) {
        Some(Role::Named(Concern::Alone, _)) => " stands alone, without other words",
        Some(Role::Named(Concern::Output, _)) => {
            " concerns an output: it stands after all that concerns inputs, before an output's name"
        }
        _ => " concerns the file after it, and there is none",
    });
}

fn tell_too_many(told: &mut Told, line: &CommandLine, place: usize) {
    if place >= 1024 || line.word(place).len() > 65536 {
        return told.text("there are at most 1024 words, each of at most 65536 bytes");
    }
    tell_quoted(told, line.word(place));
    told.text(" is one too many: there are at most 16 ");
    told.text(match line.role(place) {
        Some(Role::Named(_, Kind::Map)) => "maps of an output",
        Some(Role::Named(_, _)) => "filtergraphs over several streams",
        Some(Role::Value(_)) => "inputs",
        _ => "outputs",
    });
}

// Which name is written and stands for another file as well.
fn tell_same_name(told: &mut Told, line: &CommandLine) {
    match line.repeated() {
        Some(name) => {
            tell_quoted(told, name);
            told.text(" would be written, and it is the name of another file of this command");
        }
        None => told.text("standard input is read by one input alone"),
    }
}

/// Tells what is wrong at a word.
pub(crate) fn tell_word(told: &mut Told, line: &CommandLine, place: usize, kind: WordKind) {
    match kind {
        WordKind::UnknownOption => tell_unknown(told, line.word(place)),
        WordKind::MissingValue => tell_missing(told, line, place),
        WordKind::BadValue => tell_bad(told, line, place),
        WordKind::BadTime { at } => tell_bad_time(told, line, place, at),
        WordKind::BadMap { at } => tell_leaves(
            told,
            line,
            place,
            at,
            "a map, as 0, 0:1, 0:a, 0:v:0? or [LABEL]",
        ),
        WordKind::BadGraph { at } => {
            tell_leaves(told, line, place, at, "a filtergraph, as crop=3:2,hflip");
        }
        WordKind::Misplaced => tell_misplaced(told, line, place),
        WordKind::TooMany => tell_too_many(told, line, place),
        WordKind::NoInput => told.text(
            "there is no input: -i NAME reads one, and a graph with color or anullsrc needs none; ffmpeg -h tells the rest",
        ),
        WordKind::NoOutput => told.text("there is no output: its name stands after the inputs"),
        WordKind::SameName => tell_same_name(told, line),
    }
}

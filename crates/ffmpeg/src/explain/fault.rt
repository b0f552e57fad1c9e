//! What a fault is, for a person.
use crate::explain::input::{Known, tell_damaged, tell_unsupported};
use crate::explain::line::{CommandLine, FilePlace};
use crate::explain::plan::tell_plan;
use crate::explain::quoted::tell_quoted;
use crate::explain::told::Told;
use crate::explain::word::tell_word;
use ff_command::{FileRef, Status};
use ff_words::Kind;
use std::alloc::{AllocError, Global};

/// What is known of a fault besides the words and the status.
#[derive(Clone, Copy)]
pub struct Seen<'a> {
    /// The first bytes of the input that the status names, at most `FRONT`; nothing where they can't be read again.
    pub front: Option<&'a [u8]>,
    /// Why a call on the file that the status names failed, where that is known.
    pub cause: Option<&'a str>,
    /// Whether an output was created.
    pub begun: bool,
}

// The input or the output that a status names.
fn file_of(line: &CommandLine, status: &Status) -> Option<FilePlace> {
    match status {
        Status::Device {
            file: FileRef::Input(input),
        } => line.input(*input),
        Status::Device {
            file: FileRef::Output(output),
        } => line.output(*output),
        Status::Damaged { input, .. } | Status::Unsupported { input, .. } => line.input(*input),
        Status::TooLarge { output } => line.output(*output),
        _ => None,
    }
}

// The name of the file that a status names; of several traces the last counts.
fn name_in<'a>(line: &CommandLine<'a>, words: usize, status: &Status) -> Option<&'a str> {
    if let Status::Device {
        file: FileRef::Trace,
    } = status
    {
        let all = FilePlace {
            first: 0,
            name: words,
        };
        let name = line.last_value(all, Kind::Trace)?;
        return Some(name.strip_prefix("file:").unwrap_or(name));
    }
    file_of(line, status).map(|file| line.named(file.name))
}

/// The name of the file that a status names, if it names one.
pub fn named_file<'a>(
    alloc: Global,
    words: &'a [String],
    status: &Status,
) -> Result<Option<&'a str>, AllocError> {
    let line = CommandLine::new(alloc, words)?;
    Ok(name_in(&line, words.len(), status))
}

// Why a file failed. One that is kept had no call that could fail.
fn cause_of<'a>(line: &CommandLine, file: FileRef, cause: Option<&'a str>) -> Option<&'a str> {
    match (cause, file) {
        (None, FileRef::Output(_) | FileRef::Trace) if line.keeps_files() => {
            Some("it is there, and -n keeps it")
        }
        _ => cause,
    }
}

// A call on a file that failed.
fn tell_device(told: &mut Told, name: &str, file: FileRef, cause: Option<&str>) {
    tell_quoted(told, name);
    told.text(match file {
        FileRef::Input(_) => " can't be read",
        FileRef::Output(_) | FileRef::Trace => " can't be written",
    });
    if let Some(cause) = cause {
        told.texts(&[": ", cause]);
    }
}

fn tell_too_large(told: &mut Told, name: &str) {
    tell_quoted(told, name);
    told.text(" would pass 4 GiB, the most that a WAV holds; -rf64 auto writes a longer one");
}

// Tells what the fault is of a status on this file; nothing where there is none.
fn tell_status(told: &mut Told, line: &CommandLine, status: &Status, name: &str, seen: &Seen) {
    let front = seen.front;
    match status {
        Status::Fine => {}
        Status::Words { word, kind } => tell_word(told, line, *word as usize, *kind),
        Status::Plan(why) => tell_plan(told, line, why),
        Status::Device { file } => tell_device(
            told,
            name,
            *file,
            cause_of(line, *file, seen.cause),
        ),
        Status::Damaged { input, offset } => {
            let (input, offset) = (*input, *offset);
            let known = Known {
                input,
                offset,
                front,
            };
            tell_damaged(told, line, known, seen.begun);
        }
        Status::Unsupported { input, offset } => {
            let (input, offset) = (*input, *offset);
            let known = Known {
                input,
                offset,
                front,
            };
            tell_unsupported(told, line, known);
        }
        Status::TooLong { .. } => told.text(
            "a stream lasts past 1000000000 seconds, or has more packets than it may",
        ),
        Status::TooLarge { .. } => tell_too_large(told, name),
        Status::NoMemory => told.text("memory ran out; -thread_queue_size 1 holds least"),
    }
}

/// The line that tells a person what the fault is, with LF at its end; nothing where there is none.
pub fn explain(
    alloc: Global,
    words: &[String],
    status: &Status,
    seen: &Seen,
) -> Result<Option<String>, AllocError> {
    if let Status::Fine = status {
        return Ok(None);
    }
    let line = CommandLine::new(alloc, words)?;
    let name = name_in(&line, words.len(), status).unwrap_or("");
    let mut told = Told::new(alloc);
    told.text("ffmpeg: ");
    tell_status(&mut told, &line, status, name, seen);
    told.text(if seen.begun {
        "; what was written until then stays\n"
    } else {
        "\n"
    });
    Ok(Some(told.finish()?))
}

//! Where the log goes.
use crate::explain::CommandLine;
use either::Either;
use std::alloc::Global;
use std::fs;
use std::fs::Metadata;
use std::io::{IsTerminal, Stderr, Stdout};
use std::os::unix::fs::MetadataExt;

/// Standard output, or standard error.
pub type LogWriter = Either<Stdout, Stderr>;

// Whether two files are one.
fn is_one(a: &Metadata, b: &Metadata) -> bool {
    a.dev() == b.dev() && a.ino() == b.ino()
}

// Whether an output of these words is standard output, by whichever name.
fn is_output(rt: &HostRuntime, alloc: Global, words: &[String]) -> bool {
    let Ok(standard) = fs::metadata(rt, "/dev/stdout") else {
        return false;
    };
    let Ok(line) = CommandLine::new(alloc, words) else {
        return false;
    };
    for place in 0..words.len() {
        if let Some(name) = line.output_at(place)
            && let Ok(file) = fs::metadata(rt, name)
            && is_one(&standard, &file)
        {
            return true;
        }
    }
    false
}

/// The log: standard output, or standard error where an output of these words is standard output.
pub fn log_of(rt: &HostRuntime, alloc: Global, words: &[String]) -> LogWriter {
    if is_output(rt, alloc, words) {
        Either::Right(rt.stderr())
    } else {
        Either::Left(rt.stdout())
    }
}

/// Whether the log is standard error, or one file or pipe with it, whose readers want the line of the log alone. At a
/// terminal a person reads both.
pub fn is_log(rt: &HostRuntime, log: &LogWriter) -> bool {
    if rt.stderr().is_terminal() {
        return false;
    }
    if let Either::Right(_) = log {
        return true;
    }
    match (
        fs::metadata(rt, "/dev/stdout"),
        fs::metadata(rt, "/dev/stderr"),
    ) {
        (Ok(log), Ok(errors)) => is_one(&log, &errors),
        _ => false,
    }
}

//! What is said of a fault on standard error, beside the line of the log.
use crate::explain::{FRONT, Seen, explain, named_file, tells_faults};
use crate::log::{LogWriter, is_log};
use crate::words::WordsEnd;
use ff_command::{Line, Report, Status};
use ff_host_file::FileHost;
use std::alloc::{AllocError, Global};
use std::fs;
use std::io::{Eprint, Read};

// Says a line on standard error, where that is another file than the log.
fn say(rt: &HostRuntime, log: &LogWriter, line: &str) {
    if !is_log(rt, log) {
        let _ = rt.eprint(line);
    }
}

// The first bytes of a plain file; nothing of a pipe, which gives them once.
fn front_of(rt: &HostRuntime, alloc: Global, name: &str) -> Option<Vec<u8>> {
    if !fs::metadata(rt, name).ok()?.is_file() {
        return None;
    }
    let mut file = fs::open(rt, name).ok()?;
    let mut front = vec![in alloc; 0; FRONT].ok()?;
    let mut length = 0;
    for _ in 0..FRONT {
        let count = file.read(front.as_mut_slice().get_mut(length..)?).ok()?;
        if count == 0 {
            break;
        }
        length = length.saturating_add(count);
    }
    front.truncate(length);
    Some(front)
}

// The first bytes of the file that a status names, where it speaks of them.
fn front_for(
    rt: &HostRuntime,
    alloc: Global,
    status: &Status,
    name: Option<&str>,
) -> Option<Vec<u8>> {
    match status {
        Status::Damaged { .. } | Status::Unsupported { .. } => front_of(rt, alloc, name?),
        _ => None,
    }
}

// Why calls on a file failed.
fn cause_for(alloc: Global, host: &FileHost<HostRuntime>, name: Option<&str>) -> Option<String> {
    host.cause(name?)?.text(alloc).ok()
}

// The line of a fault.
fn line_of(
    rt: &HostRuntime,
    alloc: Global,
    words: &[String],
    host: &FileHost<HostRuntime>,
    status: &Status,
) -> Result<Option<String>, AllocError> {
    let name = named_file(alloc, words, status)?;
    let front = front_for(rt, alloc, status, name);
    let cause = cause_for(alloc, host, name);
    let seen = Seen {
        front: front.as_ref().map(|front| front.as_slice()),
        cause: cause.as_ref().map(|cause| cause.as_str()),
        begun: host.has_created(),
    };
    explain(alloc, words, status, &seen)
}

/// Says why the arguments behind these couldn't be handed in.
pub fn tell_end(rt: &HostRuntime, alloc: Global, log: &LogWriter, words: &[String], end: WordsEnd) {
    if !tells_faults(words) {
        return;
    }
    match end {
        WordsEnd::NotText { word } => {
            if let Ok(line) = format!(in alloc;
                "ffmpeg: argument {word}, counted from 0, isn't UTF-8\n"
            ) {
                say(rt, log, line.as_str());
            }
        }
        WordsEnd::NoMemory => say(rt, log, "ffmpeg: memory ran out\n"),
    }
}

/// Says what the fault of a run is, unless the words ask for less to be said.
pub fn tell(
    rt: &HostRuntime,
    alloc: Global,
    log: &LogWriter,
    words: &[String],
    host: &FileHost<HostRuntime>,
    report: &Report,
) {
    if !tells_faults(words) {
        return;
    }
    if let Line::Failed = report.line
        && let Status::Fine = &report.status
    {
        say(rt, log, "ffmpeg: standard output can't be written\n");
        return;
    }
    if let Ok(Some(line)) = line_of(rt, alloc, words, host, &report.status) {
        say(rt, log, line.as_str());
    }
}

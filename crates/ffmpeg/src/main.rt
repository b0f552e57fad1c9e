//! The program: it hands its arguments, the machine's files and the log to the command, and ends with the number
//! of the report. The command itself is `ff_run::ffmpeg`, the files are those of `ff_host_file`.
#![tactic(auto)]

mod explain;
mod fault;
mod log;
mod words;

ghost use Rattle.std.specs.Prelude.{◌≢◌};

use explain::tells_progress;
use fault::{tell, tell_end};
use ff_command::{Status, exit_number, fault_line, status_number};
use ff_host::Sink;
use ff_host_file::{FileHost, LogSink};
use ff_run::ffmpeg;
use ff_words::WordKind;
use log::log_of;
use std::alloc::Global;
use std::io::IsTerminal;
use std::process::ExitCode;
use words::{WordsEnd, read_words};

// Logs why the command isn't even called, and answers the number of that status.
fn refuse(alloc: Global, log: &mut impl Sink, status: &Status) -> u8
    requires due { status.now ≢ Status.Fine }
{
    if let Ok(line) = fault_line(alloc, status, "") {
        let _ = log.append(&line);
    }
    status_number(status)
}

// The status of arguments that couldn't be handed in.
fn status_of(end: WordsEnd) -> Status
    ensures due { result ≢ Status.Fine }
{
    match end {
        WordsEnd::NotText { word } => Status::Words {
            word,
            kind: WordKind::UnknownOption,
        },
        WordsEnd::NoMemory => Status::NoMemory,
    }
}

fn main(rt: HostRuntime) -> ExitCode {
    let alloc = rt.alloc();
    let mut words = Vec::new(alloc);
    let read = read_words(&rt, alloc, &mut words);
    let writer = log_of(&rt, alloc, words.as_slice());
    let mut log = LogSink::new(writer);
    if let Err(end) = read {
        let number = refuse(alloc, &mut log, &status_of(end));
        tell_end(&rt, alloc, &writer, words.as_slice(), end);
        return ExitCode::from(number);
    }
    let Ok(files) = rt.clone() else {
        return ExitCode::from(refuse(alloc, &mut log, &Status::NoMemory));
    };
    let mut host = FileHost::new(alloc, files);
    if rt.stderr().is_terminal() && tells_progress(words.as_slice()) {
        host.show_progress();
    }
    let report = ffmpeg(&rt, alloc, &words, &mut host, &mut log);
    tell(&rt, alloc, &writer, words.as_slice(), &host, &report);
    ExitCode::from(exit_number(&report))
}

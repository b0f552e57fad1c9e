//! Rows of the whole command: a run over a host in memory, and what must come of it.
use crate::noting_host::NotingHost;
use ff_command::status_number;
use ff_host::{FailAt, Host, HostCall, MemHost};
use ff_rows_calls::{Stop, bytes_of, escaped, halves, plain, plain_text, printable};
use ff_run::ffmpeg;
use std::alloc::{AllocError, Global};
use std::sync::Wait;
use std::thread::Threads;

/// A file before a run: its name and its bytes.
pub type Given = (String, Vec<u8>);

/// What a run left.
#[derive(Drop)]
pub struct Left {
    host: NotingHost,
    log: Vec<u8>,
    status: u8,
}

// The kind of a call that is planned to fail.
fn call_of(word: &str) -> Result<HostCall, Stop> {
    match word {
        "open" => Ok(HostCall::OpenSource),
        "read" => Ok(HostCall::Read),
        "create" => Ok(HostCall::Create),
        "append" => Ok(HostCall::Append),
        "patch" => Ok(HostCall::Patch),
        "close" => Ok(HostCall::CloseSink),
        _ => Err(Stop::Unreadable),
    }
}

/// The planned failure of a line `NAME CALL N`.
pub fn failure_of(alloc: Global, line: &str) -> Result<FailAt, Stop> {
    let (name, rest) = halves(line);
    let (call, number) = halves(rest);
    Ok(FailAt {
        name: plain_text(alloc, name)?,
        call: call_of(call)?,
        number: number.parse::<u32>()?,
    })
}

/// Runs the command of these arguments over these files.
pub fn run_command<R: Threads + Wait + Sync>(
    rt: &R,
    alloc: Global,
    files: Vec<Given>,
    fails: Vec<FailAt>,
    words: &[String],
) -> Result<Left, Stop> {
    let mut host = NotingHost::new(alloc, MemHost::new(alloc, files, fails)?);
    let mut logs = MemHost::new(alloc, Vec::new(alloc), Vec::new(alloc))?;
    let Ok(mut log) = logs.create_sink("log") else {
        return Err(Stop::Broken);
    };
    let report = ffmpeg(rt, alloc, words, &mut host, &mut log);
    Ok(Left {
        host,
        log: log.bytes().to_vec(alloc)?,
        status: status_number(&report.status),
    })
}

// Whether a status is among the numbers of a line.
fn is_status(status: u8, line: &str) -> bool {
    for word in line.split(' ') {
        if word.parse::<u8>() == Ok(status) {
            return true;
        }
    }
    false
}

// Whether the log gained exactly this string and LF.
fn is_log(alloc: Global, log: &[u8], text: &str) -> Result<bool, Stop> {
    let mut line = plain(alloc, text)?;
    line.push(b'\n')?;
    Ok(line.as_slice() == log)
}

// Whether a file holds a prefix of the first bytes, or exactly the second ones.
fn is_front(alloc: Global, bytes: &[u8], line: &str) -> Result<bool, Stop> {
    let (first, second) = halves(line);
    let whole = bytes_of(alloc, first)?;
    let other = bytes_of(alloc, second)?;
    Ok(whole.starts_with(bytes) || second != "" && other.as_slice() == bytes)
}

// Whether a file is as this expectation has it.
fn is_file(alloc: Global, file: Option<&[u8]>, kind: &str, rest: &str) -> Result<bool, Stop> {
    let Some(bytes) = file else {
        return Ok(kind == "absent");
    };
    match kind {
        "holds" => Ok(bytes_of(alloc, rest)?.as_slice() == bytes),
        "holds-text" => Ok(plain(alloc, rest)?.as_slice() == bytes),
        "front" => is_front(alloc, bytes, rest),
        "front-text" => Ok(plain(alloc, rest)?.starts_with(bytes)),
        "there" => Ok(true),
        "absent" => Ok(false),
        _ => Err(Stop::Unreadable),
    }
}

/// The bytes of the file of a name among these.
pub fn given_bytes<'a>(given: &'a [Given], name: &str) -> Option<&'a [u8]> {
    for file in given {
        if file.0.as_str() == name {
            return Some(file.1.as_slice());
        }
    }
    None
}

// Whether a count is the number of a line.
fn is_count(count: u64, number: &str) -> bool {
    number.parse::<u64>() == Ok(count)
}

/// Whether an expectation speaks of a file.
pub fn speaks_of_file(kind: &str) -> bool {
    matches!(
        kind,
        "holds" | "holds-text" | "front" | "front-text" | "there" | "absent" | "same"
    )
}

impl Left {
    /// The names on which sinks were to be created.
    pub fn created_names(&self) -> &[String] {
        self.host.created_names()
    }

    /// Whether the number of a line `if N ..` is the status.
    pub fn has_status(&self, number: &str) -> bool {
        is_status(self.status, number)
    }

    // Whether an expectation on this name holds.
    fn meets_on_name(
        &self,
        alloc: Global,
        given: &[Given],
        kind: &str,
        name: &str,
        rest: &str,
    ) -> Result<bool, Stop> {
        let file = self.host.files().file(name);
        match kind {
            "same" => Ok(file == given_bytes(given, name)),
            "in-faults" => Ok(is_count(self.host.files().in_faults(name), rest)),
            "out-faults" => Ok(is_count(self.host.files().out_faults(name), rest)),
            _ => is_file(alloc, file, kind, rest),
        }
    }

    /// Whether an expectation holds.
    pub fn meets(
        &self,
        alloc: Global,
        given: &[Given],
        kind: &str,
        rest: &str,
    ) -> Result<bool, Stop> {
        match kind {
            "status" => Ok(is_status(self.status, rest)),
            "quiet" => Ok(self.log.is_empty()),
            "line" => is_log(alloc, self.log.as_slice(), rest),
            _ => {
                let (name, rest) = halves(rest);
                let name = plain_text(alloc, name)?;
                self.meets_on_name(alloc, given, kind, name.as_str(), rest)
            }
        }
    }

    // The log, as a line of a table.
    fn log_line(&self, alloc: Global) -> Result<String, Stop> {
        if self.log.is_empty() {
            return Ok(String::from_str(alloc, "quiet")?);
        }
        let Some(text) = printable(self.log.as_slice()) else {
            return Ok(String::from_str(alloc, "no line that can be printed")?);
        };
        let text = escaped(alloc, text.strip_suffix('\n').unwrap_or(text), false)?;
        Ok(format!(in alloc; "line {text}")?)
    }

    // A file, as a line of a table; its name stands as the table has it.
    fn file_line(&self, alloc: Global, word: &str, as_text: bool) -> Result<String, Stop> {
        let name = plain_text(alloc, word)?;
        let Some(bytes) = self.host.files().file(name.as_str()) else {
            return Ok(format!(in alloc; "absent {word}")?);
        };
        if let Some(text) = printable(bytes)
            && as_text
        {
            let text = escaped(alloc, text, false)?;
            return Ok(format!(in alloc; "holds-text {word} {text}")?);
        }
        let text = hex::encode(alloc, bytes)?;
        Ok(format!(in alloc; "holds {word} {text}")?)
    }

    // The counts of failures under a name, as a line of a table.
    fn faults_line(&self, alloc: Global, kind: &str, word: &str) -> Result<String, Stop> {
        let name = plain_text(alloc, word)?;
        let count = match kind {
            "in-faults" => self.host.files().in_faults(name.as_str()),
            _ => self.host.files().out_faults(name.as_str()),
        };
        Ok(format!(in alloc; "{kind} {word} {count}")?)
    }

    /// What came in place of an expectation, as a line of a table.
    pub fn came(&self, alloc: Global, kind: &str, rest: &str) -> Result<String, Stop> {
        let (word, _) = halves(rest);
        match kind {
            "status" => Ok(format!(in alloc; "status {}", self.status)?),
            "quiet" | "line" => self.log_line(alloc),
            "in-faults" | "out-faults" => self.faults_line(alloc, kind, word),
            "holds" | "front" => self.file_line(alloc, word, false),
            _ => self.file_line(alloc, word, true),
        }
    }
}

//! Inputs, command lines and one run of the command, which the tests share.
use ff_command::{Line, Report, status_number};
use ff_host::{FailAt, Host, MemHost, MemSink};
use ff_run::ffmpeg;
use std::alloc::{AllocError, Global};
use std::sync::Wait;
use std::thread::Threads;

/// The arguments of a command.
pub const WORDS: [&str; 7] = ["-i", "in.wav", "-c:a", "pcm_u8", "-f", "framehash", "out"];

/// The lines of an output at 8,000 sample frames a second, before those of the packets.
pub const HEADER: &str =
    "#format: frame checksums\n#version: 2\n#hash: SHA256\n#tb 0: 1/8000\n#media_type 0: audio\n#codec_id 0: pcm_u8\n#sample_rate 0: 8000\n#channel_layout_name 0: mono\n#stream#, dts,        pts, duration,     size, hash\n";

/// SHA-256 of 1,024 times the letter a.
pub const FULL: &str = "2edc986847e209b4016e141a6dc8716d3207350f416969382d431539bf292e4a";

/// The bytes of an input of 8-bit samples on one channel, at 8,000 sample frames a second: its head, and then a body.
pub fn input(alloc: Global, body: &[u8]) -> Result<Vec<u8>, AllocError> {
    let mut bytes = Vec::new(alloc);
    bytes.extend_from_slice(
        b"RIFF\x28\0\0\0WAVEfmt \x10\0\0\0\x01\0\x01\0\x40\x1f\0\0\x40\x1f\0\0\x01\0\x08\0data",
    )?;
    let size = u32::try_from(body.len()).unwrap_or(u32::MAX);
    bytes.extend_from_slice(&size.to_le_bytes())?;
    bytes.extend_from_slice(body)?;
    Ok(bytes)
}

/// The bytes of a WAV file of 16-bit samples on one channel, at 8,000 sample frames a second. Its head has these two
/// sizes, and it has this body.
pub fn sized(alloc: Global, riff: u32, data: u32, body: &[u8]) -> Result<Vec<u8>, AllocError> {
    let mut bytes = Vec::new(alloc);
    bytes.extend_from_slice(b"RIFF")?;
    bytes.extend_from_slice(&riff.to_le_bytes())?;
    bytes.extend_from_slice(
        b"WAVEfmt \x10\0\0\0\x01\0\x01\0\x40\x1f\0\0\x80\x3e\0\0\x02\0\x10\0data",
    )?;
    bytes.extend_from_slice(&data.to_le_bytes())?;
    bytes.extend_from_slice(body)?;
    Ok(bytes)
}

/// The same, whole, of a body of fewer than 2^31 bytes.
pub fn mono(alloc: Global, body: &[u8]) -> Result<Vec<u8>, AllocError> {
    let size = u32::try_from(body.len()).unwrap_or(0);
    sized(alloc, size.saturating_add(36), size, body)
}

/// Arguments of these strings.
pub fn words_of(alloc: Global, texts: &[&str]) -> Result<Vec<String>, AllocError> {
    let mut words = Vec::new(alloc);
    for text in texts {
        words.push(String::from_str(alloc, text)?)?;
    }
    Ok(words)
}

/// A host with this `in.wav`, and nothing else.
pub fn host_of(alloc: Global, bytes: Vec<u8>) -> Result<MemHost, AllocError> {
    let mut files = Vec::new(alloc);
    files.push((String::from_str(alloc, "in.wav")?, bytes))?;
    MemHost::new(alloc, files, Vec::new(alloc))
}

/// An empty log, whose calls fail as planned under the name `log`.
pub fn log_of(alloc: Global, fails: Vec<FailAt>) -> Result<MemSink, AllocError> {
    let mut host = MemHost::new(alloc, Vec::new(alloc), fails)?;
    match host.create_sink("log") {
        Ok(log) => Ok(log),
        Err(_) => Err(AllocError),
    }
}

/// Runs the command of these arguments over this host.
pub fn run<R: Threads + Wait + Sync, H: Host>(
    rt: &R,
    alloc: Global,
    texts: &[&str],
    host: &mut H,
    log: &mut MemSink,
) -> Result<Report, AllocError> {
    let words = words_of(alloc, texts)?;
    Ok(ffmpeg(rt, alloc, &words, host, log))
}

/// Whether the command of these arguments over this host comes to this number and logs this string. It has to have a
/// history and reads exactly where all was done.
pub fn comes_to<R: Threads + Wait + Sync, H: Host>(
    rt: &R,
    alloc: Global,
    texts: &[&str],
    host: &mut H,
    number: u8,
    text: &str,
) -> Result<bool, AllocError> {
    let mut log = log_of(alloc, Vec::new(alloc))?;
    let report = run(rt, alloc, texts, host, &mut log)?;
    let reported = (report.history.events().is_empty() != (number == 0))
        & (report.reads.is_empty() != (number == 0));
    let line = if text.is_empty() {
        Line::NotDue
    } else {
        Line::Whole
    };
    let said = (report.line == line) & (log.bytes() == text.as_bytes());
    Ok(reported & said & (status_number(&report.status) == number))
}

//! Tests with as many inputs and outputs as there may be.
ghost use Rattle.std.specs.Prelude.{◌<◌};

use crate::runs::{input, log_of};
use ff_command::Status;
use ff_host::QuietHost;
use ff_run::ffmpeg;
use std::alloc::{AllocError, Global};
use std::sync::Wait;
use std::thread::Threads;

/// So many inputs, and outputs.
const FILES: usize = 16;

// Input number k: 3,000 samples of one value each.
fn body(alloc: Global, k: usize) -> Result<Vec<u8>, AllocError>
    requires { k < 16 }
{
    vec![in alloc; 100 + k as u8; 3_000]
}

// The arguments of as many outputs as inputs, the last input to the first output, with queues of this size.
fn words(alloc: Global, size: usize) -> Result<Vec<String>, AllocError> {
    let mut words = Vec::new(alloc);
    words.push(String::from_str(alloc, "-thread_queue_size")?)?;
    words.push(format!(in alloc; "{size}")?)?;
    for k in 0..FILES {
        words.push(String::from_str(alloc, "-i")?)?;
        words.push(format!(in alloc; "i{k}")?)?;
    }
    for k in 0..FILES {
        let last = FILES - 1 - k;
        words.push(String::from_str(alloc, "-map")?)?;
        words.push(format!(in alloc; "{last}:a")?)?;
        words.push(String::from_str(alloc, "-c:a")?)?;
        words.push(String::from_str(alloc, "pcm_u8")?)?;
        words.push(format!(in alloc; "o{k}.wav")?)?;
    }
    Ok(words)
}

fn host(alloc: Global) -> Result<QuietHost, AllocError> {
    let mut files = Vec::new(alloc);
    for k in 0..FILES {
        files.push((format!(in alloc; "i{k}")?, input(alloc, &body(alloc, k)?)?))?;
    }
    QuietHost::new(alloc, files)
}

// Whether output k holds the samples of its input, after a header of 44 bytes.
fn holds(alloc: Global, host: &QuietHost, k: usize) -> Result<bool, AllocError>
    requires { k < 16 }
{
    let name = format!(in alloc; "o{k}.wav")?;
    let expected = body(alloc, FILES - 1 - k)?;
    Ok(match host.file(name.as_str()) {
        Some(bytes) => bytes.get(44..) == Some(expected.as_slice()),
        None => false,
    })
}

// Whether one run of the command is as it should be.
fn runs<R: Threads + Wait + Sync>(
    rt: &R,
    alloc: Global,
    words: &[String],
) -> Result<bool, AllocError> {
    let mut host = host(alloc)?;
    let mut log = log_of(alloc, Vec::new(alloc))?;
    let report = ffmpeg(rt, alloc, words, &mut host, &mut log);
    let mut right = matches!(report.status, Status::Fine);
    for k in 0..FILES {
        right = right & holds(alloc, &host, k)?;
    }
    Ok(right)
}

// 96 threads, 50 times by each of four sizes.
#[test]
fn one_result(rt: HostRuntime) -> Result<(), AllocError> {
    let alloc = rt.alloc();
    for size in [1, 2, 8, 1024] {
        let words = words(alloc, size)?;
        for _ in 0..50 {
            assert!(rt; runs(&rt, alloc, &words)?);
        }
    }
    Ok(())
}

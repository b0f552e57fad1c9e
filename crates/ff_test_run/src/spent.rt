//! A test of an input that its graph is done with long before it ends.
use crate::runs::{input, log_of, run};
use ff_command::Status;
use ff_host::MemHost;
use std::alloc::{AllocError, Global};

/// One second of the first input, and behind it the second one.
const WORDS: [&str; 13] = [
    "-thread_queue_size",
    "1",
    "-i",
    "long.wav",
    "-i",
    "short.wav",
    "-filter_complex",
    "[0:a]atrim=end=1[t];[t][1:a]concat=v=0:a=1[o]",
    "-map",
    "[o]",
    "-c:a",
    "pcm_u8",
    "o.wav",
];

// The first input has 400 packets, the second 4.
fn host(alloc: Global) -> Result<MemHost, AllocError> {
    let long = input(alloc, &vec![in alloc; b'a'; 400 * 1024]?)?;
    let short = input(alloc, &vec![in alloc; b'b'; 4 * 1024]?)?;
    let mut files = Vec::new(alloc);
    files.push((String::from_str(alloc, "long.wav")?, long))?;
    files.push((String::from_str(alloc, "short.wav")?, short))?;
    MemHost::new(alloc, files, Vec::new(alloc))
}

// The samples of the output.
fn samples(alloc: Global) -> Result<Vec<u8>, AllocError> {
    let mut samples = vec![in alloc; b'a'; 8_000]?;
    samples.extend_from_slice(&vec![in alloc; b'b'; 4 * 1024]?)?;
    Ok(samples)
}

// The second has 8,000 samples, which are eight packets. What waits in the queues is read besides, and no more.
#[test]
fn source_of_a_spent_input_stops(rt: HostRuntime) -> Result<(), AllocError> {
    let alloc = rt.alloc();
    let expected = samples(alloc)?;
    let mut host = host(alloc)?;
    let mut log = log_of(alloc, Vec::new(alloc))?;
    let report = run(&rt, alloc, &WORDS, &mut host, &mut log)?;
    assert!(rt; matches!(report.status, Status::Fine));
    let held = match host.file("o.wav") {
        Some(bytes) => bytes.get(44..) == Some(expected.as_slice()),
        None => false,
    };
    assert!(rt; held);
    let few = match report.reads.first() {
        Some(reads) => reads.len() < 40,
        None => false,
    };
    assert!(rt; few);
    Ok(())
}

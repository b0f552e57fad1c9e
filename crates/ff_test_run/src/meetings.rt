//! Tests with two sources that wait for each other.
use crate::runs::{comes_to, input};
use ff_host::MeetHost;
use std::alloc::{AllocError, Global};

/// Past both heads, and past what is read with them.
const OFFSET: u64 = 4_096;

// An input of 70,000 samples of 8 bits.
fn long_input(alloc: Global) -> Result<Vec<u8>, AllocError> {
    let body = vec![in alloc; 200u8; 70_000]?;
    input(alloc, &body)
}

// Two inputs, each of which is read on only once the other is too: a run that read one after the other would fail.
#[test]
fn two_sources_meet(rt: HostRuntime) -> Result<(), AllocError> {
    let alloc = rt.alloc();
    let mut files = Vec::new(alloc);
    files.push((String::from_str(alloc, "a.wav")?, long_input(alloc)?))?;
    files.push((String::from_str(alloc, "b.wav")?, long_input(alloc)?))?;
    let mut host = MeetHost::new(alloc, files, OFFSET)?;
    let words = [
        "-i", "a.wav", "-i", "b.wav", "-map", "0:a", "o1.wav", "-map", "1:a", "o2.wav",
    ];
    assert!(rt; comes_to(&rt, alloc, &words, &mut host, 0, "")?);
    assert_eq!(rt; host.file("o1.wav"), host.file("o2.wav"));
    Ok(())
}

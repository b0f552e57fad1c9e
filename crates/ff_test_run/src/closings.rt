//! Tests of the order in which files are closed.
use crate::counting_host::CountingHost;
use crate::runs::{comes_to, input};
use ff_host::MemHost;
use std::alloc::AllocError;

// The sources are closed before the sinks, both by number, and the trace is closed last.
#[test]
fn sources_before_sinks(rt: HostRuntime) -> Result<(), AllocError> {
    let alloc = rt.alloc();
    let mut files = Vec::new(alloc);
    files.push((String::from_str(alloc, "b.wav")?, input(alloc, b"bb")?))?;
    files.push((String::from_str(alloc, "a.wav")?, input(alloc, b"aa")?))?;
    let mut host = CountingHost::new(alloc, MemHost::new(alloc, files, Vec::new(alloc))?);
    let words = [
        "-sched_trace",
        "t",
        "-i",
        "b.wav",
        "-i",
        "a.wav",
        "-map",
        "0:a",
        "o2.wav",
        "-map",
        "1:a",
        "o1.wav",
    ];
    assert!(rt; comes_to(&rt, alloc, &words, &mut host, 0, "")?);
    assert!(rt; host.has_closed(&["b.wav", "a.wav", "o2.wav", "o1.wav", "t"]));
    Ok(())
}

//! Tests where each call on the host fails once, in a command of one input and one output.
use crate::failing::{Job, fails_well};
use crate::runs::{mono, sized, words_of};
use ff_host::HostCall;
use std::alloc::{AllocError, Global};

/// The bytes of 24,000 samples: 23 packets of 1,024 and a shorter one.
const BODY: usize = 48_000;

// A copy of a file, over queues of this size. The sizes in the head of the output are 0 before they are known.
fn copy(alloc: Global, size: &str) -> Result<Job, AllocError> {
    let body = vec![in alloc; 200u8; BODY]?;
    let words = ["-thread_queue_size", size, "-i", "in.wav", "out.wav"];
    let mut inputs = Vec::new(alloc);
    inputs.push((String::from_str(alloc, "in.wav")?, mono(alloc, &body)?))?;
    Ok(Job {
        words: words_of(alloc, &words)?,
        inputs,
        output: String::from_str(alloc, "out.wav")?,
        appended: sized(alloc, 0, 0, &body)?,
        finished: mono(alloc, &body)?,
    })
}

// The input is opened once, and read for its head and then for the rest.
#[test]
fn each_call_of_an_input(rt: HostRuntime) -> Result<(), AllocError> {
    let due = [(HostCall::OpenSource, 1), (HostCall::Read, 2)];
    for size in ["1", "8"] {
        let job = copy(rt.alloc(), size)?;
        assert!(rt; fails_well(&rt, rt.alloc(), &job, "in.wav", &due)?);
    }
    Ok(())
}

// The output is created once, gets its header and 24 packets, has its sizes put right once and is closed once.
#[test]
fn each_call_of_an_output(rt: HostRuntime) -> Result<(), AllocError> {
    let due = [
        (HostCall::Create, 1),
        (HostCall::Append, 25),
        (HostCall::Patch, 1),
        (HostCall::CloseSink, 1),
    ];
    for size in ["1", "8"] {
        let job = copy(rt.alloc(), size)?;
        assert!(rt; fails_well(&rt, rt.alloc(), &job, "out.wav", &due)?);
    }
    Ok(())
}

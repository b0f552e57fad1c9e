//! Tests with a large input.
use crate::gate::Pace;
use crate::gate_host::GateHost;
use crate::runs::{FULL, HEADER, WORDS, comes_to, host_of, input, mono};
use ff_host::Host;
use std::alloc::{AllocError, Global};
use std::sync::Wait;
use std::thread::Threads;

/// How many packets of 1,024 bytes a body of 1 MB has.
const PACKETS: usize = 1024;

// An input of 1,048,576 times the letter a.
fn large_input(alloc: Global) -> Result<Vec<u8>, AllocError> {
    let body = vec![in alloc; b'a'; PACKETS * 1024]?;
    input(alloc, &body)
}

// Its output.
fn large_output(alloc: Global) -> Result<String, AllocError> {
    let mut text = String::from_str(alloc, HEADER)?;
    for packet in 0..PACKETS {
        let time = packet * 1024;
        let line = format!(in alloc; "0, {time:>10}, {time:>10},     1024,     1024, {FULL}\n")?;
        text.push_str(&line)?;
    }
    Ok(text)
}

// Whether the command of these inputs is fine over this host.
fn is_fine<R: Threads + Wait + Sync, H: Host>(
    rt: &R,
    alloc: Global,
    host: &mut H,
) -> Result<bool, AllocError> {
    comes_to(rt, alloc, &WORDS, host, 0, "")
}

#[test]
fn one_megabyte(rt: HostRuntime) -> Result<(), AllocError> {
    let alloc = rt.alloc();
    let output = large_output(alloc)?;
    let mut host = host_of(alloc, large_input(alloc)?)?;
    assert!(rt; is_fine(&rt, alloc, &mut host)?);
    assert_eq!(rt; host.file("out"), Some(output.as_bytes()));
    Ok(())
}

// The input is read further only once the output has begun: a run that read it whole before would wait in vain and fail.
#[test]
fn reading_waits_for_writing(rt: HostRuntime) -> Result<(), AllocError> {
    let alloc = rt.alloc();
    let output = large_output(alloc)?;
    let pace = Pace {
        offset: 200_000,
        looks: 10_000_000,
        most: usize::MAX,
        read_before: 0,
    };
    let mut host = GateHost::new(alloc, large_input(alloc)?, pace)?;
    assert!(rt; is_fine(&rt, alloc, &mut host)?);
    assert_eq!(rt; host.output(), output.as_bytes());
    Ok(())
}

// A read that begins at or past byte 262,144 fails while the sink took fewer than two appends. Few packets wait
// between the source and the sink, and few bytes are read ahead. So no run that writes as it reads meets the failure.
#[test]
fn output_before_end(rt: HostRuntime) -> Result<(), AllocError> {
    let alloc = rt.alloc();
    let pace = Pace {
        offset: 262_144,
        looks: 0,
        most: usize::MAX,
        read_before: 0,
    };
    let samples = vec![in alloc; 200u8; 1_000_000]?;
    let bytes = mono(alloc, &samples)?;
    let mut host = GateHost::new(alloc, bytes.to_vec(alloc)?, pace)?;
    let words = ["-thread_queue_size", "1", "-i", "in.wav", "out.wav"];
    assert!(rt; comes_to(&rt, alloc, &words, &mut host, 0, "")?);
    assert_eq!(rt; host.output().len(), 1_000_044);
    assert_eq!(rt; host.output(), bytes.as_slice());
    Ok(())
}

// The output's first append fails while fewer than 400,000 bytes were read, which is more than the nodes and queues
// of 8 items hold. So queues are as long as the command says.
#[test]
fn queues_are_as_long_as_asked(rt: HostRuntime) -> Result<(), AllocError> {
    let alloc = rt.alloc();
    let pace = Pace {
        offset: usize::MAX,
        looks: 10_000_000,
        most: usize::MAX,
        read_before: 400_000,
    };
    let samples = vec![in alloc; 200u8; 1_000_000]?;
    let bytes = mono(alloc, &samples)?;
    let mut host = GateHost::new(alloc, bytes.to_vec(alloc)?, pace)?;
    let words = ["-thread_queue_size", "64", "-i", "in.wav", "out.wav"];
    assert!(rt; comes_to(&rt, alloc, &words, &mut host, 0, "")?);
    assert_eq!(rt; host.output(), bytes.as_slice());
    Ok(())
}

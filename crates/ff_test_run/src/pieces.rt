//! Tests with sources that give a few bytes a read.
use crate::gate::Pace;
use crate::gate_host::GateHost;
use crate::runs::{FULL, HEADER, WORDS, comes_to, input};
use std::alloc::{AllocError, Global};
use std::sync::Wait;
use std::thread::Threads;

/// SHA-256 of one letter a.
const ONE: &str = "ca978112ca1bbdcafac231b39a23dc4da786eff8147c4e72b9807785afee48bb";

// Whether the command of these arguments writes this, where each read of its input gives at most so many bytes.
fn writes<R: Threads + Wait + Sync>(
    rt: &R,
    alloc: Global,
    words: &[&str],
    most: usize,
    bytes: &[u8],
    output: &[u8],
) -> Result<bool, AllocError> {
    let pace = Pace {
        offset: usize::MAX,
        looks: 0,
        most,
        read_before: 0,
    };
    let mut host = GateHost::new(alloc, bytes.to_vec(alloc)?, pace)?;
    Ok(comes_to(rt, alloc, words, &mut host, 0, "")? & (host.output() == output))
}

// Two packets of 1,024 samples and one of one.
#[test]
fn sound_in_pieces(rt: HostRuntime) -> Result<(), AllocError> {
    let alloc = rt.alloc();
    let body = vec![in alloc; b'a'; 2_049]?;
    let bytes = input(alloc, &body)?;
    let mut output = String::from_str(alloc, HEADER)?;
    for (time, count, digest) in [(0, 1024, FULL), (1024, 1024, FULL), (2048, 1, ONE)] {
        let line = format!(in alloc;
            "0, {time:>10}, {time:>10}, {count:>8}, {count:>8}, {digest}\n"
        )?;
        output.push_str(&line)?;
    }
    for most in [1, 2, 43, 1_023, 4_096] {
        assert!(rt; writes(&rt, alloc, &WORDS, most, &bytes, output.as_bytes())?);
    }
    Ok(())
}

#[test]
fn pictures_in_pieces(rt: HostRuntime) -> Result<(), AllocError> {
    let words = ["-i", "in", "-f", "yuv4mpegpipe", "out"];
    let bytes = b"YUV4MPEG2 W3 H1 F25:1 Cmono\nFRAME\nabcFRAME\ndef";
    let output = b"YUV4MPEG2 W3 H1 F25:1 Ip A0:0 Cmono\nFRAME\nabcFRAME\ndef";
    for most in [1, 2, 7, 50] {
        assert!(rt; writes(&rt, rt.alloc(), &words, most, bytes, output)?);
    }
    Ok(())
}

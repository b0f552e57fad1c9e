//! Tests of reports as values, and of a log that fails.
use crate::runs::{WORDS, host_of, input, log_of, run};
use ff_command::{FileRef, Line, Status, exit_number};
use ff_host::{FailAt, HostCall, MemHost};
use ff_words::WordKind;
use std::alloc::{AllocError, Global};
use std::sync::Wait;
use std::thread::Threads;

// The status of these arguments over a host with this `in.wav`.
fn status_on<R: Threads + Wait + Sync>(
    rt: &R,
    alloc: Global,
    texts: &[&str],
    bytes: Vec<u8>,
) -> Result<Status, AllocError> {
    let mut host = host_of(alloc, bytes)?;
    let mut log = log_of(alloc, Vec::new(alloc))?;
    Ok(run(rt, alloc, texts, &mut host, &mut log)?.status)
}

#[test]
fn statuses(rt: HostRuntime) -> Result<(), AllocError> {
    let alloc = rt.alloc();
    let fine = status_on(&rt, alloc, &WORDS, input(alloc, b"abc")?)?;
    assert!(rt; matches!(fine, Status::Fine));
    let damaged = status_on(&rt, alloc, &WORDS, b"RIFF....WAVEf".to_vec(alloc)?)?;
    assert!(rt;
        matches!(
            damaged,
            Status::Damaged {
                input: 0,
                offset: 13
            }
        )
    );
    let missing = status_on(&rt, alloc, &["-i", "no.wav", "o.wav"], Vec::new(alloc))?;
    assert!(rt;
        matches!(
            missing,
            Status::Device {
                file: FileRef::Input(0)
            }
        )
    );
    let refused = status_on(&rt, alloc, &[], Vec::new(alloc))?;
    assert!(rt;
        matches!(
            refused,
            Status::Words {
                word: 0,
                kind: WordKind::NoInput
            }
        )
    );
    Ok(())
}

// A log of which the append of this number is to fail.
fn failing_log(alloc: Global, number: u32) -> Result<Vec<FailAt>, AllocError> {
    let mut fails = Vec::new(alloc);
    fails.push(FailAt {
        name: String::from_str(alloc, "log")?,
        call: HostCall::Append,
        number,
    })?;
    Ok(fails)
}

// Whether the line of these arguments, where the append of this number fails, is as said, the log holds this, and the program ends so.
fn logs<R: Threads + Wait + Sync>(
    rt: &R,
    alloc: Global,
    texts: &[&str],
    number: u32,
    line: Line,
    text: &str,
    end: u8,
) -> Result<bool, AllocError> {
    let mut host = MemHost::new(alloc, Vec::new(alloc), Vec::new(alloc))?;
    let mut log = log_of(alloc, failing_log(alloc, number)?)?;
    let report = run(rt, alloc, texts, &mut host, &mut log)?;
    let logged = (report.line == line) & (log.bytes() == text.as_bytes());
    Ok(logged & (exit_number(&report) == end))
}

// The line goes to the log in one append: the first may fail, and a second never comes.
#[test]
fn log_failures(rt: HostRuntime) -> Result<(), AllocError> {
    let alloc = rt.alloc();
    let text = "ffmpeg: word 0: no input\n";
    assert!(rt; logs(&rt, alloc, &[], 1, Line::Failed, "", 1)?);
    assert!(rt; logs(&rt, alloc, &[], 2, Line::Whole, text, 1)?);
    assert!(rt; logs(&rt, alloc, &["-version"], 1, Line::Failed, "", 3)?);
    Ok(())
}

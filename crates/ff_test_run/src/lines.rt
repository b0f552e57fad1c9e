//! Tests of the line that each status is told by.
ghost use Rattle.std.specs.Prelude.{◌≢◌};

use ff_command::{FileRef, Status, fault_line, status_number};
use ff_words::WordKind;
use std::alloc::{AllocError, Global};

// Whether a status has this number, and this line with this name.
fn says(
    alloc: Global,
    status: &Status,
    name: &str,
    number: u8,
    line: &str,
) -> Result<bool, AllocError>
    requires { status.now ≢ Status.Fine }
{
    let text = fault_line(alloc, status, name)?;
    Ok((status_number(status) == number) & (text.as_slice() == line.as_bytes()))
}

#[test]
fn lines(rt: HostRuntime) -> Result<(), AllocError> {
    let alloc = rt.alloc();
    let word = Status::Words {
        word: 7,
        kind: WordKind::BadTime { at: 3 },
    };
    let device = Status::Device {
        file: FileRef::Output(3),
    };
    let (long, large) = (Status::TooLong { node: 0 }, Status::TooLarge { output: 2 });
    let line = "ffmpeg: word 7: bad time at 3\n";
    assert!(rt; says(alloc, &word, "", 1, line)?);
    let line = "ffmpeg: device fault on a b.wav\n";
    assert!(rt; says(alloc, &device, "a b.wav", 3, line)?);
    let line = "ffmpeg: node 0: stream too long\n";
    assert!(rt; says(alloc, &long, "", 5, line)?);
    let line = "ffmpeg: output 2: file too large\n";
    assert!(rt; says(alloc, &large, "", 7, line)?);
    let line = "ffmpeg: out of memory\n";
    assert!(rt; says(alloc, &Status::NoMemory, "", 9, line)?);
    assert_eq!(rt; status_number(&Status::Fine), 0);
    Ok(())
}

//! Tests of sources that wait for each other.
ghost use Rattle.std.specs.Prelude.{◌≡◌};

use ff_host::{Failed, Host, MeetHost, MeetSource, Source};
use std::alloc::{AllocError, Global};
use std::thread::{Threads, join};

type Files = Vec<(String, Vec<u8>)>;

// Two files of these bytes.
fn twice(alloc: Global, bytes: &[u8]) -> Result<Files, AllocError> {
    let mut files = Vec::new(alloc);
    for name in ["a", "b"] {
        let name = String::from_str(alloc, name)?;
        files.push((name, bytes.to_vec(alloc)?))?;
    }
    Ok(files)
}

// A read of three bytes: how many came, or a letter where it failed.
fn read_three<S: Source>(src: &mut S) -> u8
    ensures { S.name src.new ≡ S.name src.old }
{
    let mut buf = [0; 3];
    match src.read(&mut buf) {
        Ok(0) => b'0',
        Ok(1) => b'1',
        Ok(2) => b'2',
        Ok(_) => b'3',
        Err(Failed) => b'r',
    }
}

fn read_four_times<S: Source>(src: &mut S) -> [u8; 4]
    ensures { S.name src.new ≡ S.name src.old }
{
    let a = read_three(src);
    let b = read_three(src);
    let c = read_three(src);
    let d = read_three(src);
    [a, b, c, d]
}

// Reads the first source and then, in the same thread, the second, and closes both.
fn one_by_one<H: Host>(host: &mut H) -> Option<[[u8; 4]; 2]> {
    let mut a = host.open_source("a").ok()?;
    let mut b = host.open_source("b").ok()?;
    let first = read_four_times(&mut a);
    let second = read_four_times(&mut b);
    host.close_source("a", a);
    host.close_source("b", b);
    Some([first, second])
}

// The first one's second read begins before the offset and ends past it. Its third waits in vain, and it fails from then
// on. As it had begun, the other needs no wait.
#[test]
fn one_thread_alone(rt: HostRuntime) -> Result<(), AllocError> {
    let alloc = rt.alloc();
    let mut host = MeetHost::new(alloc, twice(alloc, b"12345678")?, 4)?;
    assert_eq!(rt; one_by_one(&mut host), Some([*b"33rr", *b"3320"]));
    assert_eq!(rt; (host.in_faults("a"), host.in_faults("b")), (2, 0));
    let files = (host.file("a"), host.file("c"));
    assert_eq!(rt; files, (Some(b"12345678".as_slice()), None));
    Ok(())
}

// Whether a source gives these bytes in threes, and then no more.
fn gives<S: Source>(src: &mut S, bytes: &[u8]) -> bool {
    let mut buf = [0; 3];
    for piece in bytes.chunks(3) {
        if src.read(&mut buf) != Ok(piece.len()) || !buf.starts_with(piece) {
            return false;
        }
    }
    src.read(&mut buf) == Ok(0)
}

fn both_give<R: Threads>(rt: &R, mut a: MeetSource, mut b: MeetSource, bytes: &[u8]) -> bool {
    join(rt, || gives(&mut a, bytes), || gives(&mut b, bytes)) == (true, true)
}

// Whether two sources of the host meet, and then the next two.
fn meet_twice<R: Threads>(
    rt: &R,
    alloc: Global,
    bytes: &[u8],
    offset: u64,
) -> Result<bool, AllocError> {
    let mut host = MeetHost::new(alloc, twice(alloc, bytes)?, offset)?;
    for _ in 0..2 {
        let (Ok(a), Ok(b)) = (host.open_source("a"), host.open_source("b")) else {
            return Ok(false);
        };
        if !both_give(rt, a, b, bytes) {
            return Ok(false);
        }
    }
    Ok(true)
}

// Each offset twice: the second time with the next two sources of the host.
#[test]
fn two_threads_meet(rt: HostRuntime) -> Result<(), AllocError> {
    for offset in [0, 4, 6, 8, 9] {
        let met = meet_twice(&rt, rt.alloc(), b"12345678", offset)?;
        assert!(rt; met, "offset {offset}");
    }
    Ok(())
}

//! Tests of the machine's files as a host.
ghost use Rattle.std.specs.Prelude.{◌≡◌, List, ℕ};

use ff_host::{Failed, Host, HostError, Sink, SinkError, Source};
use ff_host_file::FileHost;
use std::alloc::{AllocError, Global};
use std::test::Fail;
use std::time::SystemTime;
use std::{env, fs};

// Nanoseconds, which name a file that nobody else has.
fn now(rt: &HostRuntime) -> Result<u128, Fail> {
    let now = SystemTime::now(rt)?.duration_since(SystemTime::UNIX_EPOCH)?;
    Ok(now.as_nanos())
}

// Two names of a file in the system's folder of temporary files.
fn names(rt: &HostRuntime) -> Result<(String, String), Fail> {
    let number = now(rt)?;
    let folder = env::temp_dir(rt)?;
    let name = format!(in rt.alloc(); "{}/file-host-{number}", folder.display())?;
    let other = format!(in rt.alloc(); "{}/./file-host-{number}", folder.display())?;
    Ok((name, other))
}

fn is_front(count: Result<usize, Failed>, buffer: &[u8], bytes: &[u8]) -> bool {
    match count {
        Ok(count) => buffer.get(..count) == Some(bytes),
        Err(Failed) => false,
    }
}

// Whether a file holds these bytes, fewer than 64, read through the host to its end.
fn holds<H: Host>(host: &mut H, name: &str, bytes: &[u8]) -> bool {
    let Ok(mut src) = host.open_source(name) else {
        return false;
    };
    let mut buffer = [0; 64];
    let count = src.read(&mut buffer);
    let mut rest = [0; 64];
    let end = src.read(&mut rest);
    host.close_source(name, src);
    is_front(count, &buffer, bytes) & (end == Ok(0))
}

fn is_not_opened<H: Host>(host: &mut H, name: &str) -> bool
    ensures opened { (other : List ℕ) → H.opened host.old other → H.opened host.new other }
    ensures created { (other : List ℕ) → H.created host.old other → H.created host.new other }
{
    host.open_source(name).err() == Some(HostError::Failed)
}

fn is_not_created<H: Host>(host: &mut H, name: &str) -> bool
    ensures opened { (other : List ℕ) → H.opened host.old other → H.opened host.new other }
    ensures created { (other : List ℕ) → H.created host.old other → H.created host.new other }
{
    host.create_sink(name).err() == Some(HostError::Failed)
}

// Two appends, a patch and an append.
fn write<K: Sink>(snk: &mut K) -> bool
    ensures { K.name snk.new ≡ K.name snk.old }
{
    if snk.append(b"first and ").is_err() {
        return false;
    }
    let second = snk.append(b"second").is_ok();
    let third = snk.patch(0, b"F").is_ok();
    let last = snk.append(b"!").is_ok();
    second & third & last
}

fn writes<H: Host>(host: &mut H, name: &str) -> bool {
    let Ok(mut snk) = host.create_sink(name) else {
        return false;
    };
    let is_written = write(&mut snk);
    is_written & host.close_sink(name, snk).is_ok()
}

fn empties<H: Host>(host: &mut H, name: &str) -> bool {
    match host.create_sink(name) {
        Ok(snk) => host.close_sink(name, snk).is_ok(),
        Err(_) => false,
    }
}

// Whether the folder is opened, but not read.
fn is_not_read<H: Host>(host: &mut H, name: &str) -> bool {
    let Ok(mut src) = host.open_source(name) else {
        return false;
    };
    let mut buffer = [0; 8];
    let first = src.read(&mut buffer);
    let second = src.read(&mut buffer);
    host.close_source(name, src);
    (first == Err(Failed)) & (second == Err(Failed))
}

#[test]
fn files(rt: HostRuntime) -> Result<(), Fail> {
    let (name, _) = names(&rt)?;
    let mut host = FileHost::new(rt.alloc(), rt.clone()?);
    let answers = [
        is_not_opened(&mut host, &name),
        writes(&mut host, &name),
        holds(&mut host, &name, b"First and second!"),
        empties(&mut host, &name),
        holds(&mut host, &name, b""),
        is_not_read(&mut host, "/"),
        is_not_created(&mut host, "/"),
    ];
    fs::remove_file(&rt, name.as_str())?;
    assert_eq!(rt; answers, [true; 7]);
    Ok(())
}

// Whether a file that is read under one name isn't made empty under the other.
fn is_kept_while_read<H: Host>(host: &mut H, name: &str, other: &str) -> bool {
    let Ok(src) = host.open_source(name) else {
        return false;
    };
    let is_kept = is_not_created(host, other);
    host.close_source(name, src);
    is_kept
}

// Whether a file that is written under one name is neither read nor made empty under the other.
fn is_closed_while_written<H: Host>(host: &mut H, name: &str, other: &str) -> bool {
    let Ok(mut snk) = host.create_sink(name) else {
        return false;
    };
    let written = snk.append(b"kept").is_ok();
    let unread = is_not_opened(host, other);
    let kept = is_not_created(host, other);
    written & unread & kept & host.close_sink(name, snk).is_ok()
}

// A plain file is one file, whatever its name: while it is read it isn't made empty, and while it is written it isn't read.
#[test]
fn one_file_of_two_names(rt: HostRuntime) -> Result<(), Fail> {
    let (name, other) = names(&rt)?;
    let mut host = FileHost::new(rt.alloc(), rt.clone()?);
    let answers = [
        is_closed_while_written(&mut host, &name, &other),
        is_kept_while_read(&mut host, &name, &other),
        holds(&mut host, &other, b"kept"),
    ];
    fs::remove_file(&rt, name.as_str())?;
    assert_eq!(rt; answers, [true; 3]);
    Ok(())
}

// Whether what fits the buffer of a sink fails when it is closed.
fn fails_at_the_end<H: Host>(host: &mut H, name: &str) -> bool {
    let Ok(mut snk) = host.create_sink(name) else {
        return false;
    };
    let written = snk.append(b"short");
    let closed = host.close_sink(name, snk);
    (written == Ok(())) & (closed == Err(Failed))
}

// Whether what doesn't fit the buffer fails at once, and closing, where nothing waits, has nothing that could fail.
fn fails_at_once<H: Host>(host: &mut H, name: &str, bytes: &[u8]) -> bool {
    let Ok(mut snk) = host.create_sink(name) else {
        return false;
    };
    let written = snk.append(bytes);
    let more = snk.append(b"more");
    let closed = host.close_sink(name, snk);
    let failed = Err(SinkError::Failed);
    (written == failed) & (more == failed) & (closed == Ok(()))
}

// So many bytes.
fn zeros(alloc: Global, count: usize) -> Result<Vec<u8>, AllocError> {
    vec![in alloc; 0u8; count]
}

// On a full device what doesn't fit the buffer fails at once, and what does fails when the sink is closed.
#[test]
fn full_device(rt: HostRuntime) -> Result<(), Fail> {
    let long = zeros(rt.alloc(), 65_537)?;
    let mut host = FileHost::new(rt.alloc(), rt.clone()?);
    assert!(rt; fails_at_the_end(&mut host, "/dev/full"));
    assert!(rt; fails_at_once(&mut host, "/dev/full", &long));
    Ok(())
}

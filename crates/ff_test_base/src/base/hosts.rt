//! Tests of hosts in memory.
ghost use Rattle.std.specs.Prelude.{◌≡◌};

use ff_host::{
    Begun, FailAt, Failed, Host, HostCall, HostError, Marks, MemHost, QuietHost, QuietSource, Sink,
    SinkError, Source, make_room, marks_of, set_marks,
};
use std::alloc::{AllocError, Global};
use std::collections::BTreeMap;
use std::str;

type Files = Vec<(String, Vec<u8>)>;

fn files_of(alloc: Global, files: &[(&str, &str)]) -> Result<Files, AllocError> {
    let mut all = Vec::new(alloc);
    for (name, bytes) in files {
        let bytes = bytes.as_bytes().to_vec(alloc)?;
        all.push((String::from_str(alloc, name)?, bytes))?;
    }
    Ok(all)
}

// The call of this kind and number fails, under both names.
fn plan_of(alloc: Global, call: HostCall, number: u32) -> Result<Vec<FailAt>, AllocError> {
    let mut plan = Vec::new(alloc);
    for name in ["in", "out"] {
        let name = String::from_str(alloc, name)?;
        plan.push(FailAt { name, call, number })?;
    }
    Ok(plan)
}

// The letter of a call that fails in one way, small where it failed.
fn letter(answer: Result<(), Failed>, done: u8, failed: u8) -> u8 {
    match answer {
        Ok(()) => done,
        Err(Failed) => failed,
    }
}

fn append_letter(answer: Result<(), SinkError>) -> u8 {
    match answer {
        Ok(()) => b'A',
        Err(SinkError::Failed) => b'a',
        Err(SinkError::NoMemory) => b'm',
    }
}

fn refusal_letter(refused: HostError, failed: u8) -> u8 {
    match refused {
        HostError::Failed => failed,
        HostError::NoMemory => b'm',
    }
}

// A read of two bytes: how many came, or a small letter where it failed.
fn read_two<S: Source>(src: &mut S) -> u8
    ensures { S.name src.new ≡ S.name src.old }
{
    let mut buf = [0u8; 2];
    match src.read(&mut buf) {
        Ok(0) => b'0',
        Ok(1) => b'1',
        Ok(_) => b'2',
        Err(Failed) => b'r',
    }
}

// Appends twice and, where there is something to write over, patches twice; a blank stands for what isn't called.
fn write<K: Sink>(snk: &mut K) -> [u8; 4]
    ensures { K.name snk.new ≡ K.name snk.old }
{
    let first = snk.append(b"ab");
    let second = append_letter(snk.append(b"cd"));
    if first.is_err() {
        let first = append_letter(first);
        return [first, second, b' ', b' '];
    }
    let third = letter(snk.patch(0, b"x"), b'P', b'p');
    let last = letter(snk.patch(0, b"y"), b'P', b'p');
    [b'A', second, third, last]
}

// Opens `in`, reads twice and closes it.
fn read_in<H: Host>(host: &mut H) -> [u8; 3] {
    match host.open_source("in") {
        Ok(mut src) => {
            let first = read_two(&mut src);
            let second = read_two(&mut src);
            host.close_source("in", src);
            [b'O', first, second]
        }
        Err(refused) => {
            let first = refusal_letter(refused, b'o');
            [first, b' ', b' ']
        }
    }
}

// Creates `out`, writes and closes it.
fn write_out<H: Host>(host: &mut H) -> [u8; 6] {
    match host.create_sink("out") {
        Ok(mut snk) => {
            let [a, b, c, d] = write(&mut snk);
            let last = letter(host.close_sink("out", snk), b'Z', b'z');
            [b'C', a, b, c, d, last]
        }
        Err(refused) => {
            let first = refusal_letter(refused, b'c');
            [first, b' ', b' ', b' ', b' ', b' ']
        }
    }
}

fn add(letters: &mut String, more: &[u8]) -> Result<(), AllocError> {
    for letter in more {
        if *letter != b' ' {
            letters.push(*letter as char)?;
        }
    }
    Ok(())
}

// All calls, twice: a letter for each, small where it failed.
fn calls_on<H: Host>(host: &mut H, alloc: Global) -> Result<String, AllocError> {
    let mut letters = String::new(alloc);
    for _ in 0..2 {
        let read = read_in(host);
        add(&mut letters, &read)?;
        let written = write_out(host);
        add(&mut letters, &written)?;
    }
    Ok(letters)
}

// A file as a string.
fn shown(file: Option<&[u8]>) -> &str {
    match file {
        Some(bytes) => str::from_utf8(bytes).unwrap_or("no text"),
        None => "none",
    }
}

// What comes of all calls over these files: the letters, what `in`, `out` and `other` hold, and the counts of failures.
fn in_mem(alloc: Global, files: Files, plan: Vec<FailAt>) -> Result<String, AllocError> {
    let mut host = MemHost::new(alloc, files, plan)?;
    let letters = calls_on(&mut host, alloc)?;
    let (read, written, other) = (
        shown(host.file("in")),
        shown(host.file("out")),
        shown(host.file("other")),
    );
    let (ins, outs) = (host.in_faults("in"), host.out_faults("out"));
    format!(in alloc; "{letters} {read} {written} {other} {ins} {outs}")
}

fn under_plan(alloc: Global, call: HostCall, number: u32) -> Result<String, AllocError> {
    let files = files_of(alloc, &[("in", "123"), ("other", "z")])?;
    let plan = plan_of(alloc, call, number)?;
    in_mem(alloc, files, plan)
}

#[test]
fn planned_failures(rt: HostRuntime) -> Result<(), AllocError> {
    for (call, number, want) in [
        (HostCall::Read, 3, "O21CAAPPZO21CAAPPZ 123 ybcd z 0 0"),
        (HostCall::OpenSource, 1, "oCAAPPZO21CAAPPZ 123 ybcd z 1 0"),
        (HostCall::OpenSource, 2, "O21CAAPPZoCAAPPZ 123 ybcd z 1 0"),
        (HostCall::Read, 1, "OrrCAAPPZOrrCAAPPZ 123 ybcd z 4 0"),
        (HostCall::Read, 2, "O2rCAAPPZO2rCAAPPZ 123 ybcd z 2 0"),
        (HostCall::Create, 1, "O21cO21CAAPPZ 123 ybcd z 0 1"),
        (HostCall::Create, 2, "O21CAAPPZO21c 123 ybcd z 0 1"),
        (HostCall::Append, 1, "O21CaaZO21CaaZ 123  z 0 4"),
        (HostCall::Append, 2, "O21CAappZO21CAappZ 123 ab z 0 6"),
        (HostCall::Patch, 1, "O21CAAppZO21CAAppZ 123 abcd z 0 4"),
        (HostCall::Patch, 2, "O21CAAPpZO21CAAPpZ 123 xbcd z 0 2"),
        (HostCall::CloseSink, 1, "O21CAAPPzO21CAAPPZ 123 ybcd z 0 1"),
        (HostCall::CloseSink, 2, "O21CAAPPZO21CAAPPz 123 ybcd z 0 1"),
    ] {
        let came = under_plan(rt.alloc(), call, number)?;
        assert_eq!(rt; came.as_str(), want, "{call:?} {number}");
    }
    Ok(())
}

// The same of a host that plans no failures and has no counts.
fn in_quiet(alloc: Global, files: Files) -> Result<String, AllocError> {
    let mut host = QuietHost::new(alloc, files)?;
    let letters = calls_on(&mut host, alloc)?;
    let (read, written, other) = (
        shown(host.file("in")),
        shown(host.file("out")),
        shown(host.file("other")),
    );
    format!(in alloc; "{letters} {read} {written} {other}")
}

#[test]
fn missing_names(rt: HostRuntime) -> Result<(), AllocError> {
    let alloc = rt.alloc();
    let came = in_mem(alloc, Vec::new(alloc), Vec::new(alloc))?;
    assert_eq!(rt; came.as_str(), "oCAAPPZoCAAPPZ none ybcd none 2 0");
    let came = in_quiet(alloc, files_of(alloc, &[("other", "z")])?)?;
    assert_eq!(rt; came.as_str(), "O00CAAPPZO00CAAPPZ none ybcd z");
    Ok(())
}

// Whether of two files of one name the first is read.
fn is_first_read(alloc: Global) -> Result<bool, AllocError> {
    let mut host = QuietHost::new(alloc, files_of(alloc, &[("in", "12"), ("in", "3")])?)?;
    let mut buf = [0; 4];
    let count = match host.open_source("in") {
        Ok(mut src) => src.read(&mut buf),
        Err(_) => Err(Failed),
    };
    Ok((count == Ok(2)) & (buf == [b'1', b'2', 0, 0]))
}

fn holds_in_quiet(alloc: Global) -> Result<bool, AllocError> {
    let mut host = QuietHost::new(alloc, Vec::new(alloc))?;
    Ok(match host.create_sink("out") {
        Ok(mut snk) => snk.append(b"ab").is_ok() & (snk.bytes() == b"ab".as_slice()),
        Err(_) => false,
    })
}

fn holds_in_mem(alloc: Global) -> Result<bool, AllocError> {
    let mut host = MemHost::new(alloc, Vec::new(alloc), Vec::new(alloc))?;
    Ok(match host.create_sink("log") {
        Ok(mut snk) => snk.append(b"cd").is_ok() & (snk.bytes() == b"cd".as_slice()),
        Err(_) => false,
    })
}

#[test]
fn ends_by_themselves(rt: HostRuntime) -> Result<(), AllocError> {
    assert!(rt; is_first_read(rt.alloc())?);
    assert!(rt; holds_in_quiet(rt.alloc())?);
    assert!(rt; holds_in_mem(rt.alloc())?);
    Ok(())
}

#[test]
fn marks_by_name(rt: HostRuntime) -> Result<(), AllocError> {
    let alloc = rt.alloc();
    let mut table = BTreeMap::new(alloc);
    make_room(&mut table, alloc, "a")?;
    let blank = marks_of(&table, "a");
    let marks = Marks { opens: 2, ..blank };
    set_marks(&mut table, "a", marks);
    make_room(&mut table, alloc, "a")?;
    let came = [marks_of(&table, "a"), marks_of(&table, "b")];
    assert_eq!(rt; came, [marks, blank]);
    Ok(())
}

// A source whose first three bytes were read, of five.
fn begun(alloc: Global) -> Result<Option<Begun<QuietSource>>, AllocError> {
    let mut host = QuietHost::new(alloc, files_of(alloc, &[("in", "12345")])?)?;
    let Ok(mut src) = host.open_source("in") else {
        return Ok(None);
    };
    let mut head = [0; 3];
    if src.read(&mut head) != Ok(3) {
        return Ok(None);
    }
    Ok(Some(Begun::new(head.to_vec(alloc)?, src)))
}

#[test]
fn begun_source(rt: HostRuntime) -> Result<(), AllocError> {
    let Some(mut begun) = begun(rt.alloc())? else {
        panic!(rt; "three bytes");
    };
    let mut buf = [0; 2];
    for (count, bytes) in [(2, b"12"), (1, b"32"), (2, b"45"), (0, b"45")] {
        assert_eq!(rt; (begun.read(&mut buf), buf), (Ok(count), *bytes));
    }
    let mut src = begun.into_inner();
    assert_eq!(rt; src.read(&mut buf), Ok(0));
    Ok(())
}

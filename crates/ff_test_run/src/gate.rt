//! A source that waits for a sink or fails before it, or gives a few bytes a read. Beside it is a sink that waits for
//! a source.
ghost use Rattle.std.specs.Prelude.{◌≡◌, ◌+◌, ◌<◌, ◌≤◌, ℕ, List, length, None, Some, false, string_bytes};

use ff_host::{Failed, Sink, SinkError, Source};
use std::alloc::{AllocError, Global};
use std::sync::Arc;
use std::sync::atomic::{AtomicU64, Ordering};
use std::thread::yield_now;

/// So many appends of its sinks open a gate: what stands before the first packet, and the first packet.
const OPENING: u64 = 2;

/// What the sources and the sinks of a host know of each other: how many appends were made, and how many bytes were read.
#[derive(Drop)]
pub struct Gate {
    appends: AtomicU64,
    read: AtomicU64,
}

// Whether a count comes to so much, at the latest after so many further looks.
fn comes(count: &AtomicU64, wanted: u64, looks: u32) -> bool {
    for _ in 0..looks {
        if count.load(Ordering::SeqCst) >= wanted {
            return true;
        }
        yield_now();
    }
    count.load(Ordering::SeqCst) >= wanted
}

/// How calls go. Reads that begin at or past the offset fail unless the gate is open, for which they look again so
/// often. Each gives at most so many bytes. A sink's first append fails unless so many bytes were read before.
#[derive(Clone, Copy)]
pub struct Pace {
    /// The offset from which on a read waits for the gate.
    pub offset: usize,
    /// How often a call that waits looks again.
    pub looks: u32,
    /// How many bytes a read gives at most.
    pub most: usize,
    /// How many bytes are read before a sink's first append.
    pub read_before: u64,
}

/// A source in memory whose reads go at this pace, and fail where the gate stays closed.
#[derive(Drop)]
pub struct GateSource {
    name: String,
    bytes: Vec<u8>,
    at: usize,
    pace: Pace,
    gate: Arc<Gate>,
    faults: u64,
    failed: bool,
}

impl GateSource {
    /// A source of these bytes under this name, which has never failed.
    pub fn new(name: String, bytes: Vec<u8>, pace: Pace, gate: Arc<Gate>) -> GateSource
        ensures name { string_bytes result.name ≡ string_bytes name }
        ensures faults { result.faults ≡ 0 }
        ensures failed { result.failed ≡ false }
    {
        GateSource {
            name,
            bytes,
            at: 0,
            pace,
            gate,
            faults: 0,
            failed: false,
        }
    }

    /// How often reading failed.
    pub fn faults(&self) -> u64
        ensures { result ≡ self.now.faults }
    {
        self.faults
    }
}

// Fills a prefix of a buffer from a place on, as far as it and the bytes reach, by at most so many.
fn copy_from(buf: &mut [u8], bytes: &[u8], at: usize, most: usize) -> usize
    ensures within { result ≤ length buf.old }
    ensures length { length buf.new ≡ length buf.old }
{
    let rest = bytes.get(at..).unwrap_or(&[]);
    let count = buf.len().min(rest.len()).min(most);
    buf[..count].copy_from_slice(&rest[..count]);
    count
}

impl Source for GateSource {
    ghost left = { λ s. None };

    ghost faults = { λ s. s.faults };

    ghost failed = { λ s. s.failed };

    ghost name = { λ s. Some (string_bytes s.name) };

    fn read(&mut self, buf: &mut [u8]) -> Result<usize, Failed> {
        let early = self.at < self.pace.offset;
        if !self.failed && (early || comes(&self.gate.appends, OPENING, self.pace.looks)) {
            let count = copy_from(buf, &self.bytes, self.at, self.pace.most);
            self.at = self.at.saturating_add(count);
            self.gate.read.fetch_add(count as u64, Ordering::SeqCst);
            return Ok(count);
        }
        self.failed = true;
        self.faults = self.faults.saturating_add(1);
        Err(Failed)
    }
}

/// A sink in memory that counts its appends, which open the gate, and whose first one waits at this pace.
#[derive(Drop)]
pub struct GateSink {
    name: String,
    bytes: Vec<u8>,
    pace: Pace,
    gate: Arc<Gate>,
    faults: u64,
    failed: bool,
}

impl GateSink {
    /// A sink under this name that holds nothing and has never failed.
    pub fn new(alloc: Global, name: String, pace: Pace, gate: Arc<Gate>) -> GateSink
        ensures name { string_bytes result.name ≡ string_bytes name }
        ensures faults { result.faults ≡ 0 }
        ensures failed { result.failed ≡ false }
    {
        GateSink {
            name,
            bytes: Vec::new(alloc),
            pace,
            gate,
            faults: 0,
            failed: false,
        }
    }

    /// How often writing failed.
    pub fn faults(&self) -> u64
        ensures { result ≡ self.now.faults }
    {
        self.faults
    }

    /// The bytes that it holds.
    pub fn into_bytes(self) -> Vec<u8> {
        self.bytes
    }
}

impl Sink for GateSink {
    ghost holds = { λ s. None };

    ghost written = { λ s. length s.bytes.items };

    ghost faults = { λ s. s.faults };

    ghost failed = { λ s. s.failed };

    ghost name = { λ s. Some (string_bytes s.name) };

    fn append(&mut self, bytes: &[u8]) -> Result<(), SinkError> {
        let waits = self.bytes.is_empty();
        let wanted = self.pace.read_before;
        if self.failed || waits && !comes(&self.gate.read, wanted, self.pace.looks) {
            self.failed = true;
            self.faults = self.faults.saturating_add(1);
            return Err(SinkError::Failed);
        }
        self.bytes.extend_from_slice(bytes)?;
        self.gate.appends.fetch_add(1, Ordering::SeqCst);
        Ok(())
    }

    fn patch(&mut self, at: u64, bytes: &[u8]) -> Result<(), Failed> {
        if !self.failed {
            let begin = at as usize;
            self.bytes[begin..begin + bytes.len()].copy_from_slice(bytes);
            return Ok(());
        }
        self.failed = true;
        self.faults = self.faults.saturating_add(1);
        Err(Failed)
    }
}

/// A gate that is closed: no append was counted, and no byte read.
pub fn closed(alloc: Global) -> Result<Arc<Gate>, AllocError> {
    let appends = AtomicU64::new(0);
    let read = AtomicU64::new(0);
    Ok(Arc::new(alloc, Gate { appends, read })?)
}

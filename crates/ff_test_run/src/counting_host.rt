//! A host in memory that counts the calls on it, on its sources and on its sinks, by name and kind. It notes the
//! order of closings.
ghost use Rattle.std.specs.Prelude.{};

use ff_host::{
    Failed, Host, HostCall, HostError, MemHost, MemSink, MemSource, Sink, SinkError, Source,
};
use std::alloc::{AllocError, Global};

/// How often a kind of call came under a name.
#[derive(Drop)]
struct Count {
    name: String,
    call: HostCall,
    calls: u32,
}

// Room for the counts of these kinds of call under a name.
fn make_room(
    counts: &mut Vec<Count>,
    alloc: Global,
    name: &str,
    kinds: &[HostCall],
) -> Result<(), AllocError> {
    for call in kinds {
        let name = String::from_str(alloc, name)?;
        counts.push(Count {
            name,
            call: *call,
            calls: 0,
        })?;
    }
    Ok(())
}

// Counts so many more calls of this kind under a name, for which there is room.
fn add(counts: &mut Vec<Count>, name: &str, call: HostCall, more: u32) {
    for count in counts.iter_mut() {
        if count.name.as_str() == name && count.call == call {
            count.calls = count.calls.saturating_add(more);
            return;
        }
    }
}

// Notes one more name, where there is memory for it.
fn note(names: &mut Vec<String>, alloc: Global, name: &str) {
    if let Ok(name) = String::from_str(alloc, name) {
        let _noted = names.push(name);
    }
}

/// A source in memory that counts its reads.
#[derive(Drop)]
pub struct CountingSource {
    inner: MemSource,
    reads: u32,
}

impl Source for CountingSource {
    ghost left = { λ s. ⟦<MemSource as Source>⟧.left s.inner };

    ghost faults = { λ s. ⟦<MemSource as Source>⟧.faults s.inner };

    ghost failed = { λ s. ⟦<MemSource as Source>⟧.failed s.inner };

    ghost name = { λ s. ⟦<MemSource as Source>⟧.name s.inner };

    fn read(&mut self, buf: &mut [u8]) -> Result<usize, Failed> {
        self.reads = self.reads.saturating_add(1);
        self.inner.read(buf)
    }
}

/// A sink in memory that counts its appends and patches.
#[derive(Drop)]
pub struct CountingSink {
    inner: MemSink,
    appends: u32,
    patches: u32,
}

impl Sink for CountingSink {
    ghost holds = { λ s. ⟦<MemSink as Sink>⟧.holds s.inner };

    ghost written = { λ s. ⟦<MemSink as Sink>⟧.written s.inner };

    ghost faults = { λ s. ⟦<MemSink as Sink>⟧.faults s.inner };

    ghost failed = { λ s. ⟦<MemSink as Sink>⟧.failed s.inner };

    ghost name = { λ s. ⟦<MemSink as Sink>⟧.name s.inner };

    fn append(&mut self, bytes: &[u8]) -> Result<(), SinkError> {
        self.appends = self.appends.saturating_add(1);
        self.inner.append(bytes)
    }

    fn patch(&mut self, at: u64, bytes: &[u8]) -> Result<(), Failed> {
        self.patches = self.patches.saturating_add(1);
        self.inner.patch(at, bytes)
    }
}

/// A host in memory that counts its calls. Those on a source or a sink count once it is taken back.
#[derive(Drop)]
pub struct CountingHost {
    alloc: Global,
    inner: MemHost,
    counts: Vec<Count>,
    /// How many sources and sinks it gave and has not taken back.
    given: u32,
    /// The names of those that it has taken back, in that order.
    closed: Vec<String>,
}

impl CountingHost {
    /// A host over this one, on which nothing was called.
    pub fn new(alloc: Global, inner: MemHost) -> CountingHost {
        CountingHost {
            alloc,
            inner,
            counts: Vec::new(alloc),
            given: 0,
            closed: Vec::new(alloc),
        }
    }

    /// The files as they stand.
    pub fn files(&self) -> &MemHost {
        &self.inner
    }

    /// How often this kind of call came under a name.
    pub fn calls(&self, name: &str, call: HostCall) -> u32 {
        let mut calls = 0u32;
        for count in self.counts.iter() {
            if count.name.as_str() == name && count.call == call {
                calls = calls.saturating_add(count.calls);
            }
        }
        calls
    }

    /// Whether each call that makes a file came under this name.
    pub fn makes_only(&self, name: &str) -> bool {
        for count in self.counts.iter() {
            if count.call == HostCall::Create && count.name.as_str() != name {
                return false;
            }
        }
        true
    }

    /// Whether it has taken back sources and sinks under exactly these names, in this order.
    pub fn has_closed(&self, names: &[&str]) -> bool {
        if self.closed.len() != names.len() {
            return false;
        }
        for k in 0..names.len() {
            if self.closed[k].as_str() != names[k] {
                return false;
            }
        }
        true
    }

    /// Whether it has taken back each source and sink that it gave.
    pub fn has_all_back(&self) -> bool {
        self.given == 0
    }
}

impl Host for CountingHost {
    type Src = CountingSource;

    type Snk = CountingSink;

    ghost files = { λ h. ⟦<MemHost as Host>⟧.files h.inner };

    ghost in_faults = { λ h. ⟦<MemHost as Host>⟧.in_faults h.inner };

    ghost out_faults = { λ h. ⟦<MemHost as Host>⟧.out_faults h.inner };

    ghost opened = { λ h. ⟦<MemHost as Host>⟧.opened h.inner };

    ghost created = { λ h. ⟦<MemHost as Host>⟧.created h.inner };

    ghost open_sources = { λ h. ⟦<MemHost as Host>⟧.open_sources h.inner };

    ghost open_sinks = { λ h. ⟦<MemHost as Host>⟧.open_sinks h.inner };

    fn exists(&self, name: &str) -> Result<bool, AllocError> {
        self.inner.exists(name)
    }

    fn open_source(&mut self, name: &str) -> Result<CountingSource, HostError> {
        let kinds = [HostCall::OpenSource, HostCall::Read];
        make_room(&mut self.counts, self.alloc, name, &kinds)?;
        add(&mut self.counts, name, HostCall::OpenSource, 1);
        let inner = self.inner.open_source(name)?;
        self.given = self.given.saturating_add(1);
        Ok(CountingSource { inner, reads: 0 })
    }

    fn create_sink(&mut self, name: &str) -> Result<CountingSink, HostError> {
        let kinds = [
            HostCall::Create,
            HostCall::Append,
            HostCall::Patch,
            HostCall::CloseSink,
        ];
        make_room(&mut self.counts, self.alloc, name, &kinds)?;
        add(&mut self.counts, name, HostCall::Create, 1);
        let inner = self.inner.create_sink(name)?;
        self.given = self.given.saturating_add(1);
        Ok(CountingSink {
            inner,
            appends: 0,
            patches: 0,
        })
    }

    fn close_source(&mut self, name: &str, src: CountingSource) {
        add(&mut self.counts, name, HostCall::Read, src.reads);
        note(&mut self.closed, self.alloc, name);
        self.given = self.given.saturating_sub(1);
        self.inner.close_source(name, src.inner);
    }

    fn close_sink(&mut self, name: &str, snk: CountingSink) -> Result<(), Failed> {
        add(&mut self.counts, name, HostCall::Append, snk.appends);
        add(&mut self.counts, name, HostCall::Patch, snk.patches);
        add(&mut self.counts, name, HostCall::CloseSink, 1);
        note(&mut self.closed, self.alloc, name);
        self.given = self.given.saturating_sub(1);
        self.inner.close_sink(name, snk.inner)
    }
}

//! A host in memory that notes which names were created.
ghost use Rattle.std.specs.Prelude.{};

use ff_host::{Failed, Host, HostError, MemHost, MemSink, MemSource};
use std::alloc::{AllocError, Global};

/// A host in memory, and each name on which a sink was to be created.
#[derive(Drop)]
pub struct NotingHost {
    alloc: Global,
    inner: MemHost,
    created: Vec<String>,
}

impl NotingHost {
    /// A host over this one, on which no sink was to be created yet.
    pub fn new(alloc: Global, inner: MemHost) -> NotingHost {
        NotingHost {
            alloc,
            inner,
            created: Vec::new(alloc),
        }
    }

    /// The files as they stand.
    pub fn files(&self) -> &MemHost {
        &self.inner
    }

    /// The names on which sinks were to be created.
    pub fn created_names(&self) -> &[String] {
        self.created.as_slice()
    }
}

impl Host for NotingHost {
    type Src = MemSource;

    type Snk = MemSink;

    ghost files = { λ h. ⟦<MemHost as Host>⟧.files h.inner };

    ghost in_faults = { λ h. ⟦<MemHost as Host>⟧.in_faults h.inner };

    ghost out_faults = { λ h. ⟦<MemHost as Host>⟧.out_faults h.inner };

    ghost opened = { λ h. ⟦<MemHost as Host>⟧.opened h.inner };

    ghost created = { λ h. ⟦<MemHost as Host>⟧.created h.inner };

    ghost open_sources = { λ h. ⟦<MemHost as Host>⟧.open_sources h.inner };

    ghost open_sinks = { λ h. ⟦<MemHost as Host>⟧.open_sinks h.inner };

    fn exists(&self, name: &str) -> Result<bool, AllocError> {
        self.inner.exists(name)
    }

    fn open_source(&mut self, name: &str) -> Result<MemSource, HostError> {
        self.inner.open_source(name)
    }

    fn create_sink(&mut self, name: &str) -> Result<MemSink, HostError> {
        let own_name = String::from_str(self.alloc, name)?;
        if self.created.push(own_name).is_err() {
            return Err(HostError::NoMemory);
        }
        self.inner.create_sink(name)
    }

    fn close_source(&mut self, name: &str, src: MemSource) {
        self.inner.close_source(name, src);
    }

    fn close_sink(&mut self, name: &str, snk: MemSink) -> Result<(), Failed> {
        self.inner.close_sink(name, snk)
    }
}

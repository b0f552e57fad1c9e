//! A host whose source waits for its sink or fails before it, or gives a few bytes a read.
ghost use Rattle.std.specs.Prelude.{◌≡◌, ◌+◌, ◌<◌, ◌≤◌, ℕ, List, Some, None, IsTrue, string_bytes};
ghost use Rattle.ff_host.specs.laws.Tally.{marks_at};

use crate::gate::{Gate, GateSink, GateSource, Pace, closed};
use ff_host::{Failed, Host, HostError, Marks, Table, make_room, marks_of, set_marks};
use std::alloc::{AllocError, Global};
use std::collections::BTreeMap;
use std::sync::Arc;

/// A host of one input, under any name, read at a pace. The gate opens when its sinks took two appends.
#[derive(Drop)]
pub struct GateHost {
    alloc: Global,
    input: Vec<u8>,
    pace: Pace,
    gate: Arc<Gate>,
    output: Vec<u8>,
    table: Table,
    sources: u64,
    sinks: u64,
}

impl GateHost {
    /// A host of this input, read at this pace, whose gate is closed.
    pub fn new(alloc: Global, input: Vec<u8>, pace: Pace) -> Result<GateHost, AllocError> {
        Ok(GateHost {
            alloc,
            input,
            pace,
            gate: closed(alloc)?,
            output: Vec::new(alloc),
            table: BTreeMap::new(alloc),
            sources: 0,
            sinks: 0,
        })
    }

    /// What the last sink held that was closed.
    pub fn output(&self) -> &[u8] {
        &self.output
    }
}

impl Host for GateHost {
    type Src = GateSource;

    type Snk = GateSink;

    ghost files = { λ h. None };

    ghost in_faults = { λ h name. (marks_at h.table name).in_faults };

    ghost out_faults = { λ h name. (marks_at h.table name).out_faults };

    ghost opened = { λ h name. IsTrue (marks_at h.table name).opened };

    ghost created = { λ h name. IsTrue (marks_at h.table name).created };

    ghost open_sources = { λ h. h.sources };

    ghost open_sinks = { λ h. h.sinks };

    fn exists(&self, _: &str) -> Result<bool, AllocError> {
        Ok(false)
    }

    fn open_source(&mut self, name: &str) -> Result<GateSource, HostError> {
        let Some(sources) = self.sources.checked_add(1) else {
            return Err(HostError::NoMemory);
        };
        make_room(&mut self.table, self.alloc, name)?;
        let own_name = String::from_str(self.alloc, name)?;
        let bytes = self.input.as_slice().to_vec(self.alloc)?;
        let gate = Arc::try_clone(&self.gate)?;
        let was = marks_of(&self.table, name);
        let opened = true;
        set_marks(&mut self.table, name, Marks { opened, ..was });
        self.sources = sources;
        Ok(GateSource::new(own_name, bytes, self.pace, gate))
    }

    fn create_sink(&mut self, name: &str) -> Result<GateSink, HostError> {
        let Some(sinks) = self.sinks.checked_add(1) else {
            return Err(HostError::NoMemory);
        };
        make_room(&mut self.table, self.alloc, name)?;
        let own_name = String::from_str(self.alloc, name)?;
        let gate = Arc::try_clone(&self.gate)?;
        let was = marks_of(&self.table, name);
        let created = true;
        set_marks(&mut self.table, name, Marks { created, ..was });
        self.sinks = sinks;
        Ok(GateSink::new(self.alloc, own_name, self.pace, gate))
    }

    fn close_source(&mut self, name: &str, src: GateSource) {
        let was = marks_of(&self.table, name);
        let in_faults = was.in_faults.saturating_add(src.faults());
        set_marks(&mut self.table, name, Marks { in_faults, ..was });
        self.sources = self.sources.saturating_sub(1);
    }

    fn close_sink(&mut self, name: &str, snk: GateSink) -> Result<(), Failed> {
        let was = marks_of(&self.table, name);
        let out_faults = was.out_faults.saturating_add(snk.faults());
        set_marks(&mut self.table, name, Marks { out_faults, ..was });
        self.sinks = self.sinks.saturating_sub(1);
        self.output = snk.into_bytes();
        Ok(())
    }
}

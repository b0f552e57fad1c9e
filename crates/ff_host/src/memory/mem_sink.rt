//! A sink in memory that fails where it was planned.
ghost use Rattle.std.specs.Prelude.{◌≡◌, ◌+◌, ◌≤◌, ◌↔◌, [], ◌++◌, length, Some, OnOk, OnErr, IsErr, IsErrOf};
ghost use Rattle.ff_host.specs.Causes.{added, HasCause, HasCauseOf};
ghost use Rattle.ff_host.specs.Files.{patched};
ghost use Rattle.ff_host.specs.laws.memory.MemEnds.{new_writing, failed_append, failed_patch};
ghost use Rattle.ff_host.specs.laws.memory.Plan.{FailsNext};

use crate::memory::plan::{fails_next, one_more};
use crate::memory::quiet_sink::QuietSink;
use crate::{Failed, Sink, SinkError};
use std::marker::Model;

/// A sink in memory whose appends and patches fail where it was planned.
#[derive(Drop)]
pub struct MemSink {
    inner: QuietSink,
    appends: u64,
    patches: u64,
    planned_appends: Vec<u64>,
    planned_patches: Vec<u64>,
    faults: u64,
    failed: bool,
}

impl Model for MemSink {
    ghost use Rattle.ff_host.specs.laws.memory.MemEnds.{MemWriting};

    ghost Value = { MemWriting };

    ghost view = { λ s. record {
      name = s.inner.name;
      holds = s.inner.holds;
      appends = s.appends;
      patches = s.patches;
      planned_appends = s.planned_appends.items;
      planned_patches = s.planned_patches.items;
      faults = s.faults;
      failed = s.failed;
    } };
}

impl MemSink {
    /// A sink over this one, which holds nothing, with the numbers of the appends and patches that fail.
    pub(crate) fn new(
        inner: QuietSink,
        planned_appends: Vec<u64>,
        planned_patches: Vec<u64>,
    ) -> MemSink
        requires { inner.holds ≡ [] }
        ensures { result ≡ new_writing inner.name planned_appends.items planned_patches.items }
    {
        MemSink {
            inner,
            appends: 0,
            patches: 0,
            planned_appends,
            planned_patches,
            faults: 0,
            failed: false,
        }
    }

    /// The bytes that it holds.
    pub fn bytes(&self) -> &[u8]
        ensures { result.now ≡ self.now.holds }
    {
        self.inner.bytes()
    }

    /// The sink without its plan, and how often it failed.
    pub(crate) fn into_parts(self) -> (QuietSink, u64)
        ensures sink { result.0 ≡ record { name = self.name; holds = self.holds } }
        ensures faults { result.1 ≡ self.faults }
    {
        (self.inner, self.faults)
    }
}

impl Sink for MemSink {
    ghost holds = { λ s. Some s.holds };

    ghost written = { λ s. length s.holds };

    ghost faults = { λ s. s.faults };

    ghost failed = { λ s. s.failed };

    ghost name = { λ s. Some s.name };

    // It fails exactly where it has failed before, or where this append is planned to, and then adds nothing.
    fn append(&mut self, bytes: &[u8]) -> Result<(), SinkError>
        ensures exact { IsErrOf result SinkError.Failed ↔ FailsNext self.old.failed self.old.planned_appends self.old.appends }
        ensures ok { OnOk result (self.new ≡
            record self.old { holds = self.old.holds ++ bytes.now; appends = added self.old.appends 1 }) }
        ensures failed { IsErrOf result SinkError.Failed → self.new ≡ failed_append self.old }
        ensures no_memory { IsErrOf result SinkError.NoMemory → self.new ≡ self.old }
        ensures cause { HasCauseOf SinkError.Failed self.old.faults self.new.faults result }
    {
        if fails_next(self.failed, &self.planned_appends, self.appends) {
            self.appends = one_more(self.appends);
            self.failed = true;
            self.faults = one_more(self.faults);
            return Err(SinkError::Failed);
        }
        self.inner.append(bytes)?;
        self.appends = one_more(self.appends);
        Ok(())
    }

    // It fails exactly where it has failed before, or where this patch is planned to.
    fn patch(&mut self, at: u64, bytes: &[u8]) -> Result<(), Failed>
        requires { at + length bytes.now ≤ length self.old.holds }
        ensures exact { IsErr result ↔ FailsNext self.old.failed self.old.planned_patches self.old.patches }
        ensures ok { OnOk result (self.new ≡
            record self.old { holds = patched self.old.holds at bytes.now; patches = added self.old.patches 1 }) }
        ensures err { OnErr result (self.new ≡ failed_patch self.old) }
        ensures cause { HasCause self.old.faults self.new.faults result }
    {
        let fails = fails_next(self.failed, &self.planned_patches, self.patches);
        self.patches = one_more(self.patches);
        if fails {
            self.failed = true;
            self.faults = one_more(self.faults);
            return Err(Failed);
        }
        self.inner.patch(at, bytes)
    }
}

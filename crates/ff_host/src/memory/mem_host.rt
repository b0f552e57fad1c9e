//! A host in memory that fails where it was planned.
ghost use Rattle.std.specs.Prelude.{◌≡◌, ◌-◌, ◌↔◌, ◌⊎◌, ℕ, List, [], Some, None, is_some, Ok, IfOk, OnOk, OnErr, IsErr, IsErrOf, IsTrue};
ghost use Rattle.std.specs.Option.{option_map};
ghost use Rattle.ff_host.specs.Causes.{HasCause, HasCauseOf, SameCounts, added};
ghost use Rattle.ff_host.specs.Files.{KeepsFiles, PutsFile};
ghost use Rattle.ff_host.specs.laws.memory.Given.{given};
ghost use Rattle.ff_host.specs.laws.memory.MemHost.{files_of, plan_of, marks_in, in_faults_of, out_faults_of, open_sources_of, open_sinks_of, HasOpened, HasCreated, new_source, new_sink};
ghost use Rattle.ff_host.specs.laws.memory.MemHost.{OpenFails, CreateFails, CloseFails};
ghost use Rattle.ff_host.specs.laws.memory.MemHost.{Notes, no_change, one_opened, one_open_failed, one_created, one_create_failed, source_closed, sink_closed, close_failed};
ghost use Rattle.ff_host.specs.laws.Opens.{CountsOpening};
ghost use Rattle.ff_host.specs.laws.memory.Plan.{IsPlannedNext};
ghost use Rattle.ff_host.specs.laws.memory.QuietHost.{quiet_files};
ghost use Rattle.ff_host.specs.laws.Tally.{blank};

use crate::memory::mem_sink::MemSink;
use crate::memory::mem_source::MemSource;
use crate::memory::plan::{FailAt, HostCall, is_planned_next, one_more, planned_numbers};
use crate::memory::quiet_host::QuietHost;
use crate::{Failed, Host, HostError, Marks, Table, make_room, marks_of, set_marks};
use std::alloc::{AllocError, Global};
use std::collections::BTreeMap;

/// A host in memory, whose calls fail exactly where it was planned, and where a name to be opened is not there.
///
/// A planned failure writes nothing, except that a failing `close_sink` still puts what the sink holds into the file.
#[derive(Drop)]
pub struct MemHost {
    alloc: Global,
    inner: QuietHost,
    table: Table,
    plan: Vec<FailAt>,
}

// Whether opening a name fails after so many such calls: it is not there, or this one is planned to.
fn open_fails(inner: &QuietHost, plan: &[FailAt], name: &str, opens: u64) -> bool
    ensures { IsTrue result ↔ ((quiet_files inner.now name.now ≡ None)
        ⊎ IsPlannedNext plan.now name.now HostCall.OpenSource opens) }
{
    inner.file(name).is_none() || is_planned_next(plan, name, HostCall::OpenSource, opens)
}

impl MemHost {
    /// A host of these files (of two with one name, the first), whose calls fail where it is planned.
    pub fn new(
        alloc: Global,
        files: Vec<(String, Vec<u8>)>,
        fails: Vec<FailAt>,
    ) -> Result<MemHost, AllocError>
        ensures files { IfOk result (λ host. (name : List ℕ) → files_of host name ≡ given files.items name) }
        ensures plan { IfOk result (λ host. plan_of host ≡ fails.items) }
        ensures calm { IfOk result (λ host. (name : List ℕ) → marks_in host name ≡ blank) }
    {
        Ok(MemHost {
            alloc,
            inner: QuietHost::new(alloc, files)?,
            table: BTreeMap::new(alloc),
            plan: fails,
        })
    }

    /// The bytes of a file, or None exactly where the name is not there.
    pub fn file(&self, name: &str) -> Option<&[u8]>
        ensures { option_map (λ bytes. bytes.now) result ≡ files_of self.now name.now }
    {
        self.inner.file(name)
    }

    /// How often reading under this name failed.
    pub fn in_faults(&self, name: &str) -> u64
        ensures { result ≡ in_faults_of self.now name.now }
    {
        marks_of(&self.table, name).in_faults
    }

    /// How often writing under this name failed.
    pub fn out_faults(&self, name: &str) -> u64
        ensures { result ≡ out_faults_of self.now name.now }
    {
        marks_of(&self.table, name).out_faults
    }
}

impl Host for MemHost {
    type Src = MemSource;

    type Snk = MemSink;

    ghost files = { λ h. Some (files_of h) };

    ghost in_faults = { in_faults_of };

    ghost out_faults = { out_faults_of };

    ghost opened = { HasOpened };

    ghost created = { HasCreated };

    ghost open_sources = { open_sources_of };

    ghost open_sinks = { open_sinks_of };

    fn exists(&self, name: &str) -> Result<bool, AllocError>
        ensures { result ≡ Ok (is_some (files_of self.now name.now)) }
    {
        self.inner.exists(name)
    }

    fn open_source(&mut self, name: &str) -> Result<MemSource, HostError>
        ensures failed { IsErrOf result HostError.Failed → OpenFails self.old name.now }
        ensures fails { OpenFails self.old name.now → IsErr result }
        ensures source { IfOk result (λ src. src ≡ new_source self.old name.now) }
        ensures files { KeepsFiles (Some (files_of self.old)) (Some (files_of self.new)) }

        ensures after { OnOk result (Notes self.old self.new name.now one_opened) }
        ensures after_failed { IsErrOf result HostError.Failed → Notes self.old self.new name.now one_open_failed }
        ensures no_memory { IsErrOf result HostError.NoMemory → Notes self.old self.new name.now no_change }

        // What these mean for the counts and the names.
        ensures cause { HasCauseOf HostError.Failed (in_faults_of self.old name.now) (in_faults_of self.new name.now) result }
        ensures out { SameCounts (out_faults_of self.old) (out_faults_of self.new) }
        ensures opened { OnOk result (HasOpened self.new name.now) }
        ensures still_opened { (other : List ℕ) → HasOpened self.old other → HasOpened self.new other }
        ensures still_created { (other : List ℕ) → HasCreated self.old other → HasCreated self.new other }
        ensures open_sources { CountsOpening (open_sources_of self.old) (open_sources_of self.new) result }
        ensures open_sinks { open_sinks_of self.new ≡ open_sinks_of self.old }
    {
        make_room(&mut self.table, self.alloc, name)?;
        let was = marks_of(&self.table, name);
        let opens = one_more(was.opens);
        if open_fails(&self.inner, &self.plan, name, was.opens) {
            let in_faults = one_more(was.in_faults);
            let marks = Marks {
                in_faults,
                opens,
                ..was
            };
            set_marks(&mut self.table, name, marks);
            return Err(HostError::Failed);
        }
        let planned = planned_numbers(self.alloc, &self.plan, name, HostCall::Read)?;
        let inner = self.inner.open_source(name)?;
        let marks = Marks {
            opened: true,
            opens,
            ..was
        };
        set_marks(&mut self.table, name, marks);
        Ok(MemSource::new(inner, planned))
    }

    fn create_sink(&mut self, name: &str) -> Result<MemSink, HostError>
        ensures failed { IsErrOf result HostError.Failed → CreateFails self.old name.now }
        ensures fails { CreateFails self.old name.now → IsErr result }
        ensures sink { IfOk result (λ snk. snk ≡ new_sink self.old name.now) }
        ensures ok { OnOk result (PutsFile (Some (files_of self.old)) (Some (files_of self.new)) name.now (Some [])) }
        ensures err { OnErr result (KeepsFiles (Some (files_of self.old)) (Some (files_of self.new))) }

        ensures after { OnOk result (Notes self.old self.new name.now one_created) }
        ensures after_failed { IsErrOf result HostError.Failed → Notes self.old self.new name.now one_create_failed }
        ensures no_memory { IsErrOf result HostError.NoMemory → Notes self.old self.new name.now no_change }

        // What these mean for the counts and the names.
        ensures cause { HasCauseOf HostError.Failed (out_faults_of self.old name.now) (out_faults_of self.new name.now) result }
        ensures ins { SameCounts (in_faults_of self.old) (in_faults_of self.new) }
        ensures created { OnOk result (HasCreated self.new name.now) }
        ensures still_opened { (other : List ℕ) → HasOpened self.old other → HasOpened self.new other }
        ensures still_created { (other : List ℕ) → HasCreated self.old other → HasCreated self.new other }
        ensures open_sources { open_sources_of self.new ≡ open_sources_of self.old }
        ensures open_sinks { CountsOpening (open_sinks_of self.old) (open_sinks_of self.new) result }
    {
        make_room(&mut self.table, self.alloc, name)?;
        let was = marks_of(&self.table, name);
        let creates = one_more(was.creates);
        if is_planned_next(&self.plan, name, HostCall::Create, was.creates) {
            let out_faults = one_more(was.out_faults);
            let marks = Marks {
                out_faults,
                creates,
                ..was
            };
            set_marks(&mut self.table, name, marks);
            return Err(HostError::Failed);
        }
        let appends = planned_numbers(self.alloc, &self.plan, name, HostCall::Append)?;
        let patches = planned_numbers(self.alloc, &self.plan, name, HostCall::Patch)?;
        let inner = self.inner.create_sink(name)?;
        let marks = Marks {
            created: true,
            creates,
            ..was
        };
        set_marks(&mut self.table, name, marks);
        Ok(MemSink::new(inner, appends, patches))
    }

    fn close_source(&mut self, name: &str, src: MemSource)
        requires { HasOpened self.old name.now }
        ensures after { Notes self.old self.new name.now (source_closed src.faults) }
        ensures none { src.faults ≡ 0 → in_faults_of self.new name.now ≡ in_faults_of self.old name.now }
        ensures files { KeepsFiles (Some (files_of self.old)) (Some (files_of self.new)) }
        ensures open_sources { open_sources_of self.new ≡ open_sources_of self.old - 1 }
        ensures open_sinks { open_sinks_of self.new ≡ open_sinks_of self.old }
    {
        let was = marks_of(&self.table, name);
        let in_faults = was.in_faults.saturating_add(src.faults());
        set_marks(&mut self.table, name, Marks { in_faults, ..was });
        self.inner.close_source(name, src.into_inner());
    }

    fn close_sink(&mut self, name: &str, snk: MemSink) -> Result<(), Failed>
        requires { HasCreated self.old name.now }
        ensures exact { IsErr result ↔ CloseFails self.old name.now }
        ensures files { PutsFile (Some (files_of self.old)) (Some (files_of self.new)) name.now (Some snk.holds) }
        ensures after { OnOk result (Notes self.old self.new name.now (sink_closed snk.faults)) }
        ensures after_failed { OnErr result (Notes self.old self.new name.now (close_failed snk.faults)) }

        // What these mean for the counts and the names.
        ensures none { OnOk result (snk.faults ≡ 0 → out_faults_of self.new name.now ≡ out_faults_of self.old name.now) }
        ensures cause { HasCause (added (out_faults_of self.old name.now) snk.faults) (out_faults_of self.new name.now) result }
        ensures ins { SameCounts (in_faults_of self.old) (in_faults_of self.new) }
        ensures still_opened { (other : List ℕ) → HasOpened self.old other → HasOpened self.new other }
        ensures still_created { (other : List ℕ) → HasCreated self.old other → HasCreated self.new other }
        ensures open_sources { open_sources_of self.new ≡ open_sources_of self.old }
        ensures open_sinks { open_sinks_of self.new ≡ open_sinks_of self.old - 1 }
    {
        let was = marks_of(&self.table, name);
        let closes = one_more(was.closes);
        let (inner, faults) = snk.into_parts();
        let out_faults = was.out_faults.saturating_add(faults);
        self.inner.put(name, inner);
        if is_planned_next(&self.plan, name, HostCall::CloseSink, was.closes) {
            let out_faults = one_more(out_faults);
            let marks = Marks {
                out_faults,
                closes,
                ..was
            };
            set_marks(&mut self.table, name, marks);
            return Err(Failed);
        }
        let marks = Marks {
            out_faults,
            closes,
            ..was
        };
        set_marks(&mut self.table, name, marks);
        Ok(())
    }
}
